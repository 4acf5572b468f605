//! The open document of a certificate or a chain, to which lines are applied one after the other.

mod beginning;
mod fault;
mod first;
mod places;
mod proof;
mod stack;
mod stage;

pub use fault::{ApplyFault, Complete};
pub use mc_check_line::Branch;
pub use places::is_cut;
pub use proof::Proof;
pub use stack::Stack;
pub use stage::{Stage, is_ruling};
