//! The open document of a chain of several passes, to which lines are applied one after the other.

mod passes;
mod places;

pub use passes::{Passes, WholeChain};
