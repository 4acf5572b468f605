//! Open branches of a program, to which lines are applied one after the other, without a document: what the rules give is
//! what the kernel gives.

mod advancing;
mod entering;
mod paths;

pub use mc_check_line::Branch;
pub use paths::Paths;
