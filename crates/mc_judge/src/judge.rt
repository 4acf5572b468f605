//! Documents in pieces, judged line by line as they come.

mod judge;
mod naming;
mod open;
mod pieces;
mod stage;
mod verdict;

pub use judge::Judge;
pub use verdict::{Refusal, Verdict};
