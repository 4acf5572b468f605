//! Finds a certificate of a program, loops included, or a chain that tells where it may fail, by attempts that count only
//! where what they wrote is accepted; in `analysis`, what `analyse` answers of a flow graph.
//!
//! Stands on `mc_find_shrink` and `mc_follow`; called by `mc_app`.
#![tactic(auto)]

mod accepted;
mod alarming;
pub mod analysis;
mod cuts;
mod finding;
pub mod matching;
mod orders;
mod prepared;
mod rank;
mod runs;
mod searching;
pub mod walks;
mod ways;

pub use crate::walks::Limits;
pub use runs::{NoRuns, Runs};
pub use searching::{joined_ways, search};
