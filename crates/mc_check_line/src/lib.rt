//! Checks rule lines of documents at branches: the branches that come of a line, or its first premise that is unmet; in
//! `jump`, whether a state fits a state of a cut.
//!
//! Stands on `mc_kernel` and the crates that apply rules; called by `mc_document` and the search.
#![tactic(auto)]

mod access;
mod branch;
mod folds;
pub mod jump;
mod jumps;
mod lines;
mod logic;
mod places;
mod steps;
mod stuck;
mod unfolds;

pub use access::accessed_by;
pub use branch::{Branch, Head, Next, Refused, Setting};
pub use lines::judge;
