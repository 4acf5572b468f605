//! Documents of both forms: the open document of a chain of several passes (`passes`), and documents in pieces, judged
//! as they come (`judge`).
//!
//! Stands on `mc_document` and `mc_replay`; called by `mc_app`.
//!
//! - `passes`: the open document of a chain of several passes, to which lines are applied one after the other.
//! - `judge`: documents in pieces, judged line by line as they come.
//! - `laws`: what holds of documents of which some lines are read.
#![tactic(auto)]

pub mod judge;
pub mod laws;
pub mod passes;
