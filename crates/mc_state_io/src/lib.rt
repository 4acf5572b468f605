//! States as documents write them (`raw`), and as reports show them (`text`).
//!
//! Stands on `mc_symbolic`; called by `mc_document`, `mc_follow` and the search.
//!
//! - `raw`: states as documents write them: whether one is well formed, and the state that it writes.
//! - `text`: the text of a state in a report.
#![tactic(auto)]

pub mod raw;
pub mod text;
