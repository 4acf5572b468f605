//! Applies the rules that unfold an edge: what they give at a state, or their first premise that is unmet.
//!
//! Stands on `mc_rules_logic`; called by `mc_check_line`, `mc_gaps` and the search.
#![tactic(auto)]

mod backward;
mod forward;
mod laws;
mod opening;
mod positions;
mod rules;

pub use backward::unfold_back;
pub use forward::{unfold_ind, unfold_seg};
pub use laws::edges_take_rules;
pub use opening::Segment;
pub use positions::{is_back, is_reached_back};
pub use rules::{UnfoldBack, UnfoldInd, UnfoldSeg};
