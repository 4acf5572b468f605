//! Symbolic states as the rules see them: a separating shape graph (`graph`) with pure facts, when a memory satisfies a
//! state, and rules as premises with numbers.
//!
//! Stands on `mc_flow` and `mc_pure`; called by `mc_symbolic`, `mc_rules_steps`, `mc_lines` and what is above them.
//!
//! The lemmas on premises and lists in `proofs` speak of any type, which no contract can: the crates whose rules are
//! judged cite them.
#![tactic(auto)]

mod covers;
mod examples;
mod goal;
pub mod graph;
mod laws;
mod line;
mod positions;
mod raw_state;
mod rule;
mod terms;
mod told;

pub use crate::graph::Edge;
pub use covers::{
    bodies_are_edges, body_premises, covers_are_sound, example_covers, example_segment_covers,
};
pub use examples::{example_list, example_merging, example_parts, example_renaming};
pub use goal::Goal;
pub use laws::{
    derived_is_true, edges_come_and_go, less_is_known, merging_is_sound, new_nodes_are_free,
    nodes_are_there, nothing_is_allocated, numbers_stay_bounded, renaming_is_sound,
    variables_change,
};
pub use line::{FoldInd, FoldSeg, Form, InstrRule, JoinStep, Side, Version};
pub use positions::example_back_positions;
pub use raw_state::{NodeKind, RawState};
pub use rule::LogicFault;
pub use terms::Term;
pub use told::{back_is_told, picks_are_named, tests_tell};
