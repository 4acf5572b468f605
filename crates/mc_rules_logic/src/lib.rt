//! The rules of logic as definitions with their soundness: unfolding an edge, forward and backward, folding, naming,
//! merging, dropping.
//!
//! Stands on `mc_symbolic`; called by `mc_apply_unfold`, `mc_apply_fold` and `mc_kernel`.
//!
//! - `unfold`: the rules of logic that unfold an edge.
//! - `back`: the rule of logic that unfolds a segment from its end.
//! - `fold`: the rules of logic that fold edges, and those that name, merge and drop.
//! - `listed`: what is written where a node is forgotten, as a law: there is such a list for every state.
//! - `rule`: what rules of logic have in common: each is judged, its premises in the order of their numbers, and is
//!   sound.
#![tactic(auto)]

pub mod back;
pub mod fold;
pub mod listed;
pub mod rule;
pub mod unfold;
