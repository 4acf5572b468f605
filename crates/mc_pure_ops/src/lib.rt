//! Operations on pure facts: canonical lists, renamings, joins.
//!
//! Stands on `mc_pure`; called by `mc_symbolic`, `mc_joins` and the search.
//!
//! - `canon`: the canonical list of what is known of nodes, and what is left of it where a node is forgotten.
//! - `renaming`: renamings: finite maps from nodes to nodes.
//! - `renamed`: what is known of nodes, with other nodes in their places.
//! - `join`: what is known on both sides of a join: equalities, hulls of ranges, disequalities.
#![tactic(auto)]

pub mod canon;
pub mod join;
pub mod renamed;
pub mod renaming;
