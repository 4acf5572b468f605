//! What the search sees of a state: what is still needed of variables and fields (`live`), the shape that the live
//! variables reach (`sight`), and the arguments that a predicate may have (`guess`).
//!
//! Stands on `mc_cover` and `mc_apply_unfold`; called by `mc_find_shrink` and `mc_find`.
//!
//! - `live`: what a flow graph still needs of variables and fields: which variables are read later, which fields are
//!   stored before they are read, which variables hold constants alone.
//! - `sight`: what is seen of a state from its live variables: the shape of a head, with nodes of its own for all
//!   numbers, and where each of its nodes and edges stands in the state.
//! - `guess`: the arguments with which a predicate may hold where a symbolic state has its memory, guessed.
#![tactic(auto)]

pub mod guess;
pub mod live;
pub mod sight;
