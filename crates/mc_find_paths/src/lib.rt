//! Open branches of the search: the line that each asks for (`next`), lines applied to them without a document
//! (`paths`), and lines of logic recorded on the way (`trail`).
//!
//! Stands on `mc_document`; called by `mc_find_shrink`, `mc_follow` and `mc_find`.
//!
//! - `next`: the line that a branch asks for: what its instruction gives, or what has to be unfolded before.
//! - `paths`: open branches of a program, to which lines are applied one after the other, without a document: what the
//!   rules give is what the kernel gives.
//! - `trail`: states that lines of logic change one after the other, and the lines that make a predicate of the edges
//!   of a cover.
#![tactic(auto)]

pub mod next;
pub mod paths;
pub mod trail;
