//! Lowering as a relation: which flow graphs a resolved program has, calls inlined, and how many points (`length`).
//!
//! Stands on `mc_semantics`; called by `mc_lower_laws` and `mc_lower`.
#![tactic(auto)]

mod laws;
pub mod length;

pub use laws::{faults_match, runs_match, small_programs_are_lowered, small_programs_are_scoped};
