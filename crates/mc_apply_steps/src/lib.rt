//! Applies the rules of instructions: what comes of an instruction at a state, or its first premise that is unmet.
//!
//! Stands on `mc_rules_steps` and `mc_symbolic`; called by `mc_check_line`, `mc_gaps` and the search.
//!
//! - `step`: the rules of instructions, decided: what comes of an instruction at a state, or its first premise that is
//!   unmet.
//! - `compute`: the rules of instructions that speak of numbers, decided: sums, differences, products and their order.
//! - `instructions`: the rules of instructions by their names: what the rule that a document names gives at a point.
#![tactic(auto)]

pub mod compute;
pub mod instructions;
pub mod step;
