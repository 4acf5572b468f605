//! Applies the rules that fold, and those that change one thing of a state: what they give, or their first premise that
//! is unmet.
//!
//! Stands on `mc_rules_logic`; called by `mc_check_line`.
//!
//! - `fold`: the rules that fold a rule's block and calls into one edge, and the one that meets a goal, decided: what
//!   they give at a state, or their first premise that is unmet.
//! - `change`: the rules that change one thing of a state, decided: what they make of a state, or their first premise
//!   that is unmet.
//! - `forget`: nodes of symbolic states that are forgotten.
#![tactic(auto)]

pub mod change;
pub mod fold;
pub mod forget;
