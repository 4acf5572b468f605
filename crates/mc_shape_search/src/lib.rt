//! Searches in depth over lists of goals (`search`, `tries`), and with them whether an inductive predicate holds on a
//! heap (`sat`).
//!
//! Stands on `mc_flow`; called by `mc_run` for shape commands, `mc_cover` for covers of symbolic states.
//!
//! - `search`: searches in depth over lists of goals: the first way to meet all of them, and that it is found wherever
//!   there is one.
//! - `tries`: the first way to meet a goal, found by a search in depth with a stack of its own: no nesting of goals
//!   uses the machine's stack.
//! - `sat`: decides whether an inductive predicate holds on a heap: on some part of it, or on the whole.
#![tactic(auto)]

pub mod sat;
pub mod search;
pub mod tries;
