//! What the instruction at a point lacks at a state, decided: where it is no shape (`unmet`), and shapes too
//! (`lacking`).
//!
//! Stands on `mc_apply_unfold`, `mc_apply_steps` and `mc_cover`; called by `mc_kernel`, `mc_check_line` and
//! `mc_follow`.
//!
//! - `unmet`: what the instruction at a point lacks at a state, where it is no shape: decided.
//! - `lacking`: what the instruction at a point lacks at a state, shapes too: decided.
#![tactic(auto)]

pub mod lacking;
pub mod unmet;
