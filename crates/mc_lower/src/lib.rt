//! Lowers resolved programs to their flow graphs, calls inlined.
//!
//! Stands on `mc_lower_laws`; called by `mc_load`.
#![tactic(auto)]

mod assignments;
mod builder;
mod calls;
mod commands;
mod conditions;
mod finishing;
mod lines;
mod lowering;
mod owners;
mod settling;
mod statements;
mod tasks;
mod values;
mod variables;

pub use lowering::{LowerFault, Lowered, lower};
