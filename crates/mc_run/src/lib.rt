//! Runs resolved programs with the choices of a script (the root), and programs with names (`interpret`).
//!
//! Stands on `mc_run_values`, `mc_resolve` and `mc_shape_search`; called by `mc_app`.
#![tactic(auto)]

mod assigning;
mod calling;
mod commands;
mod conditions;
pub mod interpret;
mod machine;
mod outcome;
mod running;
mod shapes;
mod step;

pub use machine::{Machine, Program};
pub use outcome::{End, Outcome, Stepped};
pub use running::run;
pub use step::make;
