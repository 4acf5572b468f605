//! Parts of the interpreter: scripts (`script`), what is left to do and what variables hold (`tasks`), values of
//! expressions and what is written into fields (`values`).
//!
//! Stands on `mc_semantics` and `mc_lines`; called by `mc_run`.
//!
//! - `script`: scripts: the choices of a run, a line for each.
//! - `tasks`: what is left to do of a resolved program, and what its variables hold.
//! - `values`: the values of the expressions of resolved programs, with inputs from a script, and what is written into
//!   fields.
#![tactic(auto)]

pub mod script;
pub mod tasks;
pub mod values;
