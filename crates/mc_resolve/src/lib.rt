//! Resolves the names of a program: variables, fields, structs, functions and predicates become numbers.
//!
//! Stands on `mc_c_check` and `mc_semantics`; called by `mc_load` and `mc_run`.
#![tactic(auto)]

mod condition;
mod declarations;
mod expression;
mod fields;
mod functions;
mod gather;
mod locals;
mod naming;
mod program;
mod right;
mod shapes;
mod statements;

pub use program::resolve;
