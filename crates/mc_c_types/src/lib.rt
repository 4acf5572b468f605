//! Typing of programs: what their names mean, and the first fault of a program that has one.
//!
//! Stands on `mc_c_syntax` and the definitions of `mc_flow`; called by `mc_c_walk`, `mc_c_check` and `mc_semantics`.
#![tactic(auto)]

mod aliases;
mod calls;
mod conditions;
mod examples;
mod expressions;
mod faults;
mod fields;
mod functions;
mod laws;
mod names;
mod scope;
mod simples;
mod tables;
mod told;
mod types;

pub use aliases::Aliases;
pub use calls::parameters;
pub use examples::{
    examples_of_calls, examples_of_entries, examples_of_recursion, examples_of_scopes,
    examples_of_types, examples_well_typed,
};
pub use expressions::VisibleNames;
pub use faults::{Fault, FaultName, TypeFault};
pub use functions::Functions;
pub use laws::{first_fault_is_told_once, well_typed_is_faultless};
pub use names::is_same;
pub use scope::{Named, Visible};
pub use tables::{Meaning, NameTables};
pub use told::FirstFault;
pub use types::{BaseType, ValueType, VariableType};
