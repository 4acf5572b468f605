//! Checked definitions: the items of a definition file judged in their order over a program's structs, or the first
//! fault.
//!
//! Stands on `mc_def_parse` and the definitions of `mc_flow`; called by `mc_load`.
#![tactic(auto)]

mod body;
mod held;
mod judged;
mod kept;
mod reading;
mod scope;
mod words;

pub use mc_def_parse::{Cause, DefFault, Refusal};
pub use reading::{read_defs, texts_are_read_once};
