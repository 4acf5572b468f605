//! Flow graphs, in which programs are analysed: points with instructions, what they do when they run, and which are
//! valid; below them the heap (`heap`) and inductive definitions over it (`defs`).
//!
//! Stands on `mc_base`; called by `mc_semantics` (programs become flow graphs), `mc_state` (states of the analysis),
//! and what is above them.
#![tactic(auto)]

pub mod defs;
mod examples;
mod graph;
pub mod heap;
mod instr;
mod validity;

pub use crate::defs::{Defs, FieldInfo, StructInfo, Structs};
pub use examples::{example_empty_heaps, example_numbers, example_shapes};
pub use graph::{Flow, Point};
pub use instr::{Instr, Operand};
pub use validity::valid;
