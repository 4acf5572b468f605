//! Inductive definitions over structs: their data, what they mean, and their instances.

mod defs;
mod examples;
mod fits;
mod instance;
mod laws;
mod rules;
mod shapes;
mod structs_fit;

pub use defs::Defs;
pub use examples::{example_predicates, example_premises, example_segments, examples_fit};
pub use instance::{Instance, instantiate};
pub use laws::{
    heights_grow, null_is_empty, predicates_are_bodies, segments_are_bodies, segments_join,
};
pub use rules::{Call, Def, DefAtom, Rule};
pub use shapes::{FieldInfo, StructInfo, Structs};
