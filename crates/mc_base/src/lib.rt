//! What every other crate speaks of: numbers with types, kinds and atoms, short lists; in modules of their own texts
//! and places, stacks, ranges of whole numbers, and trees that are dropped in a loop.
//!
//! Stands on nothing of this repository; called by every crate but `mc_outside`.
#![tactic(auto)]

mod ids;
mod items;
mod plain;
pub mod ranges;
pub mod stack;
pub mod text;
pub mod trees;

pub use ids::{EdgeId, NULL, NodeId, PointId, PredId, StructId, VarId};
pub use items::{Args, Items};
pub use plain::{Atom, FaultKind, Kind, NoMemory, VarInfo};
