//! Decides whether an inductive predicate holds on a heap: on some part of it, or on the whole.
//!
//! A predicate at a value with arguments is a goal. It is met by one of its rules, whose names have one value each: the
//! value, the arguments, what the block's fields hold, and the sums of the atoms that introduce names. The calls of the
//! rule are the goals that are left, and each block is taken once. `mc_shape_search::tries` searches, with a stack of its own.

mod goals;
mod laws;
mod names;
mod search;
mod whole;

pub use goals::{Goal, Mark};
pub use laws::{heights_are_low, names_are_unique, parts_are_heaps};
pub use whole::{holds, meets};
