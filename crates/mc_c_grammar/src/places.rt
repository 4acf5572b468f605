//! A program that was read from a text declares its variables at different places.

mod laws;

pub use laws::{ascending_places_differ, declared_places_ascend, small_programs_have_places};
