//! States that are the same under a renaming of their nodes, and states that are numbered anew.

mod laws;

pub use laws::{derived_is_renamed, numbering_is_sound, sameness_is_an_equivalence};
