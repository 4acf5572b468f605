//! The values of resolved programs are of the kinds that are wanted, where the programs are well typed.

mod laws;

pub use laws::{resolved_programs_are_well_made, typedefs_are_known, typedefs_matter};
