//! Resolved programs of typed trees can be lowered.

mod laws;

pub use laws::resolved_programs_are_lowerable;
