//! Programs that are made from a number: what is drawn from it (`draws`), the kinds of their blocks (`kinds`), and their
//! texts (`programs`).
//!
//! Stands on `mc_base`; called by `mc_app`.
#![tactic(auto)]

mod draws;
mod kinds;
mod made;
mod programs;
mod worked;

pub use kinds::BlockKind;
pub use made::Made;
pub use programs::{definitions, program_of};
pub use worked::first_programs_are_known;
