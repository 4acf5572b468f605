//! That branches of documents go on, as laws: each advances by some line, or its instruction is unmet.

mod laws;

pub use laws::{asked_lines_are_right, branches_advance, branches_stay_inside};
