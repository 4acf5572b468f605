//! The line that a branch asks for: what its instruction gives, or what has to be unfolded before.

mod asked;
mod stepping;
mod unfolding;

pub use asked::{at_code, next_line};
pub use stepping::instance;
pub use unfolding::{at_end, at_node, at_null, at_start, false_or_null};
