//! The rules of instructions, decided: what comes of an instruction at a state, or its first premise that is unmet.

mod blocks;
mod comparisons;
mod moves;
mod next;
mod operands;
mod shapes;

pub use blocks::{free, free_null, load, malloc, store};
pub use comparisons::test_equal;
pub use moves::{branched, copy, forget, moved_to, next_at, put_new, skip, take};
pub use next::{Next, Refused, Stepped};
pub use operands::{Value, node_of, put, read};
pub use shapes::{assert_empty, end};
