//! Several changes of a symbolic state at once, as rules make them.

mod batches;

pub use crate::State;
pub use batches::{add_nodes, add_number, assume_all, forget_vars, take_edges};
