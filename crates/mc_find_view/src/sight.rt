//! What is seen of a state from its live variables: the shape of a head, with nodes of its own for all numbers, and where
//! each of its nodes and edges stands in the state.

mod kinds;
mod looking;
mod naming;
mod reaching;
mod seen;
mod sight;

pub use looking::look;
pub use naming::{Nodes, edge_names, is_dead_field};
pub use reaching::{class_at, reached_edges};
pub use seen::{Seen, are_alike};
pub use sight::Sight;
