//! Edges of symbolic states, each of which describes memory of its own.

mod edge;

pub use edge::Edge;
