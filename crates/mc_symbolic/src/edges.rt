//! The edges of a symbolic state with their ids.

mod graph;

pub use graph::Graph;
