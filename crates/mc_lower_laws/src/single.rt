//! A resolved program with its structs has one flow graph at most.

mod laws;

pub use laws::flow_graphs_are_one;
