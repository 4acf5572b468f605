//! How many points the flow graph of a program has, calls inlined, found without it.

mod actions;
mod laws;
mod statements;
mod tables;
mod values;

pub use laws::flow_graphs_are_so_long;
pub use tables::length;
