//! A resolved program has a flow graph.

mod laws;

pub use laws::{flow_graphs_exist, resolved_programs_have_ranks};
