//! What is written in a resolved program is in scope, so its flow graph runs as the program does.

mod laws;

pub use laws::{
    faults_are_in_flow_graphs, flow_faults_are_in_programs, resolved_programs_are_scoped,
    safe_flow_graphs_mean_safe_trees,
};
