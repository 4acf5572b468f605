//! The flow graphs of resolved programs are valid, where the programs are of their kinds.

mod laws;

pub use laws::lowerings_are_valid;
