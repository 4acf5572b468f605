//! What the instruction at a point lacks at a state, shapes too: decided.

mod covers;
mod gap;
mod laws;
mod shapes;

pub use gap::lacking_at;
