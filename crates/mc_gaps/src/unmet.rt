//! What the instruction at a point lacks at a state, where it is no shape: decided.

mod gaps;
mod laws;
mod searches;
mod unknown;

pub use gaps::gap_at;
pub use laws::gaps_are_told;
