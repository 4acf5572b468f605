//! Jumps, decided: whether a state fits a state of a cut, or the first premise that is unmet. Neither state is copied.

mod edges;
mod fitting;
mod images;
mod laws;

pub use fitting::fits;
pub use laws::jumps_are_fits;
