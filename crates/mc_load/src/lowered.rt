//! The flow graph of a program that was read, with its definitions.

mod graphs;

pub use graphs::{TooLong, graph};
