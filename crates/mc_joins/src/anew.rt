//! Symbolic states whose nodes and edges are numbered anew, in order.

mod edges;
mod numbered;

pub use numbered::{Renewed, anew, put_whole};
