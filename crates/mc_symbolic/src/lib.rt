//! Symbolic states that answer what is entailed by them, their edges by number (`edges`), changes of several facts
//! at once (`changes`), and lists of nodes (`nodes`).
//!
//! Stands on `mc_state` and `mc_pure_ops`; called by the rules, covers and documents.
#![tactic(auto)]

pub mod changes;
pub mod edges;
pub mod nodes;
mod reached;
mod state;

pub use reached::is_reached;
pub use state::State;
