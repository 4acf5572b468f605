//! From the outside to a flow graph: a program read from its text (`read`), the program and the definitions that a
//! command names (`inputs`), and its flow graph (`lowered`).
//!
//! Stands on `mc_outside`, `mc_c_parse`, `mc_def_read`, `mc_resolve` and `mc_lower`; called by `mc_app`.
//!
//! - `read`: a program from its text, or the first thing that is wrong with it.
//! - `inputs`: the program and the definitions that a command names, or those of two texts, read and bound.
//! - `lowered`: the flow graph of a program that was read, with its definitions.
#![tactic(auto)]

pub mod inputs;
pub mod lowered;
pub mod read;
