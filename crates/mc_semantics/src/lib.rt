//! What typed programs do when they run, step by step, as definitions: with names (the root) and with names resolved
//! (`resolved`), when a run waits for a choice (`waiting`), and small programs worked out (`worked`).
//!
//! Stands on `mc_c_types` and `mc_flow`; called by `mc_resolve`, `mc_lower_spec` and `mc_run_values`.
#![tactic(auto)]

mod laws;
pub mod resolved;
pub mod waiting;
pub mod worked;

pub use laws::{small_programs_run, steps_are_determined, values_are_determined};
