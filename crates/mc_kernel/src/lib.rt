//! What documents mean: a valid certificate makes a flow graph safe, and the last pass of a chain finds its faults;
//! each law is what a function with no body ensures.
//!
//! Stands on the rules, `mc_cover`, `mc_gaps` and `mc_lines`; called by `mc_check_line`, `mc_document` and `mc_joins`.
#![tactic(auto)]

mod examples;
mod judged;
mod laws;
pub mod oracle;
pub mod progress;
pub mod reading;
pub mod shown;
mod wrong_jumps;

pub use examples::{example_of_jump, failing_is_stuck, list_is_certified, loop_is_certified};
pub use judged::lines_are_judged;
pub use laws::{certificates_are_safe, jumps_are_sound, last_pass_finds_faults};
pub use wrong_jumps::{edges_are_taken_once, jumps_come_after_steps, loop_heads_are_cuts};
