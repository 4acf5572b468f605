//! Real alarms: where something other than a shape is lacking on an exact branch of a program without loops, the program
//! faults there with the branch's answers of `malloc`, within 20,000 steps (`near` has why so soon), and so it does with
//! their script; in a program without inputs and shape commands every blocked branch is such. Laws: each is what a function
//! with no body ensures.
//!
//! Stands on `mc_exact`, `mc_lower_laws` and `mc_run`; called by `mc_app`.
#![tactic(auto)]

mod laws;
mod marked;
mod near;
mod scripts;

pub use laws::{closed_alarms_are_real, exact_alarms_are_reached, exact_alarms_are_real};
pub use marked::marked_alarms_are_real;
pub use near::{flow_faults_are_near, runs_are_short};
pub use scripts::malloc_scripts_are_taken;
