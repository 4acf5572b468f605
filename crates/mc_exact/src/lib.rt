//! Exact branches: those that come from the entry by instructions and answers of `malloc` alone, each of which one run
//! follows; what an instruction lacks at its end, no shape, is a fault of that run. Laws, and the code that finds the
//! run's answers of `malloc`. Alarms of a chain that are marked carry these answers.
//!
//! Stands on the rules, `mc_symbolic` and `mc_kernel`; called by `mc_follow`, which marks alarms, and by `mc_real`.
#![tactic(auto)]

mod closed;
mod examples;
mod laws;
mod made;
mod picks;

pub use closed::asks_malloc_alone;
pub use examples::freed_is_read;
pub use laws::{
    alarms_are_real, closed_alarms_are_marked, least_valuations_are_true, marks_are_exact,
    tracks_stay_exact,
};
pub use made::exact_states_are_well_made;
pub use picks::{answers, least};
