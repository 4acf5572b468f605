//! A walk through the body of a function, part by part, with the names that are visible at each.
//!
//! Stands on `mc_c_types`; called by `mc_c_check` and `mc_resolve`.
#![tactic(auto)]

mod laws;
mod parts;
mod tasks;
mod variables;
mod walking;

pub use laws::{visits_give_calls, visits_give_faults, visits_give_uses};
pub use parts::Part;
pub use variables::{Marks, Variables};
pub use walking::Walk;
