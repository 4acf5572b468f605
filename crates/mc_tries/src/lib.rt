//! Scripts on which a program faults at places that are asked for, found by running it: choices are drawn as a run asks for
//! them (`walk`), shapes are made by unfolding definitions (`making`), what a script does not need is left out (`shorten`),
//! and each script that is answered was run as it stands (`found`). Of the search nothing is claimed but that.
//!
//! Stands on `mc_run`; called by `mc_app`.
#![tactic(auto)]

mod addresses;
mod constants;
mod draws;
mod found;
mod lines;
mod making;
mod numbers;
mod search;
mod shorten;
mod slots;
mod style;
mod walk;

pub use found::{Found, faults, scripts};
