//! A reader of the statements of a function, which takes one token at a time.
//!
//! Stands on `mc_c_parse_simple`; called by `mc_c_parse`.
#![tactic(auto)]

mod begin;
mod frames;
mod inner;
mod known;
mod line;
mod makes;
mod phrase;
mod settle;
mod shape;
mod state;
mod step;

pub use state::{BodyReader, BodyStep, bodies_can_end};
