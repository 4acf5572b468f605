//! Covers: which edges of a state make a predicate or a segment of it, as total functions (the root), and found
//! (`search`).
//!
//! Stands on `mc_symbolic` and `mc_shape_search`; called by `mc_gaps`, `mc_kernel` and the search.
#![tactic(auto)]

mod examples;
mod goals;
mod laws;
pub mod search;

pub use examples::{example_alike, example_firsts, example_guesses, example_segments, no_firsts};
pub use goals::{Goal, Mark};
pub use laws::{firsts_are_covers, guess_is_the_guess, near_is_first, none_is_missed};
