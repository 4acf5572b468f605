//! Folds what a state has at a cut to a normal form: edges into inductive edges and segments, where no node is hidden
//! that is still needed.
//!
//! Stands on `mc_find_view` and `mc_find_paths`; called by `mc_find`.
#![tactic(auto)]

mod asked;
mod folds;
mod guessing;
mod hiding;
mod hopeless;
mod keeping;
mod naming;
mod parts;
mod shrinking;
mod survey;
mod taken;
mod trying;
mod whole;

pub use asked::args_of;
pub use mc_find_paths::trail::{Branch, MadeOf, Paths, Trail, cover, make, plain};
pub use shrinking::{note, shrink};
pub use survey::{Manner, Step, Survey};
pub use taken::taken_by;
pub use trying::candidates;
