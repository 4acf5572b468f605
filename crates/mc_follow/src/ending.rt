//! Side branches can be ended: where a predicate has a cover, lines make an Ind of it.

mod laws;
mod met;
mod names;
mod opening;

pub use laws::{goals_are_made, sides_can_end};
pub use met::Met;
pub use opening::{all_met, rule_of};
