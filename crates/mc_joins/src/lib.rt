//! Joins of two states, states equal up to renaming, and chains of several passes, as definitions with their laws. A join of
//! states that are not false has exactly one result once no step is left: its atoms are the canonical list of what the joint
//! atoms entail. In code: whether a state is tidy, whether two are the same, and a state numbered anew.
//!
//! Stands on `mc_kernel`; called by `mc_replay`, `mc_judge` and `mc_app`.
#![tactic(auto)]

pub mod alike;
pub mod anew;
pub mod chains;
mod examples;
mod laws;
pub mod same;

pub use examples::{
    cells_stand_for_join, counter_joins, empty_joins, folding_joins, naming_joins,
    null_stands_for_join, one_class_joins, refused_joins, segment_joins, stuck_joins,
    tied_counters_join, turned_joins,
};
pub use laws::{
    joins_are_determined, joins_are_sound, joins_are_there, joins_make_well, joins_name_all,
    made_are_told, steps_are_determined, stuck_is_every,
};
