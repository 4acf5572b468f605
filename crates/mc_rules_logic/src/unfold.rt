//! The rules of logic that unfold an edge.

mod examples;
mod laws;

pub use examples::{example_of_ind, example_of_seg, first_unmet, wrong_segments};
pub use laws::{
    own_places_are_calls, rules_are_made, rules_stand_at_nodes, states_stay_well_made,
    unfolding_is_determined, unfolding_is_judged, unfolding_is_sound, unfolding_is_well_made,
};
