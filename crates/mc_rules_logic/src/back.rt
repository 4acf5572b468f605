//! The rule of logic that unfolds a segment from its end.

mod examples;
mod laws;

pub use examples::{example_of_back, first_unmet, wrong_back};
pub use laws::{
    back_is_determined, back_is_judged, back_is_sound, back_is_well_made, segments_end_with_bodies,
};
