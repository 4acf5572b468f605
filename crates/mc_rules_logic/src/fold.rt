//! The rules of logic that fold edges, and those that name, merge and drop.

mod examples;
mod judged;
mod laws;
mod made;
mod refused;
mod wrong;

pub use examples::{
    example_folds, example_of_arguments, example_of_closing, example_of_joining,
    example_of_merging, example_of_other_length, example_of_second_call, example_of_spare,
    examples_of_forgetting, examples_of_lists, examples_of_pointers,
};
pub use judged::{folding_is_judged, naming_is_judged, segments_are_judged};
pub use laws::{
    folding_is_determined, folding_is_sound, goals_are_met, naming_is_determined, naming_is_sound,
    segments_are_closed,
};
pub use made::{folding_makes_well, naming_makes_well, segments_make_well};
pub use refused::{
    examples_of_cells_refused, examples_of_closing_refused, examples_of_dropping_refused,
    examples_of_false_state, examples_of_forks_refused, examples_of_joining_refused,
    examples_of_making_refused, examples_of_naming_refused,
};
pub use wrong::{wrong_closing, wrong_drop, wrong_fold};
