//! The rules of instructions as definitions with their soundness, and when an instruction lacks something (is unmet).
//!
//! Stands on `mc_state`; called by `mc_apply_steps`, `mc_gaps` and `mc_kernel`.
#![tactic(auto)]

mod examples;
mod fitting;
mod gap;
mod judged_examples;
mod judged_laws;
mod laws;
mod wrong_rules;

pub use examples::{example_blocks, example_gaps, example_numbers, example_premises, example_runs};
pub use fitting::{blocks_are_there, instructions_fit, operands_fit, results_are_ranged};
pub use gap::Gap;
pub use judged_examples::{
    example_comparisons, example_given, example_of_back_position, example_results,
    example_unmet_blocks, example_unmet_moves,
};
pub use judged_laws::{
    causes_are_one, fields_are_there, least_ranges_are_known, operands_tell_nothing,
    steps_are_judged, steps_are_well_made,
};
pub use laws::{steps_are_sound, steps_stay_bounded, unmet_has_no_step};
pub use wrong_rules::{
    kept_block_is_wrong, sure_malloc_is_wrong, unchecked_sum_is_wrong, unknown_load_is_wrong,
};
