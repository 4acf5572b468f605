//! Worked examples of states, of lines out of place, of heads, of folds and of jumps: what is so, and what fails
//! which premise. Each is what a function with no body ensures.

mod folds;
mod heads;
mod jumps;
mod lines;
mod tidy;

pub use folds::{goals_keep_their_nodes, segments_of_other_lengths};
pub use heads::{
    example_of_head, malformed_atoms, malformed_blocks, malformed_kinds, malformed_lists,
    malformed_segments, malformed_variables,
};
pub use jumps::{example_of_jump, jumps_of_images, jumps_of_parts, jumps_out_of_place};
pub use lines::{cuts_and_heads_out_of_place, passes_open_heads, rules_out_of_place};
pub use tidy::{states_not_tidy, tidy_states};
