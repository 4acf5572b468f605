//! What small programs about memory, counting, blocks and shapes come to, worked out step by step.

mod laws;

pub use laws::{
    blocks_are_freed, blocks_are_left, blocks_are_linked, blocks_are_used, functions_are_called,
    heaps_are_empty, names_hide_names, numbers_are_counted, shapes_are_told,
    shapes_take_their_arguments, turns_go_on, values_are_taken_in_order,
    values_go_to_their_declarators, variables_are_left, variables_outlive_turns,
};
