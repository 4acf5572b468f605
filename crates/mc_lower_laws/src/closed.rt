//! The flow graphs of programs without loops, inputs and shape commands ask for answers of malloc alone.

mod laws;

pub use laws::closed_programs_ask_for_malloc_alone;
