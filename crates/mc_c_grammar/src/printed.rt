//! What is printed of a program is read as the same program.

mod laws;

pub use laws::{
    printed_programs_are_read, printed_words_are_read, printing_tells_programs_apart,
    small_programs_are_printed,
};
