//! The numbers of a program that was read are at most 2147483647.

mod laws;

pub use laws::{numbers_are_small, small_programs_have_numbers};
