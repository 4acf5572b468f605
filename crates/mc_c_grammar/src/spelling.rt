//! How programs are spelled: their trees are printed, and tokens spell one tree at most.

mod laws;
mod print;
mod print_condition;
mod print_expression;
mod print_right;
mod print_simple;
mod print_statement;
mod print_struct;
mod print_word;

pub use laws::trees_are_unique;
pub use print::print_unit;
