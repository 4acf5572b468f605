//! The tokens of a text, of programs and of definition files: names, numbers and marks, each with its place.

mod bytes;
mod fault;
mod lexer;
mod piece;
mod spot;

pub use fault::LexFault;
pub use lexer::{MAX_BYTES, lex, readings_are_unique};
