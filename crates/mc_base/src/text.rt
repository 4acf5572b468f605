//! Places, texts, tokens, and the numbers that words spell: what readers of programs, of definitions and of
//! documents have in common.

mod number;
mod place;
mod print;
mod text;
mod token;

pub use number::number_value;
pub use place::Place;
pub use print::{print_number, print_place};
pub use text::Text;
pub use token::{Token, TokenKind};
