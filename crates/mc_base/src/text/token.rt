// Tokens.
use crate::text::place::Place;
use crate::text::text::Text;

/// What a token is. `End` stands once, after the last byte.
#[derive(Clone, Copy, Debug, PartialEq, Eq)]
pub enum TokenKind {
    Name,
    Number,
    Mark,
    End,
}

/// A token: its bytes as the text has them, and the place of the first one.
#[derive(Drop)]
pub struct Token {
    pub kind: TokenKind,
    pub text: Text,
    pub place: Place,
}
