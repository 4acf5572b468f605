// What a token is to the grammar of definition files.
ghost use Rattle.mc_c_syntax.specs.Ast.Names.{IsNumber};
ghost use Rattle.mc_def_parse.specs.Symbols.{beside, mark_symbol, symbol_of, mark_texts, mark_symbols, word_symbol};
ghost use Rattle.mc_base.specs.declared.text.token.TokenKind.TheVariants as TokenKind;
ghost use Rattle.std.specs.Prelude.{◌≡◌, ℕ, MatchOption, map};

use mc_base::text::{Token, TokenKind, number_value};
use mc_c_syntax::ast::is_reserved;

/// What a token is to the grammar of definition files. `Other` stands nowhere.
#[derive(Clone, Copy, Debug, PartialEq, Eq)]
pub enum Symbol {
    Name,
    Int,
    Number,
    End,
    Open,
    Close,
    OpenBrace,
    CloseBrace,
    Comma,
    Semicolon,
    Colon,
    Arrow,
    Equal,
    Unequal,
    AtMost,
    AtLeast,
    Plus,
    Minus,
    Other,
}

/// What a token is to the grammar.
pub fn classify(token: &Token) -> Symbol
    ensures { result ≡ symbol_of token.now }
{
    match token.kind {
        TokenKind::End => Symbol::End,
        TokenKind::Number => Symbol::Number,
        TokenKind::Mark => mark(token.text.as_slice()),
        TokenKind::Name => word(token.text.as_slice()),
    }
}

fn word(text: &[u8]) -> Symbol
    ensures { result ≡ word_symbol text.now }
{
    if !is_reserved(text) {
        Symbol::Name
    } else if text == b"int".as_slice() {
        Symbol::Int
    } else {
        Symbol::Other
    }
}

#[tactic(auto, unfolding(crate::specs::Symbols::mark_symbol))]
fn mark(text: &[u8]) -> Symbol
    ensures { result ≡ mark_symbol text.now }
{
    match text {
        [b';'] => Symbol::Semicolon,
        [b'='] => Symbol::Equal,
        [b'('] => Symbol::Open,
        [b')'] => Symbol::Close,
        [b','] => Symbol::Comma,
        [b'{'] => Symbol::OpenBrace,
        [b'}'] => Symbol::CloseBrace,
        [b':'] => Symbol::Colon,
        [b'-', b'>'] => Symbol::Arrow,
        [b'!', b'='] => Symbol::Unequal,
        [b'<', b'='] => Symbol::AtMost,
        [b'>', b'='] => Symbol::AtLeast,
        [b'+'] => Symbol::Plus,
        [b'-'] => Symbol::Minus,
        _ => Symbol::Other,
    }
}

/// The number that a token is.
pub fn number(token: &Token) -> Option<u32>
    ensures { MatchOption result ((n : ℕ) → ¬ IsNumber token.now n) (λ n. IsNumber token.now n) }
{
    match token.kind {
        TokenKind::Number => number_value(token.text.as_slice()),
        TokenKind::End | TokenKind::Mark | TokenKind::Name => None,
    }
}
