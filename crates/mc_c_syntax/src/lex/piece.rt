// What stands at the front of a text.
ghost use Rattle.std.specs.Prelude.{◌≡◌, ◌≢◌, ℕ, ◌+◌, ◌<◌, ◌≤◌, ◌↔◌, drop, length, IsTrue, IfSome, MatchOption, codes};
ghost use Rattle.mc_c_syntax.specs.Lex.Pieces.{Begins, line_len, word_len, blank_len, IsInclude, Closes, IsFirstClose, mark_len, IsPiece, FitsIn, first};
ghost use Rattle.mc_c_syntax.specs.Lex.Bytes.{is_separator, is_digit, is_word};
ghost use Rattle.std.specs.Bool.{IsFalse};

use crate::lex::LexFault;
use crate::lex::bytes::{
    is_blank, is_digit, is_double_mark, is_letter, is_separator, is_single_mark, is_word,
};
use crate::lex::spot::Spot;
use mc_base::text::{TokenKind, number_value};

/// What stands at the front of a text, with the number of its bytes.
pub enum Piece {
    /// Nothing: the text ends.
    End,
    /// What parts tokens.
    Gap(usize),
    Lexeme(TokenKind, usize),
    Fault(LexFault),
}

fn line_len(text: &[u8]) -> usize
    ensures value { result ≡ line_len text.now }
    ensures within { result ≤ length text.now }
{
    text.iter().take_while(|b| **b != b'\n').count()
}

fn word_len(text: &[u8]) -> usize
    ensures value { result ≡ word_len text.now }
    ensures within { result ≤ length text.now }
{
    text.iter().take_while(|b| is_word(**b)).count()
}

fn blank_len(text: &[u8]) -> usize
    ensures value { result ≡ blank_len text.now }
    ensures within { result ≤ length text.now }
{
    text.iter().take_while(|b| is_blank(**b)).count()
}

fn mark_len(text: &[u8]) -> usize
    ensures value { result ≡ mark_len text.now }
    ensures within { result ≤ length text.now }
{
    match text {
        [a, b, ..] if is_double_mark(*a, *b) => 2,
        [a, ..] if is_single_mark(*a) => 1,
        _ => 0,
    }
}

fn is_include(text: &[u8]) -> bool
    ensures { IsTrue result ↔ IsInclude text.now }
{
    if text.is_empty() || text[0] != b'#' {
        return false;
    }
    let (_, line) = text.split_at(1);
    let (_, rest) = line.split_at(blank_len(line));
    let (word, _) = rest.split_at(word_len(rest));
    word == b"include".as_slice()
}

// Where the first `*/` stands.
fn close_at(text: &[u8]) -> Option<usize>
    ensures found { MatchOption result ((k : ℕ) → ¬ Closes text.now k) (IsFirstClose text.now) }
    ensures within { IfSome result (λ at. at + 2 ≤ length text.now) }
{
    for end in 1..text.len() {
        if text[end - 1] == b'*' && text[end] == b'/' {
            return Some(end - 1);
        }
    }
    None
}

fn comment_piece(spot: Spot, text: &[u8]) -> Piece
    requires { Begins (codes "/*") text.now }
    ensures piece { IsPiece spot text.now result }
    ensures fits { FitsIn (length text.now) result }
{
    let (_, body) = text.split_at(2);
    match close_at(body) {
        Some(at) => Piece::Gap(at + 4),
        None => Piece::Fault(LexFault::OpenComment(spot.place)),
    }
}

fn number_piece(spot: Spot, text: &[u8]) -> Piece
    requires { IsTrue (is_digit (first text.now)) }
    ensures piece { IsPiece spot text.now result }
    ensures fits { FitsIn (length text.now) result }
{
    let len = word_len(text);
    match number_value(&text[..len]) {
        Some(_) => Piece::Lexeme(TokenKind::Number, len),
        None => Piece::Fault(LexFault::BadNumber(spot.place)),
    }
}

/// What a text begins with, at this spot.
pub fn first_piece(spot: Spot, text: &[u8]) -> Piece
    ensures piece { IsPiece spot text.now result }
    ensures fits { FitsIn (length text.now) result }
{
    match text {
        [] => Piece::End,
        [b, ..] if is_separator(*b) => Piece::Gap(1),
        [b, ..] if is_letter(*b) => Piece::Lexeme(TokenKind::Name, word_len(text)),
        [b, ..] if is_digit(*b) => number_piece(spot, text),
        [b'/', b'/', ..] => Piece::Gap(line_len(text)),
        [b'/', b'*', ..] => comment_piece(spot, text),
        [b'#', ..] if spot.at_line_start && is_include(text) => Piece::Gap(line_len(text)),
        _ => mark_piece(spot, text),
    }
}

fn mark_piece(spot: Spot, text: &[u8]) -> Piece
    requires some { 0 < length text.now }
    requires separator { IsFalse (is_separator (first text.now)) }
    requires word { IsFalse (is_word (first text.now)) }
    requires line_comment { ¬ Begins (codes "//") text.now }
    requires block_comment { ¬ Begins (codes "/*") text.now }
    requires include { ¬ (IsTrue spot.at_line_start × IsInclude text.now) }
    ensures piece { IsPiece spot text.now result }
    ensures fits { FitsIn (length text.now) result }
{
    match mark_len(text) {
        0 => Piece::Fault(LexFault::BadByte(spot.place)),
        len => Piece::Lexeme(TokenKind::Mark, len),
    }
}
