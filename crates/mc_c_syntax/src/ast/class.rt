// What a token is to the grammar.
ghost use Rattle.mc_c_syntax.specs.Ast.Classes.{Each, IsClass, IsMarkOf, IsWordOf, class_beside, grammar_marks};
ghost use Rattle.mc_base.specs.declared.text.token.TokenKind.TheVariants as TokenKind;
ghost use Rattle.mc_c_syntax.specs.Ast.Names.{is_in, is_reserved, is_same, name_of};
ghost use Rattle.std.specs.List.{list_any};
ghost use Rattle.std.specs.Prelude.{◌≡◌, IfOk, map};

use crate::ast::trees::{Comparison, Name};
use mc_base::text::{Text, Token, TokenKind, number_value};
use std::alloc::{AllocError, Global};

/// What a token is to the grammar: a mark or word that it knows, another one, a name, a number or the end.
#[derive(Clone, Copy, Debug, PartialEq, Eq)]
pub enum Class {
    Name,
    Number(u32),
    End,
    Compare(Comparison),
    Arrow,
    PlusPlus,
    MinusMinus,
    PlusAssign,
    MinusAssign,
    And,
    Or,
    OpenBrace,
    CloseBrace,
    OpenParen,
    CloseParen,
    Semicolon,
    Comma,
    Assign,
    Plus,
    Minus,
    Star,
    Bang,
    Int,
    Struct,
    Typedef,
    Static,
    Void,
    Null,
    Malloc,
    Free,
    Input,
    Assert,
    Assume,
    AssumeShape,
    AssertShape,
    AssertEmpty,
    If,
    Else,
    While,
    Do,
    For,
    Break,
    Continue,
    Return,
    Sizeof,
    /// A mark that no program of the language has.
    OtherMark,
    /// A reserved word that no program of the language has.
    OtherWord,
    /// A number that is too large, or none; no text has such a token.
    OtherNumber,
}

// The marks of the grammar, by their first byte.
static MINUS: [(&[u8], Class); 4] = [
    (b"->", Class::Arrow),
    (b"--", Class::MinusMinus),
    (b"-=", Class::MinusAssign),
    (b"-", Class::Minus),
];

static PLUS: [(&[u8], Class); 3] = [
    (b"++", Class::PlusPlus),
    (b"+=", Class::PlusAssign),
    (b"+", Class::Plus),
];

static AND: [(&[u8], Class); 1] = [(b"&&", Class::And)];

static OR: [(&[u8], Class); 1] = [(b"||", Class::Or)];

static OPEN_BRACE: [(&[u8], Class); 1] = [(b"{", Class::OpenBrace)];

static CLOSE_BRACE: [(&[u8], Class); 1] = [(b"}", Class::CloseBrace)];

static OPEN_PAREN: [(&[u8], Class); 1] = [(b"(", Class::OpenParen)];

static CLOSE_PAREN: [(&[u8], Class); 1] = [(b")", Class::CloseParen)];

static SEMICOLON: [(&[u8], Class); 1] = [(b";", Class::Semicolon)];

static COMMA: [(&[u8], Class); 1] = [(b",", Class::Comma)];

static ASSIGN: [(&[u8], Class); 2] = [
    (b"=", Class::Assign),
    (b"==", Class::Compare(Comparison::Equal)),
];

static STAR: [(&[u8], Class); 1] = [(b"*", Class::Star)];

static BANG: [(&[u8], Class); 2] = [
    (b"!=", Class::Compare(Comparison::Unequal)),
    (b"!", Class::Bang),
];

static LESS: [(&[u8], Class); 2] = [
    (b"<", Class::Compare(Comparison::Below)),
    (b"<=", Class::Compare(Comparison::AtMost)),
];

static GREATER: [(&[u8], Class); 2] = [
    (b">", Class::Compare(Comparison::Above)),
    (b">=", Class::Compare(Comparison::AtLeast)),
];

// The keywords of C17 and the words that the language keeps for itself, by their first byte.
static A: [(&[u8], Class); 6] = [
    (b"auto", Class::OtherWord),
    (b"assert", Class::Assert),
    (b"assume", Class::Assume),
    (b"assume_shape", Class::AssumeShape),
    (b"assert_shape", Class::AssertShape),
    (b"assert_empty", Class::AssertEmpty),
];

static B: [(&[u8], Class); 1] = [(b"break", Class::Break)];

static C: [(&[u8], Class); 4] = [
    (b"case", Class::OtherWord),
    (b"char", Class::OtherWord),
    (b"const", Class::OtherWord),
    (b"continue", Class::Continue),
];

static D: [(&[u8], Class); 3] = [
    (b"default", Class::OtherWord),
    (b"do", Class::Do),
    (b"double", Class::OtherWord),
];

static E: [(&[u8], Class); 3] = [
    (b"else", Class::Else),
    (b"enum", Class::OtherWord),
    (b"extern", Class::OtherWord),
];

static F: [(&[u8], Class); 3] = [
    (b"float", Class::OtherWord),
    (b"for", Class::For),
    (b"free", Class::Free),
];

static G: [(&[u8], Class); 1] = [(b"goto", Class::OtherWord)];

static I: [(&[u8], Class); 4] = [
    (b"if", Class::If),
    (b"inline", Class::OtherWord),
    (b"int", Class::Int),
    (b"input", Class::Input),
];

static L: [(&[u8], Class); 1] = [(b"long", Class::OtherWord)];

static M: [(&[u8], Class); 1] = [(b"malloc", Class::Malloc)];

static CAPITAL_N: [(&[u8], Class); 1] = [(b"NULL", Class::Null)];

static R: [(&[u8], Class); 3] = [
    (b"register", Class::OtherWord),
    (b"restrict", Class::OtherWord),
    (b"return", Class::Return),
];

static S: [(&[u8], Class); 6] = [
    (b"short", Class::OtherWord),
    (b"signed", Class::OtherWord),
    (b"sizeof", Class::Sizeof),
    (b"static", Class::Static),
    (b"struct", Class::Struct),
    (b"switch", Class::OtherWord),
];

static T: [(&[u8], Class); 1] = [(b"typedef", Class::Typedef)];

static U: [(&[u8], Class); 2] = [
    (b"union", Class::OtherWord),
    (b"unsigned", Class::OtherWord),
];

static V: [(&[u8], Class); 2] = [(b"void", Class::Void), (b"volatile", Class::OtherWord)];

static W: [(&[u8], Class); 1] = [(b"while", Class::While)];

static UNDERSCORE: [(&[u8], Class); 10] = [
    (b"_Alignas", Class::OtherWord),
    (b"_Alignof", Class::OtherWord),
    (b"_Atomic", Class::OtherWord),
    (b"_Bool", Class::OtherWord),
    (b"_Complex", Class::OtherWord),
    (b"_Generic", Class::OtherWord),
    (b"_Imaginary", Class::OtherWord),
    (b"_Noreturn", Class::OtherWord),
    (b"_Static_assert", Class::OtherWord),
    (b"_Thread_local", Class::OtherWord),
];

/// What a token is to the grammar.
pub fn classify(token: &Token) -> Class
    ensures { IsClass token.now result }
{
    match token.kind {
        TokenKind::End => Class::End,
        TokenKind::Number => number_class(token),
        TokenKind::Mark => mark_class(token),
        TokenKind::Name => word_class(token),
    }
}

fn number_class(token: &Token) -> Class
    requires { token.now.kind ≡ TokenKind.Number }
    ensures { IsClass token.now result }
{
    let text = token.text.as_slice();
    match number_value(text) {
        Some(value) => Class::Number(value),
        None => Class::OtherNumber,
    }
}

fn mark_class(token: &Token) -> Class
    requires { token.now.kind ≡ TokenKind.Mark }
    ensures { IsClass token.now result }
{
    let text = token.text.as_slice();
    match class_among(marks_at(text), text) {
        Some(class) => class,
        None => Class::OtherMark,
    }
}

fn word_class(token: &Token) -> Class
    requires { token.now.kind ≡ TokenKind.Name }
    ensures { IsClass token.now result }
{
    let text = token.text.as_slice();
    match class_among(words_at(text), text) {
        Some(class) => class,
        None => Class::Name,
    }
}

// The marks of the grammar that begin as the text does.
fn marks_at(text: &[u8]) -> &'static [(&'static [u8], Class)]
    ensures all { is_in (map (λ entry. entry.0.now) result.now) text.now ≡ is_in grammar_marks text.now }
    ensures right { Each IsMarkOf (map (λ entry. entry.0.now) result.now) (map (λ entry. entry.1) result.now) }
{
    match text {
        [b'-', ..] => &MINUS,
        [b'+', ..] => &PLUS,
        [b'&', ..] => &AND,
        [b'|', ..] => &OR,
        [b'{', ..] => &OPEN_BRACE,
        [b'}', ..] => &CLOSE_BRACE,
        [b'(', ..] => &OPEN_PAREN,
        [b')', ..] => &CLOSE_PAREN,
        [b';', ..] => &SEMICOLON,
        [b',', ..] => &COMMA,
        [b'=', ..] => &ASSIGN,
        [b'*', ..] => &STAR,
        [b'!', ..] => &BANG,
        [b'<', ..] => &LESS,
        [b'>', ..] => &GREATER,
        _ => &[],
    }
}

// The reserved words that begin as the text does.
fn words_at(text: &[u8]) -> &'static [(&'static [u8], Class)]
    ensures all { is_in (map (λ entry. entry.0.now) result.now) text.now ≡ is_reserved text.now }
    ensures right { Each IsWordOf (map (λ entry. entry.0.now) result.now) (map (λ entry. entry.1) result.now) }
{
    match text {
        [b'a', ..] => &A,
        [b'b', ..] => &B,
        [b'c', ..] => &C,
        [b'd', ..] => &D,
        [b'e', ..] => &E,
        [b'f', ..] => &F,
        [b'g', ..] => &G,
        [b'i', ..] => &I,
        [b'l', ..] => &L,
        [b'm', ..] => &M,
        [b'N', ..] => &CAPITAL_N,
        [b'r', ..] => &R,
        [b's', ..] => &S,
        [b't', ..] => &T,
        [b'u', ..] => &U,
        [b'v', ..] => &V,
        [b'w', ..] => &W,
        [b'_', ..] => &UNDERSCORE,
        _ => &[],
    }
}

// The class that stands beside a text.
fn class_among(table: &[(&[u8], Class)], text: &[u8]) -> Option<Class>
    ensures { result ≡ class_beside (map (λ entry. entry.0.now) table.now) (map (λ entry. entry.1) table.now) text.now }
{
    for (known, class) in table {
        if text == *known {
            return Some(*class);
        }
    }
    None
}

/// Whether a word is a keyword of C17 or one that the language keeps for itself.
pub fn is_reserved(word: &[u8]) -> bool
    ensures { result ≡ is_reserved word.now }
{
    class_among(words_at(word), word).is_some()
}

/// Whether the word is one of these.
pub fn is_one_of(word: &[u8], words: &[&[u8]]) -> bool
    ensures { result ≡ list_any (λ known. is_same word.now known.now) words.now }
{
    words.iter().any(|known| word == *known)
}

/// The name that a token is.
pub fn name_at(alloc: Global, token: &Token) -> Result<Name, AllocError>
    ensures { IfOk result (λ name. name ≡ name_of token.now) }
{
    Ok(Name {
        text: Text::of(alloc, token.text.as_slice())?,
        place: token.place,
    })
}
