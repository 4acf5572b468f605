// Texts and their tokens.
use crate::input::bytes;
use anyhow::{Result, bail};
use mc_base::text::{Place, Token, TokenKind};
use mc_c_syntax::lex::{LexFault, MAX_BYTES, lex};
use mc_cases::Case;
use std::alloc::{AllocError, Global};

/// The tokens of a case's text, each with the letter of its kind before it and its place after it.
pub fn came(alloc: Global, case: Case<'_>) -> Result<String> {
    let text = bytes(alloc, case, "text")?;
    if text.len() > MAX_BYTES {
        bail!("too long");
    }
    match lex(alloc, text.as_slice()) {
        Ok(tokens) => Ok(shown(alloc, tokens.as_slice())?),
        Err(fault) => Ok(shown_fault(alloc, fault)?),
    }
}

fn letter(kind: TokenKind) -> char {
    match kind {
        TokenKind::Name => 'n',
        TokenKind::Number => 'd',
        TokenKind::Mark => 'm',
        TokenKind::End => 'e',
    }
}

fn shown(alloc: Global, tokens: &[Token]) -> Result<String, AllocError> {
    let mut out = String::new(alloc);
    for token in tokens {
        if !out.is_empty() {
            out.push(' ')?;
        }
        add_token(&mut out, token)?;
    }
    Ok(out)
}

fn add_token(out: &mut String, token: &Token) -> Result<(), AllocError> {
    out.push(letter(token.kind))?;
    for byte in token.text.as_slice() {
        out.push(char::from(*byte))?;
    }
    out.push('@')?;
    add_place(out, token.place)
}

/// A place, as its line and its column.
pub fn add_place(out: &mut String, place: Place) -> Result<(), AllocError> {
    let line = place.line;
    let column = place.column;
    write!(out, "{line}:{column}")
}

fn shown_fault(alloc: Global, fault: LexFault) -> Result<String, AllocError> {
    let (name, place) = match fault {
        LexFault::BadByte(place) => ("bad byte ", place),
        LexFault::OpenComment(place) => ("open comment ", place),
        LexFault::BadNumber(place) => ("bad number ", place),
        LexFault::NoMemory => return Err(AllocError),
    };
    let mut out = String::from_str(alloc, name)?;
    add_place(&mut out, place)?;
    Ok(out)
}
