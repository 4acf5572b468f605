// Texts and what the grammar says of them, before any name is known.
use crate::input::bytes;
use crate::tokens::add_place;
use anyhow::{Result, bail};
use mc_c_grammar::spelling::print_unit;
use mc_c_parse::{ParseFault, parse};
use mc_c_syntax::ast::Unit;
use mc_c_syntax::lex::{MAX_BYTES, lex};
use mc_cases::{Case, latin};
use std::alloc::{AllocError, Global};

// The unit that a text is.
fn unit(alloc: Global, text: &[u8]) -> Result<Result<Unit, ParseFault>> {
    if text.len() > MAX_BYTES {
        bail!("too long");
    }
    match lex(alloc, text) {
        Ok(tokens) => Ok(parse(alloc, tokens.as_slice())),
        Err(_) => bail!("no tokens"),
    }
}

/// Whether a case's text is a program by its grammar, and else the first token that is wrong.
pub fn came(alloc: Global, case: Case<'_>) -> Result<String> {
    let text = bytes(alloc, case, "text")?;
    match unit(alloc, text.as_slice())? {
        Ok(_) => Ok(String::from_str(alloc, "read")?),
        Err(fault) => Ok(shown(alloc, &fault)?),
    }
}

fn shown(alloc: Global, fault: &ParseFault) -> Result<String, AllocError> {
    let mut out = String::new(alloc);
    match fault {
        ParseFault::Unexpected(place) => {
            out.push_str("unexpected ")?;
            add_place(&mut out, *place)?;
        }
        ParseFault::LeftOut(text, place) => {
            let name = latin::text_of(alloc, text.as_slice())?;
            write!(&mut out, "left out {} ", name.as_str())?;
            add_place(&mut out, *place)?;
        }
        ParseFault::NoMemory => return Err(AllocError),
    }
    Ok(out)
}

/// The program that a case's text is, spelled with one blank between tokens.
pub fn spelled(alloc: Global, case: Case<'_>) -> Result<String> {
    let text = bytes(alloc, case, "text")?;
    match unit(alloc, text.as_slice())? {
        Ok(unit) => Ok(latin::text_of(alloc, print_unit(alloc, &unit)?.as_slice())?),
        Err(_) => bail!("no program"),
    }
}
