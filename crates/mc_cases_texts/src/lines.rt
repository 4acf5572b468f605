// Lines of documents, and first lines of texts.
use crate::input::bytes;
use anyhow::Result;
use mc_cases::{Case, latin};
use mc_lines::cert::{Line, LineFault, bytes_of, first_line, line_of};
use std::alloc::{AllocError, Global};

/// The line that a case's text spells, written anew, or why it spells none.
pub fn came(alloc: Global, case: Case<'_>) -> Result<String> {
    let text = bytes(alloc, case, "text")?;
    match again(alloc, text.as_slice()) {
        Ok(bytes) => Ok(latin::text_of(alloc, bytes.as_slice())?),
        Err(fault) => Ok(format!(in alloc; "{fault}")?),
    }
}

// The bytes that spell what bytes spell.
fn again(alloc: Global, bytes: &[u8]) -> Result<Vec<u8>, LineFault> {
    let line = line_of(alloc, bytes)?;
    spelled(alloc, &line)
}

fn spelled(alloc: Global, line: &Line) -> Result<Vec<u8>, LineFault> {
    Ok(bytes_of(alloc, line)?)
}

/// The first line of a case's text and what is after it.
pub fn first(alloc: Global, case: Case<'_>) -> Result<String> {
    let text = bytes(alloc, case, "text")?;
    match first_line(text.as_slice()) {
        None => Ok(String::from_str(alloc, "no line")?),
        Some((line, rest)) => Ok(shown(alloc, line, rest)?),
    }
}

fn shown(alloc: Global, line: &[u8], rest: &[u8]) -> Result<String, AllocError> {
    let line = latin::text_of(alloc, line)?;
    let rest = latin::text_of(alloc, rest)?;
    format!(in alloc; "{:?} then {:?}", line.as_str(), rest.as_str())
}
