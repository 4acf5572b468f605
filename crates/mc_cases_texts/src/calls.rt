// Calls of the program over files in memory: p, d, c and s hold a program, definitions, a document and a script.
use crate::input::Input;
use crate::tried::Outcome;
use anyhow::Result;
use mc_app::memcad;
use mc_cases::{Case, latin};
use mc_outside::{MemFiles, MemSink};
use serde_json::Value;
use std::alloc::{AllocError, Global};

/// The statuses of a case's calls and what they print, and what was wanted.
pub fn outcome_of(alloc: Global, kind: &str, input: Input<'_>) -> Result<Outcome> {
    let mut files = files(alloc, input)?;
    let mut out = MemSink::new(alloc, failing(alloc, input.case, "failing_write")?);
    let statuses = called_all(alloc, kind, input, &mut files, &mut out)?;
    let printed = latin::text_of(alloc, out.bytes())?;
    compared(alloc, input.case, statuses.as_str(), printed.as_str())
}

fn compared(alloc: Global, case: Case<'_>, statuses: &str, printed: &str) -> Result<Outcome> {
    let wanted = wanted(alloc, case, printed)?;
    let came = said(alloc, statuses, printed)?;
    Ok(Outcome { wanted, came })
}

fn wanted(alloc: Global, case: Case<'_>, printed: &str) -> Result<String> {
    let statuses = statuses_wanted(alloc, case)?;
    let text = printed_wanted(alloc, case, printed)?;
    Ok(said(alloc, statuses.as_str(), text.as_str())?)
}

fn said(alloc: Global, statuses: &str, printed: &str) -> Result<String, AllocError> {
    format!(in alloc; "status {statuses}: {printed}")
}

// The number of the call that fails, counted from 1, where the case says one; 0 for none.
fn failing(alloc: Global, case: Case<'_>, key: &str) -> Result<Vec<u64>, AllocError> {
    Vec::from_slice(alloc, &[case.number_or(key, 0)])
}

// The files of a case.
fn files(alloc: Global, input: Input<'_>) -> Result<MemFiles> {
    let mut files = Vec::new(alloc);
    for (name, key) in [("p", "program"), ("d", "definitions"), ("s", "script")] {
        add_file(alloc, &mut files, name, input.bytes(alloc, key)?)?;
    }
    add_file(alloc, &mut files, "c", input.document(alloc)?)?;
    Ok(MemFiles::new(alloc, files, failing(alloc, input.case, "failing")?))
}

fn add_file(
    alloc: Global,
    files: &mut Vec<(String, Vec<u8>)>,
    name: &str,
    bytes: Vec<u8>,
) -> Result<(), AllocError> {
    files.push((String::from_str(alloc, name)?, bytes))?;
    Ok(())
}

// The words of a kind's calls, where a case says none.
fn words_of(kind: &str) -> &'static str {
    match kind {
        "check" | "documents" => "check p d c",
        "analyses" => "analyse p d",
        _ => "run p d s",
    }
}

// The statuses of a case's calls, one after the other.
fn called_all(
    alloc: Global,
    kind: &str,
    input: Input<'_>,
    files: &mut MemFiles,
    out: &mut MemSink,
) -> Result<String, AllocError> {
    match input.find("words").and_then(Value::as_array) {
        None => called(alloc, input.text_or("words", words_of(kind)), files, out),
        Some(calls) => called_each(alloc, calls.as_slice(), files, out),
    }
}

// The statuses of several calls, each with a blank after it.
fn called_each(
    alloc: Global,
    calls: &[Value],
    files: &mut MemFiles,
    out: &mut MemSink,
) -> Result<String, AllocError> {
    let mut statuses = String::new(alloc);
    for words in calls {
        let status = called(alloc, words.as_str().unwrap_or(""), files, out)?;
        statuses.push_str(status.as_str())?;
        statuses.push(' ')?;
    }
    Ok(statuses)
}

// The status of a call, as a text.
fn called(
    alloc: Global,
    words: &str,
    files: &mut MemFiles,
    out: &mut MemSink,
) -> Result<String, AllocError> {
    let words = split(alloc, words)?;
    let status = memcad(alloc, words.as_slice(), files, out);
    format!(in alloc; "{}", status.code())
}

/// The words of a text.
pub fn split(alloc: Global, text: &str) -> Result<Vec<String>, AllocError> {
    let mut words = Vec::new(alloc);
    for word in text.split_whitespace() {
        words.push(String::from_str(alloc, word)?)?;
    }
    Ok(words)
}

// The statuses that are wanted: one number, or a text of several, each with a blank after it.
fn statuses_wanted(alloc: Global, case: Case<'_>) -> Result<String> {
    match case.get("status")? {
        Value::String(statuses) => Ok(statuses.clone()?),
        status => Ok(status.to_string(alloc)?),
    }
}

// The text that is wanted: all that is printed, or anything that begins and ends as the case says.
fn printed_wanted(alloc: Global, case: Case<'_>, printed: &str) -> Result<String> {
    if case.has("printed") {
        return Ok(String::from_str(alloc, case.text("printed")?)?);
    }
    let begins = case.text_or("begins", "");
    let ends = case.text_or("ends", "");
    if printed.starts_with(begins) && printed.ends_with(ends) {
        Ok(String::from_str(alloc, printed)?)
    } else {
        Ok(format!(in alloc; "{begins} .. {ends}")?)
    }
}
