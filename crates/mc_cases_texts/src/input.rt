// What a case and its group hold: texts, written in one piece or in parts.
use anyhow::{Result, bail};
use mc_cases::{Case, latin};
use serde_json::Value;
use std::alloc::{AllocError, Global};

/// A case, and the group in which it stands; a case of no group is its own.
#[derive(Clone, Copy)]
pub struct Input<'a> {
    pub group: Case<'a>,
    pub case: Case<'a>,
}

impl<'a> Input<'a> {
    /// What stands by a name in the case, and else in its group.
    pub fn find(self, key: &str) -> Option<&'a Value> {
        match self.case.find(key) {
            Some(value) => Some(value),
            None => self.group.find(key),
        }
    }

    /// The bytes of the text by a name; none where nothing stands there.
    pub fn bytes(self, alloc: Global, key: &str) -> Result<Vec<u8>> {
        match self.find(key) {
            Some(value) => bytes_of(alloc, value),
            None => Ok(Vec::new(alloc)),
        }
    }

    /// The text by a name, or another where none stands.
    pub fn text_or(self, key: &str, other: &'a str) -> &'a str {
        self.find(key).and_then(Value::as_str).unwrap_or(other)
    }

    /// The document: that of the group with some lines changed, where the case says so, and else its text.
    pub fn document(self, alloc: Global) -> Result<Vec<u8>> {
        if self.case.has("kept") {
            self.changed(alloc)
        } else {
            self.bytes(alloc, "document")
        }
    }

    // The document of the group: after its first lines some are dropped, and others stand there.
    fn changed(self, alloc: Global) -> Result<Vec<u8>> {
        let lines = self.group.list("document")?;
        let kept = self.case.number("kept")? as usize;
        let dropped = self.case.number_or("dropped", 0) as usize;
        let last = kept.saturating_add(dropped);
        let mut bytes = Vec::new(alloc);
        add_parts(alloc, &mut bytes, lines.get(..kept).unwrap_or(lines))?;
        add_parts(alloc, &mut bytes, self.case.list_or_empty("put"))?;
        add_parts(alloc, &mut bytes, lines.get(last..).unwrap_or(&[]))?;
        Ok(bytes)
    }
}

/// The bytes of the text by a name in a case.
pub fn bytes(alloc: Global, case: Case<'_>, key: &str) -> Result<Vec<u8>> {
    bytes_of(alloc, case.get(key)?)
}

// The bytes of a text, or of its parts.
fn bytes_of(alloc: Global, value: &Value) -> Result<Vec<u8>> {
    match value {
        Value::String(text) => latin::bytes_of(alloc, text.as_str()),
        Value::Array(parts) => bytes_of_parts(alloc, parts.as_slice()),
        _ => bail!("neither a text nor the parts of one"),
    }
}

fn bytes_of_parts(alloc: Global, parts: &[Value]) -> Result<Vec<u8>> {
    let mut bytes = Vec::new(alloc);
    add_parts(alloc, &mut bytes, parts)?;
    Ok(bytes)
}

fn add_parts(alloc: Global, out: &mut Vec<u8>, parts: &[Value]) -> Result<()> {
    for part in parts {
        add_part(alloc, out, part)?;
    }
    Ok(())
}

// A part of a text: a line, a text that is repeated, or one for each of some numbers.
fn add_part(alloc: Global, out: &mut Vec<u8>, part: &Value) -> Result<()> {
    match part {
        Value::String(line) => add_line(alloc, out, line.as_str()),
        Value::Array(entries) => add_repeated(alloc, out, entries.as_slice()),
        _ => bail!("no part of a text"),
    }
}

fn add_line(alloc: Global, out: &mut Vec<u8>, line: &str) -> Result<()> {
    out.extend_from_slice(latin::bytes_of(alloc, line)?.as_slice())?;
    out.push(b'\n')?;
    Ok(())
}

fn add_repeated(alloc: Global, out: &mut Vec<u8>, entries: &[Value]) -> Result<()> {
    match entries {
        [Value::String(text), times] => Ok(add_times(out, text.as_str(), number(times))?),
        [Value::String(text), first, last] => {
            Ok(add_numbered(alloc, out, text.as_str(), number(first), number(last))?)
        }
        _ => bail!("no text that is repeated"),
    }
}

fn number(value: &Value) -> u64 {
    value.as_u64().unwrap_or(0)
}

// A text so often.
fn add_times(out: &mut Vec<u8>, text: &str, times: u64) -> Result<(), AllocError> {
    for _ in 0..times {
        out.extend_from_slice(text.as_bytes())?;
    }
    Ok(())
}

// A text for each number from the first to the last.
fn add_numbered(
    alloc: Global,
    out: &mut Vec<u8>,
    text: &str,
    first: u64,
    last: u64,
) -> Result<(), AllocError> {
    for number in first..=last {
        let this = format!(in alloc; "{number}")?;
        let before = format!(in alloc; "{}", number.saturating_sub(1))?;
        add_filled(out, text, this.as_bytes(), before.as_bytes())?;
    }
    Ok(())
}

// A text with a number for each `%` in it, and the one before for each `#`.
fn add_filled(out: &mut Vec<u8>, text: &str, this: &[u8], before: &[u8]) -> Result<(), AllocError> {
    for byte in text.as_bytes() {
        match *byte {
            b'%' => out.extend_from_slice(this)?,
            b'#' => out.extend_from_slice(before)?,
            other => out.push(other)?,
        }
    }
    Ok(())
}
