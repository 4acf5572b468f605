// The cases of a file.

use anyhow::{Context, Result, bail};
use serde_json::Value;
use std::alloc::Global;
use std::fs;
use std::rt::Files;

/// The values of a file: those of its list, where its text begins with `[`, and else one a line.
pub fn values(rt: &(impl Files + AllocGlobal), name: &str) -> Result<Vec<Value>> {
    let text = text(rt, name)?;
    values_of(rt.alloc(), text.as_str()).context(format_args!("{name}"))
}

/// The text of a file.
pub fn text(rt: &(impl Files + AllocGlobal), name: &str) -> Result<String> {
    fs::read_to_string(rt, name).context(format_args!("{name}"))
}

/// The values of a text: those of its list, where it begins with `[`, and else one a line. A line that is empty or
/// begins with `#` has none.
pub fn values_of(alloc: Global, text: &str) -> Result<Vec<Value>> {
    match text.as_bytes() {
        [b'[', ..] => list_of(alloc, text),
        _ => lines_of(alloc, text),
    }
}

/// The values of one JSON list.
pub fn list_of(alloc: Global, text: &str) -> Result<Vec<Value>> {
    match Value::from_str(alloc, text)? {
        Value::Array(list) => Ok(list),
        _ => bail!("no list"),
    }
}

/// The values of the lines of a text.
pub fn lines_of(alloc: Global, text: &str) -> Result<Vec<Value>> {
    let mut values = Vec::new(alloc);
    for (index, line) in text.lines().enumerate() {
        if is_said(line) {
            let value = Value::from_str(alloc, line).context(format_args!("line {index}, from 0"))?;
            values.push(value)?;
        }
    }
    Ok(values)
}

// Whether a line is no comment.
fn is_said(line: &str) -> bool {
    !matches!(line.as_bytes(), [] | [b'#', ..])
}

/// The name of a file without folders before it and without what follows a point.
pub fn stem(name: &str) -> &str {
    let last = name.rsplit('/').next().unwrap_or(name);
    last.split('.').next().unwrap_or(last)
}
