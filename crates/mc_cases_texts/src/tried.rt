// The cases of a file, and the call that tries each.
use crate::input::Input;
use crate::{
    calls, definitions, graphs, lines, ranges, running, scripts, tokens, typed, units, words,
};
use anyhow::Result;
use mc_cases::{Case, Tally, stem, values};
use serde_json::Value;
use std::alloc::{AllocError, Global};

/// What was wanted of a case, and what came.
#[derive(Drop)]
pub struct Outcome {
    pub wanted: String,
    pub came: String,
}

/// Tries each case of a file. Its stem is the kind of them all.
pub fn try_file(rt: &HostRuntime, name: &str, tally: &mut Tally) -> Result<()> {
    let values = values(rt, name)?;
    for value in &values {
        try_group(rt.alloc(), stem(name), Case::new(value), tally)?;
    }
    Ok(())
}

// Tries the cases of a group, or the one case that it is.
fn try_group(alloc: Global, kind: &str, group: Case<'_>, tally: &mut Tally) -> Result<()> {
    if !group.has("cases") {
        return try_case(
            alloc,
            kind,
            group.name(),
            Input { group, case: group },
            tally,
        );
    }
    for (index, value) in group.list("cases")?.iter().enumerate() {
        let case = Case::new(value);
        let name = format!(in alloc; "{} {index} {}", group.name(), case.text_or("name", ""))?;
        try_case(alloc, kind, name.as_str(), Input { group, case }, tally)?;
    }
    Ok(())
}

// Tries a case.
fn try_case(
    alloc: Global,
    kind: &str,
    name: &str,
    input: Input<'_>,
    tally: &mut Tally,
) -> Result<()> {
    match outcome_of(alloc, kind, input) {
        Ok(outcome) => {
            tally.tried(kind, name, outcome.wanted.as_str(), outcome.came.as_str())?;
        }
        Err(fault) => {
            let why = format!(in alloc; "{fault}")?;
            tally.failed(kind, name, why.as_str())?;
        }
    }
    Ok(())
}

// What was wanted of a case of a kind, and what came.
fn outcome_of(alloc: Global, kind: &str, input: Input<'_>) -> Result<Outcome> {
    match kind {
        "graphs" | "flows" => graphs::outcome_of(alloc, kind, input),
        _ => match came(alloc, kind, input.case)? {
            Some(came) => Ok(Outcome {
                wanted: wanted(alloc, input.case)?,
                came,
            }),
            None => calls::outcome_of(alloc, kind, input),
        },
    }
}

// What came of a case of a kind; None where it is a call of the program.
fn came(alloc: Global, kind: &str, case: Case<'_>) -> Result<Option<String>> {
    let came = match kind {
        "words" => words::came(alloc, case),
        "tokens" => tokens::came(alloc, case),
        "grammar" => units::came(alloc, case),
        "spellings" => units::spelled(alloc, case),
        "typed" => typed::came(alloc, case),
        "fuel" => running::came(alloc, case),
        "sizes" => graphs::size(alloc, case),
        "predicates" => definitions::came(alloc, case),
        "instances" => definitions::instance(alloc, case),
        _ => return came_of_parts(alloc, kind, case),
    };
    Ok(Some(came?))
}

// The same, of cases of lines, scripts and ranges.
fn came_of_parts(alloc: Global, kind: &str, case: Case<'_>) -> Result<Option<String>> {
    let came = match kind {
        "lines" => lines::came(alloc, case),
        "first_lines" => lines::first(alloc, case),
        "scripts" => scripts::came(alloc, case),
        "ranges" => ranges::came(alloc, case),
        _ => return Ok(None),
    };
    Ok(Some(came?))
}

// What stands by `wanted`: a text, or the text of another value.
fn wanted(alloc: Global, case: Case<'_>) -> Result<String> {
    written(alloc, case.get("wanted")?)
}

// The text of a value.
fn written(alloc: Global, value: &Value) -> Result<String> {
    match value {
        Value::String(text) => Ok(text.clone()?),
        _ => Ok(value.to_string(alloc)?),
    }
}
