// The cases of a file, tried by what its stem asks.
use crate::shapes::Shapes;
use crate::{covers, facts, guesses, heaps, joins, known, long, renamed, renamings, states};
use anyhow::{Result, bail};
use mc_cases::{Case, Tally, stem, values};
use serde_json::Value;
use std::alloc::Global;
use std::rt::Files;

/// What comes of a case about numbers and pointers, without a state.
fn came_of_atoms(alloc: Global, kind: &str, case: Case<'_>) -> Result<Value> {
    match kind {
        "entailed" => known::answer(alloc, case),
        "facts" => facts::answer(alloc, case),
        "canonical" => facts::canonical(alloc, case),
        "joins" => joins::answer(alloc, case),
        "renamed" => renamed::answer(alloc, case),
        "renamings" => renamings::answer(alloc, case),
        _ => bail!("no kind of cases"),
    }
}

/// What comes of a case.
fn came(alloc: Global, kind: &str, shapes: &Shapes, case: Case<'_>) -> Result<Value> {
    match kind {
        "texts" => states::text(alloc, shapes, case),
        "tidy" => states::tidy(alloc, shapes, case),
        "same" => states::same(alloc, shapes, case),
        "covers" => covers::answer(alloc, shapes, case),
        "guesses" => guesses::answer(alloc, shapes, case),
        "heaps" => heaps::answer(alloc, shapes, case),
        "long" => long::answer(alloc, shapes, case),
        _ => came_of_atoms(alloc, kind, case),
    }
}

/// Tries a case, and counts it.
fn try_one(
    alloc: Global,
    kind: &str,
    shapes: &Shapes,
    case: Case<'_>,
    tally: &mut Tally,
) -> Result<()> {
    let wanted = case.get("gives")?.to_string(alloc)?;
    match came(alloc, kind, shapes, case) {
        Ok(value) => {
            let came = value.to_string(alloc)?;
            tally.tried(kind, case.name(), wanted.as_str(), came.as_str())?;
        }
        Err(error) => {
            let why = format!(in alloc; "{error}")?;
            tally.failed(kind, case.name(), why.as_str())?;
        }
    }
    Ok(())
}

/// Tries the cases of a file.
pub fn file(rt: &(impl Files + AllocGlobal), name: &str, tally: &mut Tally) -> Result<()> {
    let values = values(rt, name)?;
    let shapes = Shapes::first(rt, name, values.as_slice())?;
    for value in &values {
        let case = Case::new(value);
        if !case.has("definitions") {
            try_one(rt.alloc(), stem(name), &shapes, case, tally)?;
        }
    }
    Ok(())
}
