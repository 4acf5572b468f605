// States as documents write them: their texts, which are tidy, and which are the same.
use crate::entries::{entry, pairs};
use crate::renamings::renaming;
use crate::shapes::{Shapes, name};
use anyhow::{Result, bail};
use mc_base::VarInfo;
use mc_cases::Case;
use mc_joins::alike::{equal_under, is_tidy};
use mc_lines::cert::{Entry, values_of};
use mc_state::RawState;
use mc_state_io::raw::state_of;
use mc_state_io::text::print;
use mc_symbolic::State;
use serde_json::Value;
use std::alloc::Global;

/// A variable: its name, which is empty for a temporary, and its kind.
fn variable(alloc: Global, value: &Value) -> Result<VarInfo> {
    match values_of(value) {
        Some([Value::String(text), kind]) => Ok(VarInfo {
            name: name(alloc, text.as_str())?,
            kind: Entry::read(alloc, kind)?,
        }),
        _ => bail!("no variable"),
    }
}

/// The variables of a case.
fn variables(alloc: Global, case: Case<'_>) -> Result<Vec<VarInfo>> {
    let mut vars = Vec::new(alloc);
    for value in case.list_or_empty("vars") {
        vars.push(variable(alloc, value)?)?;
    }
    Ok(vars)
}

/// The state that stands by a name; None where it is not well formed.
pub fn state(alloc: Global, shapes: &Shapes, case: Case<'_>, key: &str) -> Result<Option<State>> {
    let raw: RawState = entry(alloc, case, key)?;
    let vars = variables(alloc, case)?;
    Ok(state_of(
        alloc,
        shapes.list(),
        vars.as_slice(),
        shapes.structs(),
        &raw,
    )?)
}

/// The text of a state.
pub fn text(alloc: Global, shapes: &Shapes, case: Case<'_>) -> Result<Value> {
    let Some(state) = state(alloc, shapes, case, "state")? else {
        return Ok(Value::Null);
    };
    let vars = variables(alloc, case)?;
    let text = print(
        alloc,
        &state,
        vars.as_slice(),
        shapes.list(),
        shapes.structs(),
    )?;
    Ok(Value::String(mc_cases::latin::text_of(alloc, text.as_slice())?))
}

/// Whether a state is tidy; null where it is not well formed.
pub fn tidy(alloc: Global, shapes: &Shapes, case: Case<'_>) -> Result<Value> {
    match state(alloc, shapes, case, "state")? {
        Some(state) => Ok(Value::Bool(is_tidy(alloc, &state)?)),
        None => Ok(Value::Null),
    }
}

/// Whether two states are the same under a renaming; null where one is not well formed.
pub fn same(alloc: Global, shapes: &Shapes, case: Case<'_>) -> Result<Value> {
    let left = state(alloc, shapes, case, "left")?;
    let right = state(alloc, shapes, case, "right")?;
    let images = pairs(alloc, case, "images")?;
    let there = renaming(alloc, images.as_slice())?;
    match (left, right) {
        (Some(left), Some(right)) => Ok(Value::Bool(equal_under(&left, &right, &there))),
        _ => Ok(Value::Null),
    }
}
