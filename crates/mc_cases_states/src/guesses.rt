// The arguments that are guessed of a predicate in a state.
use crate::entries::Asked;
use crate::shapes::Shapes;
use crate::states::state;
use anyhow::{Result, bail};
use mc_cases::Case;
use mc_find_view::guess::guess;
use mc_state::Term;
use serde_json::Value;
use std::alloc::Global;

/// A node and a number more.
fn written(alloc: Global, term: &Term) -> Result<Value> {
    let mut values = Vec::new(alloc);
    values.push(Value::from(term.node.0))?;
    values.push(Value::from(term.add))?;
    Ok(Value::Array(values))
}

fn all_written(alloc: Global, terms: &[Term]) -> Result<Value> {
    let mut values = Vec::new(alloc);
    for term in terms {
        values.push(written(alloc, term)?)?;
    }
    Ok(Value::Array(values))
}

/// The arguments that are guessed where a case asks.
pub fn answer(alloc: Global, shapes: &Shapes, case: Case<'_>) -> Result<Value> {
    let Some(state) = state(alloc, shapes, case, "state")? else {
        bail!("the state is malformed");
    };
    let asked = Asked::read(alloc, case)?;
    let found = guess(
        alloc,
        &state,
        shapes.defs(),
        asked.used.as_slice(),
        asked.pred,
        asked.at,
        &asked.stop,
    )?;
    all_written(alloc, found.as_slice())
}
