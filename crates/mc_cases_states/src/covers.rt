// Covers of predicates and segments by the edges of a state.
ghost use Rattle.mc_state.specs.Facts.{IsFalse};

use crate::entries::{Asked, terms};
use crate::shapes::Shapes;
use crate::states::state;
use anyhow::{Result, bail};
use mc_base::{EdgeId, NoMemory};
use mc_cases::Case;
use mc_cover::Mark;
use mc_cover::search::{cover, seg_cover};
use mc_flow::defs::Defs;
use mc_state::Term;
use mc_symbolic::State;
use serde_json::Value;
use std::alloc::Global;

/// The first cover of what is asked for.
fn found(
    alloc: Global,
    defs: &Defs,
    state: &State,
    asked: &Asked,
    args: &[Term],
) -> Result<Option<Vec<Mark>>, NoMemory>
    requires { IsFalse state.now → ⊥ }
{
    let used = asked.used.as_slice();
    match &asked.stop {
        None => cover(alloc, state, defs, used, asked.pred, asked.at, args),
        Some((end, ends)) => seg_cover(
            alloc,
            state,
            defs,
            used,
            asked.pred,
            asked.at,
            args,
            *end,
            ends.as_slice(),
        ),
    }
}

/// A mark: its name, and what it names.
fn named(alloc: Global, name: &str, edge: Option<EdgeId>) -> Result<Value> {
    let mut values = Vec::new(alloc);
    values.push(Value::try_from_str(alloc, name)?)?;
    if let Some(edge) = edge {
        values.push(Value::from(edge.0))?;
    }
    Ok(Value::Array(values))
}

/// A mark of a rule: its name, the rule's place, its block where it has one, and perhaps a call.
fn of_rule(
    alloc: Global,
    name: &str,
    place: usize,
    block: Option<EdgeId>,
    call: Option<usize>,
) -> Result<Value> {
    let mut values = Vec::new(alloc);
    values.push(Value::try_from_str(alloc, name)?)?;
    values.push(Value::from(place))?;
    values.push(Value::from(block.map(|edge| edge.0)))?;
    if let Some(call) = call {
        values.push(Value::from(call))?;
    }
    Ok(Value::Array(values))
}

fn written(alloc: Global, mark: &Mark) -> Result<Value> {
    match *mark {
        Mark::AtEnd => named(alloc, "end", None),
        Mark::ByInd(edge) => named(alloc, "ind", Some(edge)),
        Mark::BySeg(edge) => named(alloc, "seg", Some(edge)),
        Mark::ByRule { place, block } => of_rule(alloc, "rule", place, block, None),
        Mark::ByCall { place, block, call } => of_rule(alloc, "call", place, block, Some(call)),
    }
}

fn all_written(alloc: Global, marks: &[Mark]) -> Result<Value> {
    let mut values = Vec::new(alloc);
    for mark in marks {
        values.push(written(alloc, mark)?)?;
    }
    Ok(Value::Array(values))
}

/// The marks of the first cover that a case asks for, null where there is none.
pub fn answer(alloc: Global, shapes: &Shapes, case: Case<'_>) -> Result<Value> {
    let Some(state) = state(alloc, shapes, case, "state")? else {
        bail!("the state is malformed");
    };
    if state.is_false() {
        bail!("the state is inconsistent");
    }
    let asked = Asked::read(alloc, case)?;
    let args = terms(alloc, case.list("args")?)?;
    match found(alloc, shapes.defs(), &state, &asked, args.as_slice())? {
        Some(marks) => all_written(alloc, marks.as_slice()),
        None => Ok(Value::Null),
    }
}
