// What cases give: states, goals and lines.
ghost use Rattle.std.specs.Prelude.{IfOk, IfSome};
ghost use Rattle.mc_state.specs.Fits.{IsWellMade};

use anyhow::{Result, bail};
use mc_base::{NoMemory, NodeId, PointId};
use mc_cases::Case;
use mc_check_line::Head;
use mc_flow::Flow;
use mc_flow::defs::Defs;
use mc_lines::cert::{Entry, Line, line_of, three, values_of};
use mc_state::{Goal, RawState};
use mc_state_io::raw::state_of;
use mc_symbolic::State;
use serde_json::Value;
use std::alloc::Global;

/// The state that a document writes. None where it is not well formed.
#[tactic(auto, using(crate::proofs::Made::made_from))]
fn written(
    alloc: Global,
    flow: &Flow,
    defs: &Defs,
    raw: &RawState,
) -> Result<Option<State>, NoMemory>
    ensures { IfOk result (λ found. IfSome found (IsWellMade defs.now flow.now.vars flow.now.structs.list)) }
{
    let structs = flow.structs.list.as_slice();
    state_of(alloc, defs.as_slice(), flow.vars.as_slice(), structs, raw)
}

/// The state of a value.
pub fn state(alloc: Global, flow: &Flow, defs: &Defs, value: &Value) -> Result<State>
    ensures { IfOk result (IsWellMade defs.now flow.now.vars flow.now.structs.list) }
{
    let raw = RawState::read(alloc, value)?;
    match written(alloc, flow, defs, &raw)? {
        Some(state) => Ok(state),
        None => bail!("the state is not well formed"),
    }
}

/// The state of a cut, where there is one.
pub fn heads(alloc: Global, flow: &Flow, defs: &Defs, value: Option<&Value>) -> Result<Vec<Head>> {
    let mut heads = Vec::new(alloc);
    if let Some(value) = value {
        let state = state(alloc, flow, defs, value)?;
        heads.push(Head {
            point: PointId(0),
            state,
        })?;
    }
    Ok(heads)
}

// A goal of a predicate, a node and its arguments.
fn goal_of(alloc: Global, value: &Value) -> Result<Goal> {
    let Some([pred, at, args]) = values_of(value) else {
        bail!("no goal: {value}");
    };
    let (pred, at, args) = three(alloc, pred, at, args)?;
    Ok(Goal { pred, at, args })
}

/// The goal of a case, where there is one.
pub fn goal(alloc: Global, case: Case<'_>) -> Result<Option<Goal>> {
    match case.find("goal") {
        Some(value) => Ok(Some(goal_of(alloc, value)?)),
        None => Ok(None),
    }
}

/// The node of a value, or none.
pub fn node(alloc: Global, value: &Value) -> Result<Option<NodeId>> {
    Ok(Entry::read(alloc, value)?)
}

/// The line of a case.
pub fn line(alloc: Global, case: Case<'_>) -> Result<Line> {
    let text = case.get("line")?.to_string(alloc)?;
    Ok(line_of(alloc, text.as_bytes())?)
}
