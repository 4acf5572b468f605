// Cases, one by one.
ghost use Rattle.mc_flow.specs.Valid.{IsValid};
ghost use Rattle.mc_state.specs.Fits.{IsWellMade};

use crate::code::instruction;
use crate::inputs::{goal, heads, line, node, state};
use crate::judging::{Came, branch, judged, unfolded};
use crate::program::{Program, program_of};
use crate::texts::shown;
use anyhow::{Context, Result, bail};
use mc_cases::{Case, Tally};
use mc_flow::defs::Defs;
use mc_flow::{Flow, valid};
use mc_lines::cert::{Line, named};
use mc_symbolic::State;
use serde_json::Value;
use std::alloc::Global;

/// The states that the lines before a case set for it.
#[derive(Clone, Copy)]
struct Places<'a> {
    state: Option<&'a Value>,
    to: Option<&'a Value>,
}

impl<'a> Places<'a> {
    // The same, but for what stands in a case.
    fn with(self, case: Case<'a>) -> Places<'a> {
        Places {
            state: case.find("state").or(self.state),
            to: case.find("to").or(self.to),
        }
    }
}

// What comes of the line of a case at a branch.
fn at_branch(
    alloc: Global,
    flow: &Flow,
    defs: &Defs,
    to: Option<&Value>,
    case: Case<'_>,
    line: &Line,
    state: State,
) -> Result<Came>
    requires valid { IsValid flow.now defs.now }
    requires made { IsWellMade defs.now flow.now.vars flow.now.structs.list state }
{
    let heads = heads(alloc, flow, defs, to)?;
    let branch = branch(state, goal(alloc, case)?, to.is_some());
    Ok(judged(alloc, flow, defs, heads.as_slice(), line, branch)?)
}

// What comes of the line of a case at a state.
fn at_state(
    alloc: Global,
    flow: &Flow,
    defs: &Defs,
    to: Option<&Value>,
    case: Case<'_>,
    state: State,
) -> Result<Came>
    requires valid { IsValid flow.now defs.now }
    requires made { IsWellMade defs.now flow.now.vars flow.now.structs.list state }
{
    let line = line(alloc, case)?;
    match case.find("access") {
        Some(value) => {
            let access = node(alloc, value)?;
            Ok(unfolded(alloc, flow, defs, &state, access, &line)?)
        }
        None => at_branch(alloc, flow, defs, to, case, &line, state),
    }
}

// The text of what comes of the line of a case.
fn came(alloc: Global, program: &Program, places: Places<'_>, case: Case<'_>) -> Result<String> {
    let Some(value) = places.state else {
        bail!("no state");
    };
    if !valid(&program.flow, &program.defs) {
        bail!("the flow graph is not valid");
    }
    let state = state(alloc, &program.flow, &program.defs, value)?;
    let whole = state.is_whole();
    let came = at_state(alloc, &program.flow, &program.defs, places.to, case, state)?;
    Ok(shown(alloc, program, whole, &came)?)
}

// The name of the line of a case.
fn rule(case: Case<'_>) -> Result<&str> {
    match named(case.get("line")?) {
        Some((name, _)) => Ok(name),
        None => bail!("no line"),
    }
}

fn try_one(
    alloc: Global,
    program: &mut Program,
    places: Places<'_>,
    case: Case<'_>,
    tally: &mut Tally,
) -> Result<()> {
    let code = instruction(alloc, program, case.find("instruction"))?;
    program.begin_with(alloc, code)?;
    let came = came(alloc, program, places, case)?;
    tally.tried(
        rule(case)?,
        case.name(),
        case.text("wanted")?,
        came.as_str(),
    )?;
    Ok(())
}

/// Tries the cases of a file over the definitions of a text.
pub fn try_all(
    alloc: Global,
    definitions: &str,
    values: &[Value],
    tally: &mut Tally,
) -> Result<()> {
    let [first, cases @ ..] = values else {
        bail!("no cases");
    };
    let mut program = program_of(alloc, Case::new(first), definitions)?;
    let mut places = Places {
        state: None,
        to: None,
    };
    for value in cases {
        let case = Case::new(value);
        places = places.with(case);
        if case.has("line") {
            try_one(alloc, &mut program, places, case, tally).context(case.name())?;
        }
    }
    Ok(())
}
