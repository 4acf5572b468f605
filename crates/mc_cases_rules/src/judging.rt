// Lines at branches, and what comes of them.
ghost use Rattle.std.specs.Prelude.{◌≡◌};
ghost use Rattle.mc_flow.specs.Valid.{IsValid};
ghost use Rattle.mc_rules_logic.specs.Rule.Made.{IsMadeFor};
ghost use Rattle.mc_state.specs.Fits.{IsWellMade};

use mc_apply_unfold::{unfold_back, unfold_ind, unfold_seg};
use mc_base::{NoMemory, NodeId, PointId};
use mc_check_line::{Branch, Head, Next, Refused, Setting, judge};
use mc_flow::Flow;
use mc_flow::defs::Defs;
use mc_lines::cert::Line;
use mc_state::{Form, Goal, LogicFault};
use mc_symbolic::State;
use std::alloc::{AllocError, Global};

/// What comes of a line.
#[derive(Drop)]
pub enum Came {
    /// Branches, or an end.
    Next(Next),
    /// The premise of this number is the first that is unmet.
    Unmet(u8),
}

/// The only cut.
static CUTS: [PointId; 1] = [PointId(0)];

/// A branch at point 0. An instruction's line stands on it where it may jump.
pub fn branch(state: State, goal: Option<Goal>, moved: bool) -> Branch
    ensures { result.state ≡ state }
{
    Branch {
        point: PointId(0),
        state,
        goal,
        moved,
        closing: false,
    }
}

fn came_of(judged: Result<Next, Refused>) -> Result<Came, NoMemory> {
    match judged {
        Ok(next) => Ok(Came::Next(next)),
        Err(Refused::Premise(number, branch)) => {
            drop(branch);
            Ok(Came::Unmet(number))
        }
        Err(Refused::NoMemory) => Err(AllocError),
    }
}

/// What comes of a line of a certificate at a branch, with these states of the cut.
pub fn judged(
    alloc: Global,
    flow: &Flow,
    defs: &Defs,
    heads: &[Head],
    line: &Line,
    branch: Branch,
) -> Result<Came, NoMemory>
    requires valid { IsValid flow.now defs.now }
    requires made { IsWellMade defs.now flow.now.vars flow.now.structs.list branch.state }
{
    let setting = Setting {
        form: Form::Certificate,
        cuts: &CUTS,
        heads,
    };
    came_of(judge(alloc, flow, defs, setting, line, branch))
}

/// What a line that unfolds gives at a state with this accessed node. Another line has no premise 0.
fn unfolding(
    alloc: Global,
    defs: &Defs,
    state: &State,
    access: Option<NodeId>,
    line: &Line,
) -> Result<Vec<State>, LogicFault>
    requires { IsMadeFor defs.now state.now }
{
    match line {
        Line::L1(edge) => unfold_ind(alloc, state, defs, access, *edge),
        Line::L2(edge) => unfold_seg(alloc, state, defs, access, *edge),
        Line::L15(edge) => unfold_back(alloc, state, defs, access, *edge),
        _ => Err(LogicFault::Premise(0)),
    }
}

/// Branches of these states.
fn branches(alloc: Global, states: Vec<State>) -> Result<Vec<Branch>, NoMemory> {
    let mut list = Vec::with_capacity(alloc, states.len())?;
    for state in states {
        list.push(branch(state, None, false))?;
    }
    Ok(list)
}

fn given(alloc: Global, given: Result<Vec<State>, LogicFault>) -> Result<Came, NoMemory> {
    match given {
        Ok(states) => Ok(Came::Next(Next::More(branches(alloc, states)?))),
        Err(LogicFault::Premise(number)) => Ok(Came::Unmet(number)),
        Err(LogicFault::NoMemory) => Err(AllocError),
    }
}

/// What comes of a line that unfolds, at a state with this accessed node.
pub fn unfolded(
    alloc: Global,
    flow: &Flow,
    defs: &Defs,
    state: &State,
    access: Option<NodeId>,
    line: &Line,
) -> Result<Came, NoMemory>
    requires valid { IsValid flow.now defs.now }
    requires made { IsWellMade defs.now flow.now.vars flow.now.structs.list state.now }
{
    let states = unfolding(alloc, defs, state, access, line);
    given(alloc, states)
}
