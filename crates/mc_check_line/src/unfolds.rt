// Lines of the rules that unfold.
ghost use Rattle.std.specs.Prelude.{◌≡◌, IfOk, List, map};
ghost use Rattle.mc_rules_logic.specs.Back.Judges.{unfolding_back};
ghost use Rattle.mc_check_line.specs.Judging.{IsLineAnswer, path};
ghost use Rattle.mc_kernel.specs.Branches.{with_state};
ghost use Rattle.mc_kernel.specs.Instances.{accessed};
ghost use Rattle.mc_kernel.specs.Judges.{by_logic, by_unfolding};
ghost use Rattle.mc_state.specs.Known.{Test, Tells};
ghost use Rattle.mc_state.specs.Premises.{AnswersBy, Judged};
ghost use Rattle.mc_rules_logic.specs.Rule.Made.{IsMadeFor};
ghost use Rattle.mc_state.specs.State.{State as Symbolic};
ghost use Rattle.mc_rules_logic.specs.Unfold.Judges.{unfolding_ind, unfolding_seg};

use crate::access::accessed;
use crate::{Branch, Next, Refused};
use mc_apply_unfold::{unfold_back, unfold_ind, unfold_seg};
use mc_base::{EdgeId, NoMemory};
use mc_flow::Flow;
use mc_flow::defs::Defs;
use mc_state::{Goal, LogicFault};
use mc_symbolic::State;
use std::alloc::Global;

/// The same goal again.
fn copy_goal(alloc: Global, goal: &Option<Goal>) -> Result<Option<Goal>, NoMemory>
    ensures { IfOk result (λ copy. copy ≡ goal.now) }
{
    match goal {
        Some(goal) => Ok(Some(Goal {
            pred: goal.pred,
            at: goal.at,
            args: goal.args.copy(alloc)?,
        })),
        None => Ok(None),
    }
}

/// The branch with another state.
fn with_state(alloc: Global, branch: &Branch, state: State) -> Result<Branch, NoMemory>
    ensures { IfOk result (λ b. path b ≡ with_state (path branch.now) state) }
{
    Ok(Branch {
        point: branch.point,
        state,
        goal: copy_goal(alloc, &branch.goal)?,
        moved: branch.moved,
        closing: branch.closing,
    })
}

/// The branch with each of some states.
pub fn with_states(
    alloc: Global,
    branch: &Branch,
    states: Vec<State>,
) -> Result<Vec<Branch>, NoMemory>
    ensures { IfOk result (λ list. map path list.items ≡ map (with_state (path branch.now)) states.items) }
{
    let mut list = Vec::with_capacity(alloc, states.len())?;
    for state in states {
        list.push(with_state(alloc, branch, state)?)?;
    }
    Ok(list)
}

/// The branch with each of the states that a rule of logic gives, or its first premise that is unmet.
fn answered(
    alloc: Global,
    given: Result<Vec<State>, LogicFault>,
    branch: Branch,
) -> Result<Next, Refused>
    ensures { (judged : Judged (List Symbolic)) → AnswersBy (λ v. v.items) judged given
        → IsLineAnswer (by_logic judged (path branch)) (path branch) result }
{
    match given {
        Ok(states) => match with_states(alloc, &branch, states) {
            Ok(list) => Ok(Next::More(list)),
            Err(_) => Err(Refused::NoMemory),
        },
        Err(LogicFault::Premise(k)) => Err(Refused::Premise(k, branch)),
        Err(LogicFault::NoMemory) => Err(Refused::NoMemory),
    }
}

/// L1: unfolds an Ind.
pub fn ind(
    alloc: Global,
    flow: &Flow,
    defs: &Defs,
    edge: EdgeId,
    branch: Branch,
) -> Result<Next, Refused>
    requires { IsMadeFor defs.now branch.state }
    ensures { (know : Test) → Tells know branch.state → IsLineAnswer (by_unfolding
        (unfolding_ind know defs.now (accessed flow.now (path branch)) edge branch.state) (path branch)) (path branch) result }
{
    if branch.closing {
        return Err(Refused::Premise(1, branch));
    }
    let access = accessed(flow, &branch);
    let given = unfold_ind(alloc, &branch.state, defs, access, edge);
    answered(alloc, given, branch)
}

/// L2: unfolds a Seg from its start.
pub fn seg(
    alloc: Global,
    flow: &Flow,
    defs: &Defs,
    edge: EdgeId,
    branch: Branch,
) -> Result<Next, Refused>
    requires { IsMadeFor defs.now branch.state }
    ensures { (know : Test) → Tells know branch.state → IsLineAnswer (by_unfolding
        (unfolding_seg know defs.now (accessed flow.now (path branch)) edge branch.state) (path branch)) (path branch) result }
{
    if branch.closing {
        return Err(Refused::Premise(1, branch));
    }
    let access = accessed(flow, &branch);
    let given = unfold_seg(alloc, &branch.state, defs, access, edge);
    answered(alloc, given, branch)
}

/// L15: unfolds a Seg from its end.
pub fn back(
    alloc: Global,
    flow: &Flow,
    defs: &Defs,
    edge: EdgeId,
    branch: Branch,
) -> Result<Next, Refused>
    requires { IsMadeFor defs.now branch.state }
    ensures { (know : Test) → Tells know branch.state → IsLineAnswer (by_unfolding
        (unfolding_back know defs.now (accessed flow.now (path branch)) edge branch.state) (path branch)) (path branch) result }
{
    if branch.closing {
        return Err(Refused::Premise(1, branch));
    }
    let access = accessed(flow, &branch);
    let given = unfold_back(alloc, &branch.state, defs, access, edge);
    answered(alloc, given, branch)
}
