// Lines of instructions.
ghost use Rattle.std.specs.Prelude.{◌≡◌, List, map};
ghost use Rattle.mc_flow.specs.Valid.{IsValid};
ghost use Rattle.mc_check_line.specs.Judging.{IsLineAnswer, path, paths, setting_of};
ghost use Rattle.mc_kernel.specs.Branches.{path_of};
ghost use Rattle.mc_kernel.specs.JudgedLaws.{IsAsked};
ghost use Rattle.mc_kernel.specs.Judges.{Knowledge, by_step};
ghost use Rattle.mc_state.specs.Fits.{IsWellMade};
ghost use Rattle.mc_state.specs.Premises.{Judged, then_give};
ghost use Rattle.mc_state.specs.State.{State as Symbolic};
ghost use Rattle.mc_rules_steps.specs.Next.{Next as Step};
ghost use Rattle.mc_apply_steps.specs.Step.Stepped.{Steps, seen, successors};

use crate::places::may_step;
use crate::{Branch, Next, Refused, Setting};
use mc_apply_steps::step::{Next as Successor, Refused as NoStep, Stepped};
use mc_base::PointId;
use mc_flow::Flow;
use mc_flow::defs::Defs;
use mc_state::{Goal, InstrRule};
use std::alloc::Global;

/// The branch that comes of an instruction: it has moved, or is a side branch.
fn branch_of(next: Successor) -> Branch
    ensures { path result ≡ path_of (seen next) }
{
    let Successor { point, goal, state } = next;
    match goal {
        Some(goal) => Branch {
            point,
            state,
            goal: Some(goal),
            moved: false,
            closing: false,
        },
        None => Branch {
            point,
            state,
            goal: None,
            moved: true,
            closing: false,
        },
    }
}

/// The branches that come of an instruction.
fn next_of(stepped: Stepped) -> Next
    ensures { paths result ≡ map path_of (successors stepped) }
{
    match stepped {
        Stepped::Ended => Next::Ended,
        Stepped::Moved(next) => Next::One(branch_of(next)),
        Stepped::Branched(first, second) => Next::Two(branch_of(first), branch_of(second)),
    }
}

/// What comes of a branch whose instruction was judged: what is left of the branch, as it was, is given by its parts.
fn answer_of(
    given: Result<Stepped, NoStep>,
    point: PointId,
    goal: Option<Goal>,
    moved: bool,
    closing: bool,
) -> Result<Next, Refused>
    ensures { (judged : Judged (List Step)) (s : Symbolic) → Steps judged s given
        → IsLineAnswer (then_give (map path_of) judged)
        (record { point = point; state = s; goal = goal; moved = moved; closing = closing }) result }
{
    match given {
        Ok(stepped) => Ok(next_of(stepped)),
        Err(NoStep::Premise(k, state)) => {
            let same = Branch {
                point,
                state,
                goal,
                moved,
                closing,
            };
            Err(Refused::Premise(k, same))
        }
        Err(NoStep::NoMemory) => Err(Refused::NoMemory),
    }
}

/// A line of an instruction: what its rule gives at the branch's point, where it may stand.
pub fn step(
    alloc: Global,
    flow: &Flow,
    defs: &Defs,
    setting: Setting<'_>,
    rule: InstrRule,
    branch: Branch,
) -> Result<Next, Refused>
    requires valid { IsValid flow.now defs.now }
    requires made { IsWellMade defs.now flow.now.vars flow.now.structs.list branch.state }
    ensures { (k : Knowledge) → IsAsked k flow.now defs.now (path branch) → IsLineAnswer
        (by_step k flow.now (setting_of setting.entry) rule (path branch)) (path branch) result }
{
    if !may_step(setting, &branch) {
        return Err(Refused::Premise(1, branch));
    }
    let Branch {
        point,
        state,
        goal,
        moved,
        closing,
    } = branch;
    let given = mc_apply_steps::instructions::step(alloc, flow, defs, rule, point, state);
    answer_of(given, point, goal, moved, closing)
}
