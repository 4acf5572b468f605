// Lines that say that an instruction is stuck.
ghost use Rattle.std.specs.Prelude.{◌≡◌, IfOk};
ghost use Rattle.mc_flow.specs.Valid.{IsValid};
ghost use Rattle.mc_check_line.specs.Judging.{IsLineAnswer, path, setting_of};
ghost use Rattle.mc_kernel.specs.JudgedLaws.{IsAsked};
ghost use Rattle.mc_kernel.specs.Judges.{Knowledge, stuck_at};

use crate::places::may_stick;
use crate::{Branch, Next, Refused, Setting};
use mc_base::NoMemory;
use mc_flow::Flow;
use mc_flow::defs::Defs;
use mc_gaps::lacking::lacking_at;
use mc_rules_steps::Gap;
use std::alloc::Global;

/// What the instruction at a branch's point lacks.
fn gap(alloc: Global, flow: &Flow, defs: &Defs, branch: &Branch) -> Result<Option<Gap>, NoMemory>
    requires { IsValid flow.now defs.now }
    ensures { (k : Knowledge) → IsAsked k flow.now defs.now (path branch.now)
        → IfOk result (λ gap. gap ≡ k.gap branch.now.point branch.now.state) }
{
    match lacking_at(alloc, flow, defs, branch.point, &branch.state) {
        Ok(found) => Ok(found),
        Err(full) => Err(full),
    }
}

/// C1: the instruction lacks something, and the branch ends.
pub fn stick(
    alloc: Global,
    flow: &Flow,
    defs: &Defs,
    setting: Setting<'_>,
    branch: Branch,
) -> Result<Next, Refused>
    requires { IsValid flow.now defs.now }
    ensures { (k : Knowledge) → IsAsked k flow.now defs.now (path branch)
        → IsLineAnswer (stuck_at k (setting_of setting.entry) (path branch)) (path branch) result }
{
    if !may_stick(setting, &branch) {
        return Err(Refused::Premise(1, branch));
    }
    if branch.state.is_false() {
        return Err(Refused::Premise(2, branch));
    }
    match gap(alloc, flow, defs, &branch) {
        Ok(Some(_)) => Ok(Next::Ended),
        Ok(None) => Err(Refused::Premise(3, branch)),
        Err(_) => Err(Refused::NoMemory),
    }
}
