// A rule's line at the first open branch.
ghost use Rattle.std.specs.Prelude.{◌≡◌};
ghost use Rattle.mc_flow.specs.Valid.{IsValid};
ghost use Rattle.mc_check_line.specs.Judging.{setting_of};
ghost use Rattle.mc_kernel.specs.Judges.{Knowledge};
ghost use Rattle.mc_document.specs.Proof.Lines.{AnswersAll, ComesTo, advanced};
ghost use Rattle.mc_document.specs.Proof.Stacks.{AreMade};

use crate::proof::ApplyFault;
use crate::proof::stack::Stack;
use mc_check_line::{Refused, Setting, judge};
use mc_flow::{Defs, Flow};
use mc_lines::cert::Line;
use std::alloc::Global;

/// Applies a rule's line at the first of the open branches, in whose place its successors come. A refused line changes
/// nothing; without memory the branch is lost.
pub fn advance(
    alloc: Global,
    flow: &Flow,
    defs: &Defs,
    setting: Setting<'_>,
    line: &Line,
    stack: &mut Stack,
) -> Result<(), ApplyFault>
    requires valid { IsValid flow.now defs.now }
    requires made { AreMade flow.now defs.now stack.old }
    ensures comes { (k : Knowledge) → AnswersAll k flow.now defs.now
        → ComesTo (advanced k flow.now defs.now (setting_of setting.entry) line.now stack.old) stack.old stack.new result }
    ensures made { AreMade flow.now defs.now stack.new }
{
    // For the proof alone: what comes of a made branch is made.
    mc_kernel::oracle::judges_are_there();
    mc_kernel::lines_are_judged();
    mc_kernel::reading::lines_make_well_made();
    let Some(first) = stack.pop() else {
        return Err(ApplyFault::Premise(1));
    };
    match judge(alloc, flow, defs, setting, line, first) {
        Ok(next) => {
            stack.put(next)?;
            Ok(())
        }
        Err(Refused::Premise(k, same)) => {
            stack.push(same)?;
            Err(ApplyFault::Premise(k))
        }
        Err(Refused::NoMemory) => Err(ApplyFault::NoMemory),
    }
}
