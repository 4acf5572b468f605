// A line at the first of some branches.
ghost use Rattle.std.specs.Prelude.{◌≡◌};
ghost use Rattle.mc_flow.specs.Valid.{IsValid};
ghost use Rattle.mc_document.specs.Proof.Stacks.{AreMade};

use mc_base::NoMemory;
use mc_check_line::{Refused, Setting, judge};
use mc_document::proof::Stack;
use mc_flow::{Defs, Flow};
use mc_lines::cert::Line;
use std::alloc::{AllocError, Global};

/// Applies a rule's line at the first of some branches, in whose place its successors come; whether it is an instance. Else
/// nothing changes; without memory the branch is lost.
pub fn advance(
    alloc: Global,
    flow: &Flow,
    defs: &Defs,
    setting: Setting<'_>,
    line: &Line,
    stack: &mut Stack,
) -> Result<bool, NoMemory>
    requires valid { IsValid flow.now defs.now }
    requires made { AreMade flow.now defs.now stack.old }
    ensures made { AreMade flow.now defs.now stack.new }
{
    // For the proof alone: what comes of a made branch is made.
    mc_kernel::oracle::judges_are_there();
    mc_kernel::lines_are_judged();
    mc_kernel::reading::lines_make_well_made();
    let Some(first) = stack.pop() else {
        return Ok(false);
    };
    match judge(alloc, flow, defs, setting, line, first) {
        Ok(next) => {
            stack.put(next)?;
            Ok(true)
        }
        Err(Refused::Premise(k, same)) => {
            let _premise = k;
            stack.push(same)?;
            Ok(false)
        }
        Err(Refused::NoMemory) => Err(AllocError),
    }
}
