// Branches that begin.
ghost use Rattle.std.specs.Prelude.{◌≡◌, IfOk, List};
ghost use Rattle.mc_flow.specs.declared.defs.rules.Def.{Def};
ghost use Rattle.mc_check_line.specs.Judging.{path};
ghost use Rattle.mc_kernel.specs.Branches.{begins, entry_path};
ghost use Rattle.mc_kernel.specs.Reading.Documents.{IsMade};

use mc_base::{NoMemory, PointId};
use mc_check_line::Branch;
use mc_flow::Flow;
use mc_symbolic::State;
use std::alloc::Global;

/// The branch that begins at a point with a state.
pub fn begins(point: PointId, state: State) -> Branch
    ensures { path result ≡ begins point state }
{
    Branch {
        point,
        state,
        goal: None,
        moved: false,
        closing: false,
    }
}

/// The branch of the entry.
pub fn entry(alloc: Global, flow: &Flow) -> Result<Branch, NoMemory>
    ensures { IfOk result (λ b. path b ≡ entry_path flow.now) }
{
    let state = State::unknown(alloc, flow.vars.len())?;
    Ok(begins(PointId(0), state))
}
