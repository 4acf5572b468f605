// The branches that a reading begins with.
ghost use Rattle.std.specs.Prelude.{◌≡◌, IfOk, List, map};
ghost use Rattle.mc_flow.specs.declared.defs.rules.Def.{Def};
ghost use Rattle.mc_check_line.specs.Judging.{head_of, path};
ghost use Rattle.mc_kernel.specs.Branches.{begins, entry_path, roots};
ghost use Rattle.mc_document.specs.Proof.Stacks.{AreMade, HeadsAreMade};

use crate::proof::stack::Stack;
use mc_base::{NoMemory, PointId};
use mc_check_line::{Branch, Head};
use mc_flow::Flow;
use mc_symbolic::State;
use std::alloc::Global;

/// The branch that begins at a point with a state.
fn begins(point: PointId, state: State) -> Branch
    ensures { path result ≡ begins point state }
{
    Branch {
        point,
        state,
        goal: None,
        moved: false,
        closing: false,
    }
}

/// The branch of the entry.
fn entry(alloc: Global, flow: &Flow) -> Result<Branch, NoMemory>
    ensures { IfOk result (λ b. path b ≡ entry_path flow.now) }
{
    let state = State::unknown(alloc, flow.vars.len())?;
    Ok(begins(PointId(0), state))
}

/// The branches of the entry and of heads, in this order.
fn listed(alloc: Global, flow: &Flow, heads: &[Head]) -> Result<Vec<Branch>, NoMemory>
    ensures { IfOk result (λ list. map path list.items ≡ roots flow.now (map head_of heads.now)) }
{
    let mut list = Vec::new(alloc);
    list.push(entry(alloc, flow)?)?;
    for head in heads {
        let state = head.state.copy(alloc)?;
        list.push(begins(head.point, state))?;
    }
    Ok(list)
}

/// The branches that a reading begins with. Their states are well made where those of heads are.
pub fn roots(alloc: Global, flow: &Flow, heads: &[Head]) -> Result<Stack, NoMemory>
    ensures are { IfOk result (λ stack. stack ≡ roots flow.now (map head_of heads.now)) }
    ensures made { IfOk result (λ stack. (defs : List Def) → HeadsAreMade flow.now defs (map head_of heads.now)
        → AreMade flow.now defs stack) }
{
    // For the proof alone: the state of the entry is well made.
    mc_state::numbers_stay_bounded();
    let list = listed(alloc, flow, heads)?;
    Ok(Stack::of(list))
}
