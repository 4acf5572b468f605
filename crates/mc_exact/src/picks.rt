// What malloc is to answer to the run that follows a branch.
ghost use Rattle.std.specs.Prelude.{◌≡◌, IfOk, map};
ghost use Rattle.mc_state.specs.Known.{Test, Tells};
ghost use Rattle.mc_exact.specs.Least.{least};
ghost use Rattle.mc_exact.specs.Real.{answered};

use mc_base::{NoMemory, NodeId};
use mc_symbolic::State;
use std::alloc::Global;

/// The number of the least node that is entailed equal to a node.
pub fn least(state: &State, node: NodeId) -> u64
    ensures { (know : Test) → Tells know state.now → result ≡ least know node }
{
    for number in 0..node.0 {
        if state.are_equal(node, NodeId(number)) {
            return number;
        }
    }
    node.0
}

/// What malloc is to answer, where on a branch that comes to the state it picked null or the start of a new block.
fn answer(state: &State, pick: Option<NodeId>) -> u64
    ensures { (know : Test) → Tells know state.now → result ≡ answered know pick }
{
    match pick {
        None => 0,
        Some(node) => least(state, node),
    }
}

/// All answers of malloc to the run that follows a branch to the state.
pub fn answers(alloc: Global, state: &State, picks: &[Option<NodeId>]) -> Result<Vec<u64>, NoMemory>
    ensures { IfOk result (λ list. (know : Test) → Tells know state.now → list.items ≡ map (answered know) picks.now) }
{
    let mut list = Vec::with_capacity(alloc, picks.len())?;
    for pick in picks {
        list.push(answer(state, *pick))?;
    }
    Ok(list)
}
