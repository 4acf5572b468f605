// One successor, and nodes that are there.
ghost use Rattle.std.specs.Prelude.{◌≡◌, ◌∷◌, [], IfOk, IsTrue};
ghost use Rattle.mc_rules_logic.specs.Fold.ChangeJudges.{is_there};
ghost use Rattle.mc_pure.specs.Pure.{IsNode};

use mc_base::{NoMemory, NodeId};
use mc_symbolic::State;
use std::alloc::Global;

/// A list of one state.
pub fn single(alloc: Global, state: State) -> Result<Vec<State>, NoMemory>
    ensures { IfOk result (λ next. next.items ≡ state ∷ []) }
{
    let mut next = Vec::new(alloc);
    next.push(state)?;
    Ok(next)
}

/// Whether the node is there.
#[tactic(auto, unfolding(mc_rules_logic::specs::Fold::ChangeJudges::is_there))]
pub fn is_there(s: &State, node: NodeId) -> bool
    ensures told { result ≡ is_there s.now.kinds node }
    ensures there { IsTrue result → IsNode s.now.kinds node }
{
    if node.0 == 0 {
        return true;
    }
    match s.kind(node) {
        Some(_) => true,
        None => false,
    }
}
