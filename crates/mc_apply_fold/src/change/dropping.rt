// An edge that is not reached.
ghost use Rattle.std.specs.Prelude.{◌≡◌, ◌∷◌, [], IfOk, OnOk, OnErr};
ghost use Rattle.mc_apply_fold.specs.Change.Dropped.{dropped};
ghost use Rattle.mc_apply_fold.specs.Change.Lacking.{ChangesWithMemory};
ghost use Rattle.mc_rules_logic.specs.Fold.ChangeJudges.{dropping_edge, is_reached};
ghost use Rattle.mc_state.specs.Known.{Test, Tells};
ghost use Rattle.mc_rules_logic.specs.Rule.Answered.{AnswersWithMemory};

use crate::change::single::single;
use mc_base::{EdgeId, NoMemory, NodeId};
use mc_flow::defs::Defs;
use mc_rules_logic::fold::{naming_is_judged, naming_is_sound};
use mc_rules_logic::rule::LogicRule;
use mc_state::LogicFault;
use mc_symbolic::State;
use std::alloc::Global;

/// L10: an edge whose start is not reached is dropped, and the edges are all that is allocated no longer.
#[derive(Clone, Copy)]
pub struct DropEdge {
    pub edge: EdgeId,
}

/// Whether a node is reached from node 0 or a variable.
fn is_reached(alloc: Global, s: &State, node: NodeId) -> Result<bool, NoMemory>
    ensures { (know : Test) → Tells know s.now → IfOk result (λ reached. reached ≡ is_reached know s.now node) }
{
    // These two say what the proof needs.
    naming_is_judged();
    s.is_bounded();
    let reached = mc_symbolic::is_reached(alloc, s, node)?;
    Ok(reached)
}

/// The premises of L10. The last one takes memory.
fn premises(alloc: Global, s: &State, edge: EdgeId) -> Result<(), LogicFault>
    ensures { (know : Test) → Tells know s.now → AnswersWithMemory (λ done. dropped edge s.now ∷ [])
        (dropping_edge know edge s.now) result }
{
    if s.is_false() {
        return Err(LogicFault::Premise(2));
    }
    let Some(there) = s.edge(edge) else {
        return Err(LogicFault::Premise(3));
    };
    match is_reached(alloc, s, there.start()) {
        Ok(true) => Err(LogicFault::Premise(4)),
        Ok(false) => Ok(()),
        Err(_) => Err(LogicFault::NoMemory),
    }
}

/// Drops an edge. Without memory nothing changes.
fn put_away(s: &mut State, edge: EdgeId) -> Result<(), NoMemory>
    ensures ok { OnOk result (s.new ≡ dropped edge s.old) }
    ensures err { OnErr result (s.new ≡ s.old) }
{
    s.take_edge(edge)?;
    s.clear_whole();
    Ok(())
}

/// L10: drops an edge whose start is not reached. Where a premise is unmet, or without memory, nothing changes.
pub fn drop_edge(alloc: Global, s: &mut State, edge: EdgeId) -> Result<(), LogicFault>
    ensures { (know : Test) → Tells know s.old → ChangesWithMemory (dropping_edge know edge s.old) (s.old ∷ [])
        (s.new ∷ []) result }
{
    premises(alloc, s, edge)?;
    match put_away(s, edge) {
        Ok(()) => Ok(()),
        Err(_) => Err(LogicFault::NoMemory),
    }
}

/// A copy of the state without an edge.
fn without_edge(alloc: Global, s: &State, edge: EdgeId) -> Result<Vec<State>, NoMemory>
    ensures { IfOk result (λ next. next.items ≡ dropped edge s.now ∷ []) }
{
    let mut next = s.copy(alloc)?;
    put_away(&mut next, edge)?;
    single(alloc, next)
}

impl LogicRule for DropEdge {
    ghost judged = { λ rule know left defs access s. dropping_edge know rule.edge s };

    fn successors(
        &self,
        alloc: Global,
        state: &State,
        defs: &Defs,
        access: Option<NodeId>,
    ) -> Result<Vec<State>, LogicFault> {
        premises(alloc, state, self.edge)?;
        match without_edge(alloc, state, self.edge) {
            Ok(next) => Ok(next),
            Err(_) => Err(LogicFault::NoMemory),
        }
    }

    fn is_sound(&self) {
        naming_is_judged();
        naming_is_sound();
    }
}
