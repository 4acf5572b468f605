// One node in place of an equal one.
ghost use Rattle.std.specs.Prelude.{◌≡◌, ◌&&◌, ◌∷◌, [], IfOk, OnOk, IsTrue, not};
ghost use Rattle.mc_rules_logic.specs.Fold.ChangeJudges.{may_merge, merging_nodes, of_one_kind};
ghost use Rattle.mc_state.specs.Known.{Test, Tells, has_kind};
ghost use Rattle.mc_state.specs.Premises.{AnswersBy, Changes};
ghost use Rattle.mc_pure.specs.Pure.{AreOfOneKind, HasKind};
ghost use Rattle.mc_state.specs.Facts.{CanMerge, merged};

use crate::change::single::{is_there, single};
use mc_base::{Kind, NoMemory, NodeId};
use mc_flow::defs::Defs;
use mc_rules_logic::fold::{naming_is_judged, naming_is_sound};
use mc_rules_logic::rule::LogicRule;
use mc_state::{LogicFault, tests_tell};
use mc_symbolic::State;
use std::alloc::Global;

/// L9: a node stands in place of an equal one everywhere.
#[derive(Clone, Copy)]
pub struct MergeNodes {
    pub keep: NodeId,
    pub gone: NodeId,
}

/// Whether both nodes are of the kind.
fn are_of_kind(s: &State, kind: Kind, a: NodeId, b: NodeId) -> bool
    ensures told { result ≡ (has_kind s.now.kinds kind a && has_kind s.now.kinds kind b) }
    ensures kind { IsTrue result → HasKind s.now.kinds kind a × HasKind s.now.kinds kind b }
{
    tests_tell();
    s.has_kind(kind, a) && s.has_kind(kind, b)
}

/// Whether the nodes are of one kind.
fn are_of_one_kind(s: &State, a: NodeId, b: NodeId) -> bool
    ensures told { result ≡ of_one_kind s.now.kinds a b }
    ensures kind { IsTrue result → AreOfOneKind s.now.kinds a b }
{
    are_of_kind(s, Kind::Int, a, b) || are_of_kind(s, Kind::Ptr, a, b)
}

/// Whether both nodes are there, and the second differs from the first and from node 0.
fn may_merge(s: &State, keep: NodeId, gone: NodeId) -> bool
    ensures { result ≡ may_merge s.now.kinds keep gone }
{
    is_there(s, keep) && is_there(s, gone) && !(keep.0 == gone.0) && !(gone.0 == 0)
}

/// The premises of L9.
fn premises(s: &State, keep: NodeId, gone: NodeId) -> Result<(), LogicFault>
    ensures told { (know : Test) → Tells know s.now → AnswersBy
        (λ done. merged keep gone s.now ∷ []) (merging_nodes know keep gone s.now) result }
    ensures can { OnOk result (CanMerge s.now.kinds keep gone) }
{
    if s.is_false() {
        return Err(LogicFault::Premise(2));
    }
    if !may_merge(s, keep, gone) {
        return Err(LogicFault::Premise(3));
    }
    if !are_of_one_kind(s, keep, gone) {
        return Err(LogicFault::Premise(4));
    }
    if !s.are_equal(keep, gone) {
        return Err(LogicFault::Premise(5));
    }
    Ok(())
}

/// L9: puts a node in place of an equal one everywhere. Where a premise is unmet nothing changes; without memory the
/// state is lost.
pub fn merge_nodes(
    alloc: Global,
    s: &mut State,
    keep: NodeId,
    gone: NodeId,
) -> Result<(), LogicFault>
    ensures { (know : Test) → Tells know s.old → Changes (merging_nodes know keep gone s.old) (s.old ∷ [])
        (s.new ∷ []) result }
{
    premises(s, keep, gone)?;
    match s.merge(alloc, keep, gone) {
        Ok(()) => Ok(()),
        Err(_) => Err(LogicFault::NoMemory),
    }
}

/// The state with one node in place of another.
fn merged(alloc: Global, s: &State, keep: NodeId, gone: NodeId) -> Result<Vec<State>, NoMemory>
    requires { CanMerge s.now.kinds keep gone }
    ensures { IfOk result (λ next. next.items ≡ merged keep gone s.now ∷ []) }
{
    let mut next = s.copy(alloc)?;
    next.merge(alloc, keep, gone)?;
    single(alloc, next)
}

impl LogicRule for MergeNodes {
    ghost judged = { λ rule know left defs access s. merging_nodes know rule.keep rule.gone s };

    fn successors(
        &self,
        alloc: Global,
        state: &State,
        defs: &Defs,
        access: Option<NodeId>,
    ) -> Result<Vec<State>, LogicFault> {
        premises(state, self.keep, self.gone)?;
        match merged(alloc, state, self.keep, self.gone) {
            Ok(next) => Ok(next),
            Err(_) => Err(LogicFault::NoMemory),
        }
    }

    fn is_sound(&self) {
        naming_is_judged();
        naming_is_sound();
    }
}
