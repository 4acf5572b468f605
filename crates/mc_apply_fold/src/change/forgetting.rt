// A node that nothing names.
ghost use Rattle.std.specs.Prelude.{◌≡◌, ◌≢◌, ◌∷◌, ◌&&◌, ◌==◌, [], IfOk, IsTrue, List, OnOk, not};
ghost use Rattle.mc_base.specs.Nodes.{null};
ghost use Rattle.mc_base.specs.declared.plain.Atom.{Atom as Fact};
ghost use Rattle.mc_rules_logic.specs.Fold.Changed.{IsListWithout, left_over};
ghost use Rattle.mc_rules_logic.specs.Fold.ChangeJudges.{forgetting_node, is_there};
ghost use Rattle.mc_apply_fold.specs.Forget.Left.{IsMade};
ghost use Rattle.mc_state.specs.Known.{Test, Tells};
ghost use Rattle.mc_state.specs.Premises.{AnswersBy, Changes};
ghost use Rattle.mc_pure.specs.Pure.{IsNode};
ghost use Rattle.mc_state.specs.Facts.{IsFalse, IsUnnamed};

use crate::change::single::{is_there, single};
use crate::forget::{forget, is_unnamed};
use mc_base::{NoMemory, NodeId};
use mc_flow::defs::Defs;
use mc_rules_logic::fold::{naming_is_judged, naming_is_sound};
use mc_rules_logic::rule::LogicRule;
use mc_state::LogicFault;
use mc_symbolic::State;
use std::alloc::Global;

/// L11: a node that stands in no variable and in no edge is forgotten.
#[derive(Clone, Copy)]
pub struct ForgetNode {
    pub node: NodeId,
}

/// Whether the node is there and is not node 0.
fn is_another(s: &State, node: NodeId) -> bool
    ensures told { result ≡ (is_there s.now.kinds node && not (node.0 == 0)) }
    ensures there { IsTrue result → IsNode s.now.kinds node }
    ensures not_null { IsTrue result → node ≢ null }
{
    is_there(s, node) && !(node.0 == 0)
}

/// The premises of L11. The atoms are those that are to be written.
fn premises(s: &State, node: NodeId) -> Result<(), LogicFault>
    ensures told { (know : Test) (atoms : List Fact) → Tells know s.now → AnswersBy
        (λ done. left_over s.now node atoms ∷ []) (forgetting_node know atoms node s.now) result }
    ensures consistent { OnOk result (IsFalse s.now → ⊥) }
    ensures there { OnOk result (IsNode s.now.kinds node) }
    ensures not_null { OnOk result (node ≢ null) }
    ensures unnamed { OnOk result (IsUnnamed node s.now) }
{
    if s.is_false() {
        return Err(LogicFault::Premise(2));
    }
    if !is_another(s, node) {
        return Err(LogicFault::Premise(3));
    }
    if !is_unnamed(s, node) {
        return Err(LogicFault::Premise(4));
    }
    Ok(())
}

/// L11: forgets a node that no variable and no edge names. Where a premise is unmet nothing changes; nor does it without
/// memory. The atoms are those that are to be written.
pub fn forget_node(alloc: Global, s: &mut State, node: NodeId) -> Result<(), LogicFault>
    requires { IsMade s.old }
    ensures { (know : Test) (atoms : List Fact) → Tells know s.old → IsListWithout node s.old atoms
        → Changes (forgetting_node know atoms node s.old) (s.old ∷ []) (s.new ∷ []) result }
{
    premises(s, node)?;
    match forget(alloc, s, node) {
        Ok(()) => Ok(()),
        Err(_) => Err(LogicFault::NoMemory),
    }
}

/// A copy of the state without a node. The atoms are those that are to be written.
fn without_node(alloc: Global, s: &State, node: NodeId) -> Result<Vec<State>, NoMemory>
    requires made { IsMade s.now }
    requires there { IsNode s.now.kinds node }
    requires not_null { node ≢ null }
    requires not_false { IsFalse s.now → ⊥ }
    requires unnamed { IsUnnamed node s.now }
    ensures { (atoms : List Fact) → IsListWithout node s.now atoms → IfOk result
        (λ next. next.items ≡ left_over s.now node atoms ∷ []) }
{
    let mut next = s.copy(alloc)?;
    forget(alloc, &mut next, node)?;
    single(alloc, next)
}

impl LogicRule for ForgetNode {
    ghost judged = { λ rule know left defs access s. forgetting_node know (left rule.node) rule.node s };

    fn successors(
        &self,
        alloc: Global,
        state: &State,
        defs: &Defs,
        access: Option<NodeId>,
    ) -> Result<Vec<State>, LogicFault> {
        premises(state, self.node)?;
        match without_node(alloc, state, self.node) {
            Ok(next) => Ok(next),
            Err(_) => Err(LogicFault::NoMemory),
        }
    }

    fn is_sound(&self) {
        naming_is_judged();
        naming_is_sound();
    }
}
