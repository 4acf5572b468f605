// A new node for another node and a number more.
ghost use Rattle.std.specs.Prelude.{◌≡◌, ◌↔◌, ◌∷◌, [], IfOk, OnOk, IsTrue};
ghost use Rattle.mc_base.specs.declared.plain.Atom.TheVariants.{Eq};
ghost use Rattle.mc_apply_fold.specs.Change.Spare.{with_spare};
ghost use Rattle.mc_rules_logic.specs.Fold.Changed.{NamesSpare};
ghost use Rattle.mc_rules_logic.specs.Fold.ChangeJudges.{lies_in, naming_spare};
ghost use Rattle.mc_apply_fold.specs.Forget.Left.{IsMade};
ghost use Rattle.mc_state.specs.Known.{Test, Tells, has_kind};
ghost use Rattle.mc_state.specs.Premises.{AnswersBy, Changes};
ghost use Rattle.mc_pure.specs.Derived.{LiesIn};
ghost use Rattle.mc_pure.specs.Pure.{HasKind, high_of, low_of};
ghost use Rattle.mc_state.specs.State.{pure_of};

use crate::change::single::{is_there, single};
use mc_base::{Atom, Kind, NoMemory, NodeId};
use mc_flow::defs::Defs;
use mc_pure::Term;
use mc_rules_logic::fold::{naming_is_judged, naming_is_sound, naming_makes_well};
use mc_rules_logic::rule::LogicRule;
use mc_state::{LogicFault, tests_tell};
use mc_symbolic::State;
use std::alloc::Global;

/// L8: a new node of a kind is another node and a number more.
#[derive(Clone, Copy)]
pub struct SpareNode {
    pub node: NodeId,
    pub add: i64,
    pub kind: Kind,
}

/// The least number of a kind.
fn low_of(kind: Kind) -> i64
    ensures { result ≡ low_of kind }
{
    match kind {
        Kind::Int => -2_147_483_648,
        Kind::Ptr => 0,
    }
}

/// The greatest number of a kind.
fn high_of(kind: Kind) -> i64
    ensures { result ≡ high_of kind }
{
    match kind {
        Kind::Int => 2_147_483_647,
        Kind::Ptr => 4_611_686_018_427_387_903,
    }
}

/// A rule's node and number.
fn term_of(rule: &SpareNode) -> Term
    ensures node { result.node ≡ rule.now.node }
    ensures add { result.add ≡ rule.now.add }
{
    Term {
        node: rule.node,
        add: rule.add,
    }
}

/// Whether a rule's node, the number more, is entailed to lie in the range of the rule's kind. No sum is made in 64 bits.
fn lies_in(s: &State, rule: &SpareNode) -> bool
    ensures told { (know : Test) → Tells know s.now → result ≡ lies_in know rule.now.kind rule.now.node rule.now.add }
    ensures derived { IsTrue result ↔ LiesIn (pure_of s.now) rule.now.kind rule.now.node rule.now.add }
{
    let term = term_of(rule);
    let low = low_of(rule.kind);
    let high = high_of(rule.kind);
    let known = s.known();
    known.lies_in(&term, low, high)
}

/// Whether the node is of the kind.
fn is_of_kind(s: &State, kind: Kind, node: NodeId) -> bool
    ensures told { result ≡ has_kind s.now.kinds kind node }
    ensures kind { IsTrue result → HasKind s.now.kinds kind node }
{
    tests_tell();
    s.has_kind(kind, node)
}

/// The premises of L8.
fn premises(s: &State, rule: &SpareNode) -> Result<(), LogicFault>
    ensures told { (know : Test) → Tells know s.now → AnswersBy
        (λ done. with_spare rule.now.node rule.now.add rule.now.kind s.now ∷ [])
        (naming_spare know rule.now.node rule.now.add rule.now.kind s.now) result }
    ensures spare { OnOk result (NamesSpare rule.now.node rule.now.add rule.now.kind s.now
        (with_spare rule.now.node rule.now.add rule.now.kind s.now ∷ [])) }
{
    if s.is_false() {
        return Err(LogicFault::Premise(2));
    }
    if !is_there(s, rule.node) {
        return Err(LogicFault::Premise(3));
    }
    if !lies_in(s, rule) {
        return Err(LogicFault::Premise(4));
    }
    if !is_of_kind(s, rule.kind, rule.node) {
        return Err(LogicFault::Premise(4));
    }
    Ok(())
}

/// The atom that a node is a rule's node and the rule's number more.
fn equation(node: NodeId, rule: &SpareNode) -> Atom
    ensures { result ≡ Eq node rule.now.node rule.now.add }
{
    Atom::Eq(node, rule.node, rule.add)
}

/// Adds the new node. Without memory the state is lost.
fn add_spare(s: &mut State, rule: &SpareNode) -> Result<(), NoMemory>
    requires made { IsMade s.old }
    requires spare { NamesSpare rule.now.node rule.now.add rule.now.kind s.old
        (with_spare rule.now.node rule.now.add rule.now.kind s.old ∷ []) }
    ensures { OnOk result (s.new ≡ with_spare rule.now.node rule.now.add rule.now.kind s.old) }
{
    // This says what the proof needs.
    naming_makes_well();
    let node = s.add_node(rule.kind)?;
    s.assume(&equation(node, rule))?;
    Ok(())
}

/// L8: gives a node and a number more a new node. Where a premise is unmet nothing changes; without memory the state is
/// lost.
pub fn name_spare(s: &mut State, rule: &SpareNode) -> Result<(), LogicFault>
    requires { IsMade s.old }
    ensures { (know : Test) → Tells know s.old → Changes
        (naming_spare know rule.now.node rule.now.add rule.now.kind s.old) (s.old ∷ []) (s.new ∷ []) result }
{
    premises(s, rule)?;
    match add_spare(s, rule) {
        Ok(()) => Ok(()),
        Err(_) => Err(LogicFault::NoMemory),
    }
}

/// A copy of the state with the new node.
fn with_spare(alloc: Global, s: &State, rule: &SpareNode) -> Result<Vec<State>, NoMemory>
    requires made { IsMade s.now }
    requires spare { NamesSpare rule.now.node rule.now.add rule.now.kind s.now
        (with_spare rule.now.node rule.now.add rule.now.kind s.now ∷ []) }
    ensures { IfOk result (λ next. next.items ≡ with_spare rule.now.node rule.now.add rule.now.kind s.now ∷ []) }
{
    let mut next = s.copy(alloc)?;
    add_spare(&mut next, rule)?;
    single(alloc, next)
}

impl LogicRule for SpareNode {
    ghost judged = { λ rule know left defs access s. naming_spare know rule.node rule.add rule.kind s };

    fn successors(
        &self,
        alloc: Global,
        state: &State,
        defs: &Defs,
        access: Option<NodeId>,
    ) -> Result<Vec<State>, LogicFault> {
        premises(state, self)?;
        match with_spare(alloc, state, self) {
            Ok(next) => Ok(next),
            Err(_) => Err(LogicFault::NoMemory),
        }
    }

    fn is_sound(&self) {
        naming_is_judged();
        naming_is_sound();
    }
}
