// The positions of end arguments by which a segment may be unfolded from its end.
ghost use Rattle.std.specs.Prelude.{◌≡◌, ◌&&◌};
ghost use Rattle.std.specs.List.{list_all};
ghost use Rattle.mc_rules_logic.specs.Back.Judges.{ends_back_at, is_reached_back};
ghost use Rattle.mc_state.specs.Back.{is_back, is_back_call};
ghost use Rattle.mc_state.specs.Known.{Test, Tells, equal};
ghost use Rattle.mc_apply_unfold.specs.Taking.{parts};

use crate::opening::Segment;
use mc_base::{NodeId, PredId};
use mc_flow::defs::{Call, Def, Rule};
use mc_symbolic::changes::State;

/// Whether a call, if it is one of the predicate, has `this` as its argument at a position.
fn is_back_call(pred: PredId, position: usize, call: &Call) -> bool
    ensures { result ≡ is_back_call pred position call.now }
{
    if call.pred.0 == pred.0 {
        match call.args.as_slice().get(position) {
            Some(name) => *name == 0,
            None => false,
        }
    } else {
        true
    }
}

/// The same of each call of a rule.
fn is_back_rule(pred: PredId, position: usize, rule: &Rule) -> bool
    ensures { result ≡ list_all (is_back_call pred position) rule.now.calls }
{
    for call in rule.calls.as_slice() {
        if !is_back_call(pred, position, call) {
            return false;
        }
    }
    true
}

/// The same of each call of each rule.
fn are_back_rules(pred: PredId, position: usize, rules: &[Rule]) -> bool
    ensures { result ≡ list_all (λ rule. list_all (is_back_call pred position) rule.calls) rules.now }
{
    for rule in rules {
        if !is_back_rule(pred, position, rule) {
            return false;
        }
    }
    true
}

/// Whether a position is a back position of a predicate: each of its rules passes `this` there to each call of it.
pub fn is_back(defs: &[Def], pred: PredId, position: usize) -> bool
    ensures { result ≡ is_back defs.now pred position }
{
    match defs.get(pred.0 as usize) {
        Some(def) => position < def.params.len()
            && are_back_rules(pred, position, def.rules.as_slice()),
        None => false,
    }
}

/// Whether a position is a back position, and the node there is equal to another.
fn is_end_back(
    s: &State,
    defs: &[Def],
    pred: PredId,
    node: NodeId,
    position: usize,
    end: NodeId,
) -> bool
    ensures { (know : Test) → Tells know s.now → result ≡ (is_back defs.now pred position && equal know end node) }
{
    is_back(defs, pred, position) && s.are_equal(end, node)
}

/// Whether one of the end arguments stands at a back position and is equal to the node.
fn ends_back(s: &State, defs: &[Def], pred: PredId, node: NodeId, ends: &[NodeId]) -> bool
    ensures { (know : Test) → Tells know s.now → result ≡ ends_back_at know defs.now pred node 0 ends.now }
{
    for (i, end) in ends.iter().enumerate() {
        if is_end_back(s, defs, pred, node, i, *end) {
            return true;
        }
    }
    false
}

/// Whether there is an accessed node, and an end argument that is equal to it stands at a back position.
pub fn is_reached_back(s: &State, defs: &[Def], access: Option<NodeId>, seg: &Segment<'_>) -> bool
    ensures { (know : Test) → Tells know s.now → result ≡ is_reached_back know defs.now access
        (parts seg.now.at seg.now.args.now seg.now.pred seg.now.stop seg.now.ends.now) }
{
    match access {
        Some(node) => ends_back(s, defs, seg.pred, node, seg.ends),
        None => false,
    }
}
