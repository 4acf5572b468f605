// Unfolding an edge from its start.
ghost use Rattle.std.specs.Prelude.{◌≡◌, ◌∷◌, ◌++◌, [], IfOk, OnOk, map};
ghost use Rattle.std.specs.List.{AllByRecursion};
ghost use Rattle.mc_state.specs.Known.{Test, Tells};
ghost use Rattle.mc_state.specs.Premises.{AnswersBy};
ghost use Rattle.mc_pure.specs.Pure.{IsWellFormed};
ghost use Rattle.mc_rules_logic.specs.Rule.Made.{IsMadeFor};
ghost use Rattle.mc_rules_logic.specs.Unfold.Judges.{may_unfold, unfolding_ind, unfolding_seg, rules_of, seg_successors};
ghost use Rattle.mc_rules_logic.specs.Unfold.Unfolded.{equal_atoms, own_places, unfolded, unfolded_at};
ghost use Rattle.mc_apply_unfold.specs.Taking.{TakesRule, TakesRuleTo, parts};

use crate::laws::edges_take_rules;
use crate::opening::{Segment, add_atoms, add_body, add_body_to, emptied, opened_at};
use mc_base::{EdgeId, NULL, NoMemory, NodeId, PredId};
use mc_flow::defs::{Call, Def, Defs, Rule};
use mc_state::LogicFault;
use mc_state::graph::Edge;
use mc_symbolic::changes::State;
use std::alloc::Global;

/// Whether an edge at the node may be unfolded: the node is null, or the accessed one.
fn may_unfold(s: &State, access: Option<NodeId>, at: NodeId) -> bool
    ensures { (know : Test) → Tells know s.now → result ≡ may_unfold know access at }
{
    match access {
        None => s.are_equal(at, NULL),
        Some(node) => s.are_equal(at, NULL) || s.are_equal(at, node),
    }
}

/// The rules of a predicate.
pub fn rules_of(defs: &[Def], pred: PredId) -> &[Rule]
    ensures { result.now ≡ rules_of defs.now pred }
{
    match defs.get(pred.0 as usize) {
        Some(def) => def.rules.as_slice(),
        None => &[],
    }
}

/// The state with the body of a rule in the place of an Ind.
fn unfolded(
    alloc: Global,
    s: &State,
    edge: EdgeId,
    at: NodeId,
    args: &[NodeId],
    rule: &Rule,
) -> Result<State, NoMemory>
    requires { TakesRule s.now at args.now rule.now }
    ensures { IfOk result (λ t. t ≡ unfolded s.now edge at args.now rule.now) }
{
    let mut nodes = Vec::new(alloc);
    let mut next = opened_at(alloc, s, edge, at, args, rule, &mut nodes)?;
    add_body(alloc, &mut next, nodes.as_slice(), rule)?;
    add_atoms(alloc, &mut next, nodes.as_slice(), rule)?;
    Ok(next)
}

/// The state with the body of a rule in the place of a Seg, where the call at a place goes on as the segment.
fn unfolded_at(
    alloc: Global,
    s: &State,
    edge: EdgeId,
    seg: &Segment<'_>,
    rule: &Rule,
    place: usize,
) -> Result<State, NoMemory>
    requires { TakesRuleTo s.now seg.now.at seg.now.args.now seg.now.stop seg.now.ends.now rule.now }
    ensures { IfOk result (λ t. t ≡ unfolded_at s.now edge seg.now.at seg.now.args.now seg.now.stop seg.now.ends.now
        rule.now place) }
{
    let mut nodes = Vec::new(alloc);
    let mut next = opened_at(alloc, s, edge, seg.at, seg.args, rule, &mut nodes)?;
    add_body_to(
        alloc,
        &mut next,
        nodes.as_slice(),
        seg.stop,
        seg.ends,
        place,
        rule,
    )?;
    add_atoms(alloc, &mut next, nodes.as_slice(), rule)?;
    Ok(next)
}

/// What each rule makes of an Ind.
fn by_each_rule(
    alloc: Global,
    s: &State,
    edge: EdgeId,
    at: NodeId,
    args: &[NodeId],
    rules: &[Rule],
) -> Result<Vec<State>, NoMemory>
    requires { AllByRecursion (TakesRule s.now at args.now) rules.now }
    ensures { IfOk result (λ next. next.items ≡ map (unfolded s.now edge at args.now) rules.now) }
{
    let mut next = Vec::new(alloc);
    for rule in rules {
        next.push(unfolded(alloc, s, edge, at, args, rule)?)?;
    }
    Ok(next)
}

/// What a rule makes of a Seg for its call at a place, if it is one of the predicate, put after other states.
fn put_call(
    alloc: Global,
    s: &State,
    edge: EdgeId,
    seg: &Segment<'_>,
    rule: &Rule,
    place: usize,
    call: &Call,
    next: &mut Vec<State>,
) -> Result<(), NoMemory>
    requires { TakesRuleTo s.now seg.now.at seg.now.args.now seg.now.stop seg.now.ends.now rule.now }
    ensures { OnOk result (next.new.items ≡ next.old.items ++ map (unfolded_at s.now edge seg.now.at
        seg.now.args.now seg.now.stop seg.now.ends.now rule.now) (own_places seg.now.pred place (call.now ∷ []))) }
{
    if call.pred.0 == seg.pred.0 {
        let state = unfolded_at(alloc, s, edge, seg, rule, place)?;
        next.push(state)?;
        Ok(())
    } else {
        Ok(())
    }
}

/// What a rule makes of a Seg for each of some calls of the predicate, put after other states.
fn put_calls(
    alloc: Global,
    s: &State,
    edge: EdgeId,
    seg: &Segment<'_>,
    rule: &Rule,
    calls: &[Call],
    next: &mut Vec<State>,
) -> Result<(), NoMemory>
    requires { TakesRuleTo s.now seg.now.at seg.now.args.now seg.now.stop seg.now.ends.now rule.now }
    ensures { OnOk result (next.new.items ≡ next.old.items ++ map (unfolded_at s.now edge seg.now.at
        seg.now.args.now seg.now.stop seg.now.ends.now rule.now) (own_places seg.now.pred 0 calls.now)) }
{
    for (place, call) in calls.iter().enumerate() {
        put_call(alloc, s, edge, seg, rule, place, call, next)?;
    }
    Ok(())
}

/// What a rule makes of a Seg for each of its calls of the predicate, put after other states.
fn put_each_call(
    alloc: Global,
    s: &State,
    edge: EdgeId,
    seg: &Segment<'_>,
    rule: &Rule,
    next: &mut Vec<State>,
) -> Result<(), NoMemory>
    requires { TakesRuleTo s.now seg.now.at seg.now.args.now seg.now.stop seg.now.ends.now rule.now }
    ensures { OnOk result (next.new.items ≡ next.old.items ++ map (unfolded_at s.now edge seg.now.at
        seg.now.args.now seg.now.stop seg.now.ends.now rule.now) (own_places seg.now.pred 0 rule.now.calls)) }
{
    put_calls(alloc, s, edge, seg, rule, rule.calls.as_slice(), next)
}

/// What a Seg becomes: nothing, or what each rule makes of it for each of its calls of the predicate.
fn by_each_call(
    alloc: Global,
    s: &State,
    edge: EdgeId,
    seg: &Segment<'_>,
    rules: &[Rule],
) -> Result<Vec<State>, NoMemory>
    requires rules { AllByRecursion (TakesRuleTo s.now seg.now.at seg.now.args.now seg.now.stop seg.now.ends.now)
        rules.now }
    requires equal { AllByRecursion (IsWellFormed s.now.kinds) (equal_atoms (seg.now.at ∷ seg.now.args.now)
        (seg.now.stop ∷ seg.now.ends.now)) }
    ensures { IfOk result (λ next. next.items ≡ seg_successors s.now edge
        (parts seg.now.at seg.now.args.now seg.now.pred seg.now.stop seg.now.ends.now) rules.now) }
{
    let mut next = Vec::new(alloc);
    next.push(emptied(alloc, s, edge, seg)?)?;
    for rule in rules {
        put_each_call(alloc, s, edge, seg, rule, &mut next)?;
    }
    Ok(next)
}

/// L1: the states in which the body of each rule stands in the place of an Ind.
pub fn unfold_ind(
    alloc: Global,
    s: &State,
    defs: &Defs,
    access: Option<NodeId>,
    edge: EdgeId,
) -> Result<Vec<State>, LogicFault>
    requires { IsMadeFor defs.now s.now }
    ensures { (know : Test) → Tells know s.now → AnswersBy (λ v. v.items)
        (unfolding_ind know defs.now access edge s.now) result }
{
    edges_take_rules();
    if s.is_false() {
        return Err(LogicFault::Premise(2));
    }
    let Some(Edge::Ind { at, pred, args }) = s.edge(edge) else {
        return Err(LogicFault::Premise(3));
    };
    if !may_unfold(s, access, *at) {
        return Err(LogicFault::Premise(4));
    }
    let rules = rules_of(defs.as_slice(), *pred);
    match by_each_rule(alloc, s, edge, *at, args.as_slice(), rules) {
        Ok(next) => Ok(next),
        Err(_) => Err(LogicFault::NoMemory),
    }
}

/// L2: the state in which a Seg is empty, and those in which the body of a rule stands in its place, for each of the
/// rule's calls of the predicate, which goes on as the segment.
pub fn unfold_seg(
    alloc: Global,
    s: &State,
    defs: &Defs,
    access: Option<NodeId>,
    edge: EdgeId,
) -> Result<Vec<State>, LogicFault>
    requires { IsMadeFor defs.now s.now }
    ensures { (know : Test) → Tells know s.now → AnswersBy (λ v. v.items)
        (unfolding_seg know defs.now access edge s.now) result }
{
    edges_take_rules();
    if s.is_false() {
        return Err(LogicFault::Premise(2));
    }
    let Some(
        Edge::Seg {
            at,
            args,
            pred,
            end,
            end_args,
        },
    ) = s.edge(edge)
    else {
        return Err(LogicFault::Premise(3));
    };
    if !may_unfold(s, access, *at) {
        return Err(LogicFault::Premise(4));
    }
    let rules = rules_of(defs.as_slice(), *pred);
    let seg = Segment {
        at: *at,
        args: args.as_slice(),
        pred: *pred,
        stop: *end,
        ends: end_args.as_slice(),
    };
    match by_each_call(alloc, s, edge, &seg, rules) {
        Ok(next) => Ok(next),
        Err(_) => Err(LogicFault::NoMemory),
    }
}
