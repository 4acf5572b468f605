// Unfolding a segment from its end.
ghost use Rattle.std.specs.Prelude.{◌≡◌, ◌<◌, ◌∷◌, ◌++◌, [], IfOk, OnOk, Some, drop, length, map, remove, slice_get, take};
ghost use Rattle.std.specs.List.{AllByRecursion};
ghost use Rattle.mc_rules_logic.specs.Back.Judges.{unfolding_back};
ghost use Rattle.mc_rules_logic.specs.Back.Unfolded.{atoms_behind, back_successors, body_behind, unfolded_back};
ghost use Rattle.mc_flow.specs.Defs.Instances.{node_of, atom_of};
ghost use Rattle.mc_state.specs.declared.graph.edge.Edge.TheVariants.{Seg};
ghost use Rattle.mc_state.specs.Known.{Test, Tells};
ghost use Rattle.mc_state.specs.Premises.{AnswersBy};
ghost use Rattle.mc_pure.specs.Pure.{IsWellFormed};
ghost use Rattle.mc_rules_logic.specs.Rule.Made.{IsMadeFor};
ghost use Rattle.mc_state.specs.Bodies.{call_edge};
ghost use Rattle.mc_state.specs.Fits.{AreNodes};
ghost use Rattle.mc_state.specs.State.{with_atoms, with_edges};
ghost use Rattle.mc_rules_logic.specs.Unfold.Unfolded.{equal_atoms, own_places};
ghost use Rattle.mc_apply_unfold.specs.Taking.{TakesRuleBack, parts};

use crate::forward::rules_of;
use crate::laws::edges_take_rules;
use crate::opening::{
    Segment, add_atoms, add_block, add_calls, args_of, assume_equal, calls_behind, emptied,
    node_of, nodes_of_names, opened,
};
use crate::positions::is_reached_back;
use mc_base::{EdgeId, NoMemory, NodeId};
use mc_flow::defs::{Call, Defs, Rule};
use mc_rules_logic::unfold::rules_stand_at_nodes;
use mc_state::LogicFault;
use mc_state::graph::Edge;
use mc_symbolic::changes::State;
use std::alloc::Global;

/// The nodes after the first one.
fn behind_first(nodes: &[NodeId]) -> &[NodeId]
    ensures { result.now ≡ drop 1 nodes.now }
{
    match nodes.split_first() {
        Some((_, others)) => others,
        None => &[],
    }
}

/// The first of some nodes, as many as there are up to a number.
fn first_of(nodes: &[NodeId], count: usize) -> &[NodeId]
    ensures { result.now ≡ take count nodes.now }
{
    if count <= nodes.len() {
        &nodes[..count]
    } else {
        nodes
    }
}

/// A segment from where one begins to the start of a rule's body and its parameters.
fn front_segment(alloc: Global, nodes: &[NodeId], seg: &Segment<'_>) -> Result<Edge, NoMemory>
    ensures { IfOk result (λ e. e ≡ Seg seg.now.at seg.now.args.now seg.now.pred (node_of nodes.now 0)
        (take (length seg.now.args.now) (drop 1 nodes.now))) }
{
    let args = args_of(alloc, seg.args)?;
    let params = first_of(behind_first(nodes), seg.args.len());
    let end_args = args_of(alloc, params)?;
    Ok(Edge::Seg {
        at: seg.at,
        args,
        pred: seg.pred,
        end: node_of(nodes, 0),
        end_args,
    })
}

/// Adds such a segment. Without memory the state is lost.
fn add_front(
    alloc: Global,
    s: &mut State,
    nodes: &[NodeId],
    seg: &Segment<'_>,
) -> Result<(), NoMemory>
    requires nodes { AreNodes s.old.kinds nodes.now }
    requires start { AreNodes s.old.kinds (seg.now.at ∷ seg.now.args.now) }
    ensures { OnOk result (s.new ≡ with_edges s.old (Seg seg.now.at seg.now.args.now seg.now.pred
        (node_of nodes.now 0) (take (length seg.now.args.now) (drop 1 nodes.now)) ∷ [])) }
{
    rules_stand_at_nodes();
    let edge = front_segment(alloc, nodes, seg)?;
    s.add_edge(edge)?;
    Ok(())
}

/// Adds calls as edges but for the one at a place. Without memory the state is lost.
fn add_calls_without(
    alloc: Global,
    s: &mut State,
    nodes: &[NodeId],
    calls: &[Call],
    place: usize,
) -> Result<(), NoMemory>
    requires nodes { AreNodes s.old.kinds nodes.now }
    requires inside { place < length calls.now }
    ensures { OnOk result (s.new ≡ with_edges s.old (map (call_edge nodes.now) (remove calls.now place))) }
{
    add_calls(alloc, s, nodes, &calls[..place])?;
    add_calls(alloc, s, nodes, calls_behind(calls, place))?;
    Ok(())
}

/// Adds a segment to the start of a rule's body and its parameters, and that body without the call at a place. Without
/// memory the state is lost.
fn add_body_behind(
    alloc: Global,
    s: &mut State,
    nodes: &[NodeId],
    seg: &Segment<'_>,
    rule: &Rule,
    place: usize,
) -> Result<(), NoMemory>
    requires nodes { AreNodes s.old.kinds nodes.now }
    requires start { AreNodes s.old.kinds (seg.now.at ∷ seg.now.args.now) }
    requires inside { place < length rule.now.calls }
    ensures { OnOk result (s.new ≡ with_edges s.old (body_behind seg.now.at seg.now.args.now seg.now.pred nodes.now
        rule.now place)) }
{
    add_front(alloc, s, nodes, seg)?;
    add_block(alloc, s, nodes, rule)?;
    add_calls_without(alloc, s, nodes, rule.calls.as_slice(), place)?;
    Ok(())
}

/// Writes that a call is the end of a segment. Without memory the state is lost.
fn assume_call_is_end(
    alloc: Global,
    s: &mut State,
    nodes: &[NodeId],
    seg: &Segment<'_>,
    call: &Call,
) -> Result<(), NoMemory>
    requires { AllByRecursion (IsWellFormed s.old.kinds) (equal_atoms (node_of nodes.now call.now.at ∷ map
        (node_of nodes.now) call.now.args) (seg.now.stop ∷ seg.now.ends.now)) }
    ensures { OnOk result (s.new ≡ with_atoms s.old (equal_atoms (node_of nodes.now call.now.at ∷ map
        (node_of nodes.now) call.now.args) (seg.now.stop ∷ seg.now.ends.now))) }
{
    let args = nodes_of_names(alloc, nodes, call.args.as_slice())?;
    let start = node_of(nodes, call.at);
    assume_equal(alloc, s, start, args.as_slice(), seg.stop, seg.ends)
}

/// Adds what a segment that ends with the body of a rule becomes: a segment to that body, the body without its call at a
/// place, and atoms. Without memory the state is lost.
fn add_behind(
    alloc: Global,
    s: &mut State,
    nodes: &[NodeId],
    seg: &Segment<'_>,
    rule: &Rule,
    place: usize,
    call: &Call,
) -> Result<(), NoMemory>
    requires nodes { AreNodes s.old.kinds nodes.now }
    requires start { AreNodes s.old.kinds (seg.now.at ∷ seg.now.args.now) }
    requires atoms { AllByRecursion (IsWellFormed s.old.kinds) (map (atom_of nodes.now) rule.now.atoms) }
    requires ends { AllByRecursion (IsWellFormed s.old.kinds) (equal_atoms
        (node_of nodes.now call.now.at ∷ map (node_of nodes.now) call.now.args) (seg.now.stop ∷ seg.now.ends.now)) }
    requires call { slice_get rule.now.calls place ≡ Some call.now }
    requires inside { place < length rule.now.calls }
    ensures { OnOk result (s.new ≡ with_atoms (with_edges s.old (body_behind seg.now.at seg.now.args.now
        seg.now.pred nodes.now rule.now place)) (atoms_behind nodes.now seg.now.stop seg.now.ends.now rule.now
        place)) }
{
    add_body_behind(alloc, s, nodes, seg, rule, place)?;
    add_atoms(alloc, s, nodes, rule)?;
    assume_call_is_end(alloc, s, nodes, seg, call)?;
    Ok(())
}

/// The state with a segment and the body of a rule in the place of a Seg, where the call at a place is the Seg's end.
fn unfolded_back(
    alloc: Global,
    s: &State,
    edge: EdgeId,
    seg: &Segment<'_>,
    rule: &Rule,
    place: usize,
    call: &Call,
) -> Result<State, NoMemory>
    requires rule { TakesRuleBack s.now (parts seg.now.at seg.now.args.now seg.now.pred seg.now.stop
        seg.now.ends.now) rule.now }
    requires call { slice_get rule.now.calls place ≡ Some call.now }
    requires inside { place < length rule.now.calls }
    requires own { call.now.pred.0 ≡ seg.now.pred.0 }
    ensures { IfOk result (λ t. t ≡ unfolded_back s.now edge seg.now.at seg.now.args.now seg.now.pred seg.now.stop
        seg.now.ends.now rule.now place) }
{
    let mut nodes = Vec::new(alloc);
    let mut next = opened(alloc, s, edge, rule.names.as_slice(), &mut nodes)?;
    add_behind(alloc, &mut next, nodes.as_slice(), seg, rule, place, call)?;
    Ok(next)
}

/// What a rule makes of a Seg for its call at a place, if it is one of the predicate, put after other states.
fn put_call(
    alloc: Global,
    s: &State,
    edge: EdgeId,
    seg: &Segment<'_>,
    rule: &Rule,
    place: usize,
    call: &Call,
    next: &mut Vec<State>,
) -> Result<(), NoMemory>
    requires rule { TakesRuleBack s.now (parts seg.now.at seg.now.args.now seg.now.pred seg.now.stop
        seg.now.ends.now) rule.now }
    requires call { slice_get rule.now.calls place ≡ Some call.now }
    requires inside { place < length rule.now.calls }
    ensures { OnOk result (next.new.items ≡ next.old.items ++ map (unfolded_back s.now edge seg.now.at
        seg.now.args.now seg.now.pred seg.now.stop seg.now.ends.now rule.now)
        (own_places seg.now.pred place (call.now ∷ []))) }
{
    if call.pred.0 == seg.pred.0 {
        let state = unfolded_back(alloc, s, edge, seg, rule, place, call)?;
        next.push(state)?;
        Ok(())
    } else {
        Ok(())
    }
}

/// What a rule makes of a Seg for each of its calls, which are given, of the predicate, put after other states.
fn put_calls(
    alloc: Global,
    s: &State,
    edge: EdgeId,
    seg: &Segment<'_>,
    rule: &Rule,
    calls: &[Call],
    next: &mut Vec<State>,
) -> Result<(), NoMemory>
    requires rule { TakesRuleBack s.now (parts seg.now.at seg.now.args.now seg.now.pred seg.now.stop
        seg.now.ends.now) rule.now }
    requires calls { rule.now.calls ≡ calls.now }
    ensures { OnOk result (next.new.items ≡ next.old.items ++ map (unfolded_back s.now edge seg.now.at
        seg.now.args.now seg.now.pred seg.now.stop seg.now.ends.now rule.now) (own_places seg.now.pred 0 calls.now)) }
{
    for (place, call) in calls.iter().enumerate() {
        put_call(alloc, s, edge, seg, rule, place, call, next)?;
    }
    Ok(())
}

/// What a rule makes of a Seg for each of its calls of the predicate, put after other states.
fn put_each_call(
    alloc: Global,
    s: &State,
    edge: EdgeId,
    seg: &Segment<'_>,
    rule: &Rule,
    next: &mut Vec<State>,
) -> Result<(), NoMemory>
    requires { TakesRuleBack s.now (parts seg.now.at seg.now.args.now seg.now.pred seg.now.stop seg.now.ends.now)
        rule.now }
    ensures { OnOk result (next.new.items ≡ next.old.items ++ map (unfolded_back s.now edge seg.now.at
        seg.now.args.now seg.now.pred seg.now.stop seg.now.ends.now rule.now)
        (own_places seg.now.pred 0 rule.now.calls)) }
{
    put_calls(alloc, s, edge, seg, rule, rule.calls.as_slice(), next)
}

/// What a Seg becomes: nothing, or what each rule makes of it for each of its calls of the predicate.
fn by_each_call(
    alloc: Global,
    s: &State,
    edge: EdgeId,
    seg: &Segment<'_>,
    rules: &[Rule],
) -> Result<Vec<State>, NoMemory>
    requires rules { AllByRecursion (TakesRuleBack s.now (parts seg.now.at seg.now.args.now seg.now.pred
        seg.now.stop seg.now.ends.now)) rules.now }
    requires equal { AllByRecursion (IsWellFormed s.now.kinds) (equal_atoms (seg.now.at ∷ seg.now.args.now)
        (seg.now.stop ∷ seg.now.ends.now)) }
    ensures { IfOk result (λ next. next.items ≡ back_successors s.now edge seg.now.at seg.now.args.now seg.now.pred
        seg.now.stop seg.now.ends.now rules.now) }
{
    let mut next = Vec::new(alloc);
    next.push(emptied(alloc, s, edge, seg)?)?;
    for rule in rules {
        put_each_call(alloc, s, edge, seg, rule, &mut next)?;
    }
    Ok(next)
}

/// L15: the state in which a Seg is empty, and those in which it ends with the body of a rule, for each of the rule's
/// calls of the predicate, which is the Seg's end.
pub fn unfold_back(
    alloc: Global,
    s: &State,
    defs: &Defs,
    access: Option<NodeId>,
    edge: EdgeId,
) -> Result<Vec<State>, LogicFault>
    requires { IsMadeFor defs.now s.now }
    ensures { (know : Test) → Tells know s.now → AnswersBy (λ v. v.items)
        (unfolding_back know defs.now access edge s.now) result }
{
    edges_take_rules();
    if s.is_false() {
        return Err(LogicFault::Premise(2));
    }
    let Some(
        Edge::Seg {
            at,
            args,
            pred,
            end,
            end_args,
        },
    ) = s.edge(edge)
    else {
        return Err(LogicFault::Premise(3));
    };
    let seg = Segment {
        at: *at,
        args: args.as_slice(),
        pred: *pred,
        stop: *end,
        ends: end_args.as_slice(),
    };
    if !is_reached_back(s, defs.as_slice(), access, &seg) {
        return Err(LogicFault::Premise(4));
    }
    let rules = rules_of(defs.as_slice(), *pred);
    match by_each_call(alloc, s, edge, &seg, rules) {
        Ok(next) => Ok(next),
        Err(_) => Err(LogicFault::NoMemory),
    }
}
