// A rule's block and calls, which become one edge.
ghost use Rattle.std.specs.Prelude.{◌≡◌, ◌<◌, ◌∷◌, [], IfOk, IsSome, MatchResult, OnOk, Some, drop, length, map, remove, slice_get, take};
ghost use Rattle.std.specs.Option.{option_copied};
ghost use Rattle.mc_flow.specs.Defs.Instances.{node_of};
ghost use Rattle.mc_rules_logic.specs.Fold.Folded.{as_ind};
ghost use Rattle.mc_rules_logic.specs.Fold.Judges.{folding_ind, folding_seg, matching, nothing, own_call, with_fold};
ghost use Rattle.mc_state.specs.Graph.Edges.{nodes_of};
ghost use Rattle.mc_state.specs.declared.graph.edge.Edge.TheVariants.{Ind, Seg};
ghost use Rattle.mc_state.specs.Known.{Test, Tells};
ghost use Rattle.mc_state.specs.Named.{named_ids, others};
ghost use Rattle.mc_state.specs.Premises.{AnswersBy};
ghost use Rattle.mc_pure.specs.Pure.{Kinds};
ghost use Rattle.mc_state.specs.Fits.{AreNodes};
ghost use Rattle.mc_state.specs.State.{with_only_edges};

use crate::fold::calls::{are_calls, are_other_calls};
use crate::fold::contents::body_fits;
use crate::fold::fitting::{fits_rule, fits_without};
use crate::fold::laws::names_are_there;
use crate::fold::named::are_named;
use crate::fold::names::{knows_rule, node_of};
use mc_base::{Args, EdgeId, NoMemory, NodeId, PredId};
use mc_flow::defs::{Call, Def, Defs};
use mc_state::graph::Edge;
use mc_state::{FoldInd, FoldSeg, LogicFault};
use mc_symbolic::State;
use mc_symbolic::changes::take_edges;
use std::alloc::Global;

/// The nodes of the parameters.
fn arguments(alloc: Global, names: &[NodeId], count: usize) -> Result<Args<NodeId>, NoMemory>
    requires { count < length names.now }
    ensures { IfOk result (λ args. args ≡ take count (drop 1 names.now)) }
{
    let mut args = Args::new(alloc);
    for node in &names[1..1 + count] {
        args.push(*node)?;
    }
    Ok(args)
}

/// The nodes of names.
fn nodes_of_names(alloc: Global, nodes: &[NodeId], names: &[u64]) -> Result<Args<NodeId>, NoMemory>
    ensures { IfOk result (λ args. args ≡ map (node_of nodes.now) names.now) }
{
    let mut args = Args::new(alloc);
    for name in names {
        args.push(node_of(nodes, *name))?;
    }
    Ok(args)
}

/// The Ind at the rule's start and parameters.
fn ind(alloc: Global, names: &[NodeId], count: usize, pred: PredId) -> Result<Edge, NoMemory>
    requires { count < length names.now }
    ensures edge { IfOk result (λ e. e ≡ Ind (node_of names.now 0) pred (take count (drop 1 names.now))) }
    ensures there { (kinds : Kinds) → AreNodes kinds names.now → IfOk result (λ e. AreNodes kinds (nodes_of e)) }
{
    // Its nodes are there: this is for the proof alone.
    names_are_there();
    let args = arguments(alloc, names, count)?;
    Ok(Edge::Ind {
        at: node_of(names, 0),
        pred,
        args,
    })
}

/// The Seg from the rule's start and parameters to a call.
fn seg(
    alloc: Global,
    names: &[NodeId],
    count: usize,
    pred: PredId,
    call: &Call,
) -> Result<Edge, NoMemory>
    requires { count < length names.now }
    ensures edge { IfOk result (λ e. e ≡ Seg (node_of names.now 0) (take count (drop 1 names.now)) pred
        (node_of names.now call.now.at) (map (node_of names.now) call.now.args)) }
    ensures there { (kinds : Kinds) → AreNodes kinds names.now → IfOk result (λ e. AreNodes kinds (nodes_of e)) }
{
    // Its nodes are there: this is for the proof alone.
    names_are_there();
    let args = arguments(alloc, names, count)?;
    let end_args = nodes_of_names(alloc, names, call.args.as_slice())?;
    Ok(Edge::Seg {
        at: node_of(names, 0),
        args,
        pred,
        end: node_of(names, call.at),
        end_args,
    })
}

/// The premises of L3: the predicate's definition, or the number of the first premise that is unmet.
fn match_ind<'a>(s: &State, defs: &'a Defs, fold: &FoldInd) -> Result<&'a Def, u8>
    ensures told { (know : Test) → Tells know s.now
        → let judged = matching know defs.now fold.now nothing (λ by. by.calls) s.now in
        MatchResult result (λ def. judged ≡ Ok (def.now, tt)) (λ k. judged ≡ Err k) }
    ensures there { IfOk result (λ def. AreNodes s.now.kinds fold.now.names) }
    ensures more { IfOk result (λ def. length def.now.params < length fold.now.names) }
{
    let names = fold.names.as_slice();
    let ids = fold.edges.as_slice();
    if s.is_false() {
        return Err(2);
    }
    if !are_named(s, fold.block, ids) {
        return Err(3);
    }
    let Some(def) = defs.as_slice().get(fold.pred.0 as usize) else {
        return Err(4);
    };
    let Some(by) = def.rules.as_slice().get(fold.rule as usize) else {
        return Err(4);
    };
    if !fits_rule(s, def, by, names, fold.block, ids) {
        return Err(4);
    }
    if !body_fits(s, names, by, fold.block) {
        return Err(5);
    }
    if !are_calls(s, names, by.calls.as_slice(), ids) {
        return Err(6);
    }
    if !knows_rule(s, names, by) {
        return Err(7);
    }
    Ok(def)
}

/// The premises of L3, and the Ind.
fn folded_ind(alloc: Global, s: &State, defs: &Defs, fold: &FoldInd) -> Result<Edge, LogicFault>
    ensures told { (know : Test) → Tells know s.now → AnswersBy
        (λ e. with_fold s.now (named_ids fold.now.block fold.now.edges) e ∷ [])
        (folding_ind know defs.now fold.now s.now) result }
    ensures there { IfOk result (λ e. AreNodes s.now.kinds (nodes_of e)) }
{
    match match_ind(s, defs, fold) {
        Err(k) => Err(LogicFault::Premise(k)),
        Ok(def) => match ind(alloc, fold.names.as_slice(), def.params.len(), fold.pred) {
            Ok(edge) => Ok(edge),
            Err(_) => Err(LogicFault::NoMemory),
        },
    }
}

/// The call at a place, if it is of the predicate.
fn own_call(calls: &[Call], place: u64, pred: PredId) -> Option<&Call>
    ensures told { option_copied result ≡ own_call pred (slice_get calls.now place) }
    ensures inside { IsSome result → place < length calls.now }
{
    let call = calls.get(place as usize)?;
    if call.pred.0 == pred.0 {
        Some(call)
    } else {
        None
    }
}

/// The premises of L4: the predicate's definition and the call that is left out, or the number of the first premise
/// that is unmet.
fn match_seg<'a>(s: &State, defs: &'a Defs, fold: &FoldSeg) -> Result<(&'a Def, &'a Call), u8>
    ensures told { (know : Test) → Tells know s.now → let judged = matching know defs.now (as_ind fold.now)
        (λ by. own_call fold.now.pred (slice_get by.calls fold.now.call)) (λ by. remove by.calls fold.now.call) s.now in
        MatchResult result (λ m. judged ≡ Ok (m.0.now, m.1.now)) (λ k. judged ≡ Err k) }
    ensures there { IfOk result (λ m. AreNodes s.now.kinds fold.now.names) }
    ensures more { IfOk result (λ m. length m.0.now.params < length fold.now.names) }
{
    let some = Some(fold.block);
    let names = fold.names.as_slice();
    let ids = fold.edges.as_slice();
    let place = fold.call as usize;
    if s.is_false() {
        return Err(2);
    }
    if !are_named(s, some, ids) {
        return Err(3);
    }
    let Some(def) = defs.as_slice().get(fold.pred.0 as usize) else {
        return Err(4);
    };
    let Some(by) = def.rules.as_slice().get(fold.rule as usize) else {
        return Err(4);
    };
    let Some(call) = own_call(by.calls.as_slice(), fold.call, fold.pred) else {
        return Err(4);
    };
    if !fits_without(s, def, by, place, names, some, ids) {
        return Err(4);
    }
    if !body_fits(s, names, by, some) {
        return Err(5);
    }
    if !are_other_calls(s, names, by.calls.as_slice(), place, ids) {
        return Err(6);
    }
    if !knows_rule(s, names, by) {
        return Err(7);
    }
    Ok((def, call))
}

/// The premises of L4, and the Seg.
fn folded_seg(alloc: Global, s: &State, defs: &Defs, fold: &FoldSeg) -> Result<Edge, LogicFault>
    ensures told { (know : Test) → Tells know s.now → AnswersBy
        (λ e. with_fold s.now (named_ids (Some fold.now.block) fold.now.edges) e ∷ [])
        (folding_seg know defs.now fold.now s.now) result }
    ensures there { IfOk result (λ e. AreNodes s.now.kinds (nodes_of e)) }
{
    match match_seg(s, defs, fold) {
        Err(k) => Err(LogicFault::Premise(k)),
        Ok((def, call)) => {
            match seg(
                alloc,
                fold.names.as_slice(),
                def.params.len(),
                fold.pred,
                call,
            ) {
                Ok(edge) => Ok(edge),
                Err(_) => Err(LogicFault::NoMemory),
            }
        }
    }
}

/// Takes the named edges out. Without memory the state is lost.
fn take_named(s: &mut State, block: Option<EdgeId>, ids: &[EdgeId]) -> Result<(), NoMemory>
    ensures { OnOk result (s.new ≡ with_only_edges s.old (others s.old.graph.edges (named_ids block ids.now))) }
{
    match block {
        Some(id) => {
            s.take_edge(id)?;
            take_edges(s, ids)
        }
        None => take_edges(s, ids),
    }
}

/// A copy of the state with an edge in place of those that are named.
fn with_folded(
    alloc: Global,
    s: &State,
    block: Option<EdgeId>,
    ids: &[EdgeId],
    edge: Edge,
) -> Result<Vec<State>, NoMemory>
    requires { AreNodes s.now.kinds (nodes_of edge) }
    ensures { IfOk result (λ next. next.items ≡ with_fold s.now (named_ids block ids.now) edge ∷ []) }
{
    let mut state = s.copy(alloc)?;
    take_named(&mut state, block, ids)?;
    state.add_edge(edge)?;
    let mut next = Vec::new(alloc);
    next.push(state)?;
    Ok(next)
}

/// L3: the state with an Ind in place of a rule's block and calls.
pub fn fold_ind(
    alloc: Global,
    s: &State,
    defs: &Defs,
    fold: &FoldInd,
) -> Result<Vec<State>, LogicFault>
    ensures { (know : Test) → Tells know s.now → AnswersBy (λ v. v.items)
        (folding_ind know defs.now fold.now s.now) result }
{
    let edge = folded_ind(alloc, s, defs, fold)?;
    match with_folded(alloc, s, fold.block, fold.edges.as_slice(), edge) {
        Ok(next) => Ok(next),
        Err(_) => Err(LogicFault::NoMemory),
    }
}

/// L4: the state with a Seg in place of a rule's block and calls without one of the predicate, whose place is given:
/// it is where the Seg ends.
pub fn fold_seg(
    alloc: Global,
    s: &State,
    defs: &Defs,
    fold: &FoldSeg,
) -> Result<Vec<State>, LogicFault>
    ensures { (know : Test) → Tells know s.now → AnswersBy (λ v. v.items)
        (folding_seg know defs.now fold.now s.now) result }
{
    let edge = folded_seg(alloc, s, defs, fold)?;
    match with_folded(alloc, s, Some(fold.block), fold.edges.as_slice(), edge) {
        Ok(next) => Ok(next),
        Err(_) => Err(LogicFault::NoMemory),
    }
}
