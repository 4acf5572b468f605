// A segment that takes no memory.
ghost use Rattle.std.specs.Prelude.{◌≡◌, ◌∷◌, ◌++◌, ◌&&◌, [], IfOk, OnOk, IsTrue};
ghost use Rattle.mc_apply_fold.specs.Change.Named.{AreKindsThere};
ghost use Rattle.mc_rules_logic.specs.Fold.Judges.{making_seg};
ghost use Rattle.mc_state.specs.declared.graph.edge.Edge.TheVariants.{Seg};
ghost use Rattle.mc_state.specs.Graph.Edges.{nodes_of};
ghost use Rattle.mc_state.specs.Known.{Test, Tells, has_kind};
ghost use Rattle.mc_state.specs.Lists.{all_both};
ghost use Rattle.mc_state.specs.Premises.{AnswersBy, Changes};
ghost use Rattle.mc_base.specs.declared.plain.Kind.TheVariants.{Ptr};
ghost use Rattle.mc_state.specs.Fits.{AreNodes};
ghost use Rattle.mc_state.specs.State.{with_edges};

use crate::change::segments::seg;
use crate::change::single::single;
use mc_base::{Args, Kind, NoMemory, NodeId, PredId};
use mc_flow::defs::Defs;
use mc_rules_logic::fold::{segments_are_closed, segments_are_judged};
use mc_rules_logic::rule::LogicRule;
use mc_state::graph::Edge;
use mc_state::{LogicFault, tests_tell};
use mc_symbolic::State;
use std::alloc::Global;

/// L7: a Seg of a predicate from a node and arguments to an equal node and equal arguments.
#[derive(Drop)]
pub struct EmptySeg {
    pub pred: PredId,
    pub at: NodeId,
    pub args: Args<NodeId>,
    pub end: NodeId,
    pub end_args: Args<NodeId>,
}

/// Whether there is one node for each kind, of that kind.
#[tactic(auto, using(mc_state::proofs::ListLemmas::all_both_steps))]
fn have_kinds(s: &State, kinds: &[Kind], nodes: &[NodeId]) -> bool
    ensures { result ≡ all_both (has_kind s.now.kinds) kinds.now nodes.now }
{
    if kinds.len() != nodes.len() {
        return false;
    }
    for (i, kind) in kinds.iter().enumerate() {
        if !s.has_kind(*kind, nodes[i]) {
            return false;
        }
    }
    true
}

/// Nodes that are known to have kinds are there.
fn kinds_are_there()
    ensures { AreKindsThere }
{
    tests_tell();
}

/// Whether a node is a pointer and others are of the kinds of parameters.
fn fit(s: &State, params: &[Kind], at: NodeId, args: &[NodeId]) -> bool
    ensures { result ≡ (has_kind s.now.kinds Ptr at && all_both (has_kind s.now.kinds) params.now args.now) }
{
    s.has_kind(Kind::Ptr, at) && have_kinds(s, params, args)
}

/// The same, of nodes that are there then.
fn fit_there(s: &State, params: &[Kind], at: NodeId, args: &[NodeId]) -> bool
    ensures told { result ≡ (has_kind s.now.kinds Ptr at && all_both (has_kind s.now.kinds) params.now args.now) }
    ensures there { IsTrue result → AreNodes s.now.kinds (at ∷ args.now) }
{
    // This says what the proof needs.
    kinds_are_there();
    fit(s, params, at, args)
}

/// The premises of L7, and the Seg.
fn made(alloc: Global, s: &State, defs: &Defs, rule: &EmptySeg) -> Result<Edge, LogicFault>
    ensures told { (know : Test) → Tells know s.now → AnswersBy (λ e. with_edges s.now (e ∷ []) ∷ [])
        (making_seg know defs.now rule.now.pred rule.now.at rule.now.args rule.now.end rule.now.end_args s.now) result }
    ensures nodes { IfOk result (λ e. AreNodes s.now.kinds (nodes_of e)) }
{
    if s.is_false() {
        return Err(LogicFault::Premise(2));
    }
    let Some(def) = defs.as_slice().get(rule.pred.0 as usize) else {
        return Err(LogicFault::Premise(3));
    };
    if !fit_there(s, def.params.as_slice(), rule.at, rule.args.as_slice()) {
        return Err(LogicFault::Premise(3));
    }
    if !fit_there(s, def.params.as_slice(), rule.end, rule.end_args.as_slice()) {
        return Err(LogicFault::Premise(3));
    }
    if !s.are_equal(rule.at, rule.end) {
        return Err(LogicFault::Premise(4));
    }
    if !s.are_all_equal(rule.args.as_slice(), rule.end_args.as_slice()) {
        return Err(LogicFault::Premise(5));
    }
    match seg(
        alloc,
        &rule.at,
        rule.args.as_slice(),
        &rule.pred,
        &rule.end,
        rule.end_args.as_slice(),
    ) {
        Ok(edge) => Ok(edge),
        Err(_) => Err(LogicFault::NoMemory),
    }
}

/// L7: adds a Seg that takes no memory. Where a premise is unmet, or without memory, nothing changes.
pub fn make_seg(
    alloc: Global,
    s: &mut State,
    defs: &Defs,
    rule: &EmptySeg,
) -> Result<(), LogicFault>
    ensures { (know : Test) → Tells know s.old → Changes
        (making_seg know defs.now rule.now.pred rule.now.at rule.now.args rule.now.end rule.now.end_args s.old)
        (s.old ∷ []) (s.new ∷ []) result }
{
    let edge = made(alloc, s, defs, rule)?;
    match s.add_edge(edge) {
        Ok(_) => Ok(()),
        Err(_) => Err(LogicFault::NoMemory),
    }
}

/// A copy of the state with an edge more.
fn with_edge(alloc: Global, s: &State, edge: Edge) -> Result<Vec<State>, NoMemory>
    requires { AreNodes s.now.kinds (nodes_of edge) }
    ensures { IfOk result (λ next. next.items ≡ with_edges s.now (edge ∷ []) ∷ []) }
{
    let mut next = s.copy(alloc)?;
    next.add_edge(edge)?;
    single(alloc, next)
}

impl LogicRule for EmptySeg {
    ghost judged = { λ rule know left defs access s.
        making_seg know defs rule.pred rule.at rule.args rule.end rule.end_args s };

    fn successors(
        &self,
        alloc: Global,
        state: &State,
        defs: &Defs,
        access: Option<NodeId>,
    ) -> Result<Vec<State>, LogicFault> {
        let edge = made(alloc, state, defs, self)?;
        match with_edge(alloc, state, edge) {
            Ok(next) => Ok(next),
            Err(_) => Err(LogicFault::NoMemory),
        }
    }

    fn is_sound(&self) {
        segments_are_judged();
        segments_are_closed();
    }
}
