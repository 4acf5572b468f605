// The calls of a rule.
ghost use Rattle.std.specs.Prelude.{◌≡◌, ◌&&◌, ◌<◌, ◌≤◌, ◌+◌, drop, length, remove};
ghost use Rattle.mc_rules_logic.specs.Fold.Judges.{is_call, is_call_at, is_named};
ghost use Rattle.mc_state.specs.Known.{Test, Tells};
ghost use Rattle.mc_state.specs.Lists.{all_both};

use crate::fold::names::is_named;
use mc_base::{EdgeId, NodeId};
use mc_flow::defs::Call;
use mc_state::graph::Edge;
use mc_symbolic::State;

/// Whether each name's node is equal to an argument.
#[tactic(auto, using(mc_state::proofs::ListLemmas::all_both_steps))]
fn are_args(s: &State, names: &[NodeId], args: &[u64], nodes: &[NodeId]) -> bool
    ensures { (know : Test) → Tells know s.now → result ≡ all_both (is_named know names.now) args.now nodes.now }
{
    if args.len() != nodes.len() {
        return false;
    }
    for (i, name) in args.iter().enumerate() {
        if !is_named(s, names, *name, nodes[i]) {
            return false;
        }
    }
    true
}

/// Whether an edge is the call.
fn is_call(s: &State, names: &[NodeId], call: &Call, edge: &Edge) -> bool
    ensures { (know : Test) → Tells know s.now → result ≡ is_call know names.now call.now edge.now }
{
    match edge {
        Edge::Ind { at, pred, args } => {
            pred.0 == call.pred.0
                && is_named(s, names, call.at, *at)
                && are_args(s, names, call.args.as_slice(), args.as_slice())
        }
        Edge::Block { .. } => false,
        Edge::Seg { .. } => false,
    }
}

/// Whether the edge with an id is the call.
fn is_call_at(s: &State, names: &[NodeId], call: &Call, id: EdgeId) -> bool
    ensures { (know : Test) → Tells know s.now → result ≡ is_call_at know s.now.graph.edges names.now call.now id }
{
    match s.edge(id) {
        None => false,
        Some(edge) => is_call(s, names, call, edge),
    }
}

/// Whether the edges with these ids are the calls, one by one.
#[tactic(auto, using(mc_state::proofs::ListLemmas::all_both_steps))]
pub fn are_calls(s: &State, names: &[NodeId], calls: &[Call], ids: &[EdgeId]) -> bool
    ensures { (know : Test) → Tells know s.now → result ≡ all_both (is_call_at know s.now.graph.edges names.now) calls.now ids.now }
{
    if calls.len() != ids.len() {
        return false;
    }
    for (i, call) in calls.iter().enumerate() {
        if !is_call_at(s, names, call, ids[i]) {
            return false;
        }
    }
    true
}

/// The calls after a place.
fn behind(calls: &[Call], place: usize) -> &[Call]
    requires { place < length calls.now }
    ensures { result.now ≡ drop (place + 1) calls.now }
{
    &calls[place + 1..]
}

/// The ids from a place on.
fn from(ids: &[EdgeId], place: usize) -> &[EdgeId]
    requires { place ≤ length ids.now }
    ensures { result.now ≡ drop place ids.now }
{
    &ids[place..]
}

/// Whether the edges with these ids are the calls but for the one at a place, one by one.
pub fn are_other_calls(
    s: &State,
    names: &[NodeId],
    calls: &[Call],
    place: usize,
    ids: &[EdgeId],
) -> bool
    requires inside { place < length calls.now }
    ensures { (know : Test) → Tells know s.now → result
        ≡ all_both (is_call_at know s.now.graph.edges names.now) (remove calls.now place) ids.now }
{
    if ids.len() < place {
        return false;
    }
    are_calls(s, names, &calls[..place], &ids[..place])
        && are_calls(s, names, behind(calls, place), from(ids, place))
}
