// Edges that do the same in any cover: of several that are not used, the search tries the first alone.
ghost use Rattle.std.specs.Prelude.{◌≡◌, IsTrue};
ghost use Rattle.mc_cover.specs.Alike.{start_alike, same_node, are_alike, AreAlike, MarksAlike};
ghost use Rattle.mc_cover.specs.Search.Setting.{free_edges};
ghost use Rattle.mc_state.specs.Known.{Test, Tells};
ghost use Rattle.mc_state.specs.Lists.{all_both};

use crate::Mark;
use crate::search::edges::free_edge;
use mc_base::{EdgeId, NodeId, PredId};
use mc_state::graph::Edge;
use mc_symbolic::State;

// Where a summary starts: of which predicate it is, at which node, with which arguments.
#[derive(Drop)]
struct Start<'a> {
    pred: PredId,
    at: NodeId,
    args: &'a [NodeId],
}

fn start_alike(state: &State, left: &Start, right: &Start) -> bool
    ensures { (know : Test) → Tells know state.now → result ≡ start_alike know left.now.pred left.now.at left.now.args.now
        right.now.pred right.now.at right.now.args.now }
{
    left.pred.0 == right.pred.0
        && state.are_equal(left.at, right.at)
        && state.are_all_equal(left.args, right.args)
}

fn same_node(left: NodeId, right: NodeId) -> bool
    ensures { result ≡ same_node left right }
{
    left.0 == right.0
}

// Whether the nodes of two lists are the same.
#[tactic(auto, using(mc_state::proofs::ListLemmas::all_both_steps))]
fn same_nodes(left: &[NodeId], right: &[NodeId]) -> bool
    ensures { result ≡ all_both same_node left.now right.now }
{
    if left.len() != right.len() {
        return false;
    }
    for (i, node) in left.iter().enumerate() {
        if !same_node(*node, right[i]) {
            return false;
        }
    }
    true
}

// Whether the edges are alike.
fn are_alike(state: &State, left: &Edge, right: &Edge) -> bool
    ensures { (know : Test) → Tells know state.now → result ≡ are_alike know left.now right.now }
{
    match (left, right) {
        (
            Edge::Ind { at, pred, args },
            Edge::Ind {
                at: other_at,
                pred: other_pred,
                args: other_args,
            },
        ) => {
            let one = Start {
                pred: *pred,
                at: *at,
                args: args.as_slice(),
            };
            let other = Start {
                pred: *other_pred,
                at: *other_at,
                args: other_args.as_slice(),
            };
            start_alike(state, &one, &other)
        }
        (
            Edge::Seg {
                at,
                args,
                pred,
                end,
                end_args,
            },
            Edge::Seg {
                at: other_at,
                args: other_args,
                pred: other_pred,
                end: other_end,
                end_args: other_end_args,
            },
        ) => {
            let one = Start {
                pred: *pred,
                at: *at,
                args: args.as_slice(),
            };
            let other = Start {
                pred: *other_pred,
                at: *other_at,
                args: other_args.as_slice(),
            };
            start_alike(state, &one, &other)
                && same_node(*end, *other_end)
                && same_nodes(end_args.as_slice(), other_end_args.as_slice())
        }
        (Edge::Block { .. }, _) => false,
        (Edge::Ind { .. }, Edge::Block { .. }) => false,
        (Edge::Ind { .. }, Edge::Seg { .. }) => false,
        (Edge::Seg { .. }, Edge::Block { .. }) => false,
        (Edge::Seg { .. }, Edge::Ind { .. }) => false,
    }
}

// Whether two edges that may be taken are alike.
fn ids_alike(state: &State, used: &[EdgeId], one: EdgeId, other: EdgeId) -> bool
    ensures { IsTrue result → (know : Test) → Tells know state.now → AreAlike know (free_edges state.now used.now) one other }
{
    let Some(left) = free_edge(state, used, one) else {
        return false;
    };
    let Some(right) = free_edge(state, used, other) else {
        return false;
    };
    are_alike(state, left, right)
}

/// Whether two marks take edges in one way that are alike: then the one stands for the other.
pub fn marks_alike(state: &State, used: &[EdgeId], one: Mark, other: Mark) -> bool
    ensures { IsTrue result → (know : Test) → Tells know state.now → MarksAlike know (free_edges state.now used.now) one other }
{
    match (one, other) {
        (Mark::ByInd(a), Mark::ByInd(b)) => ids_alike(state, used, a, b),
        (Mark::BySeg(a), Mark::BySeg(b)) => ids_alike(state, used, a, b),
        _ => false,
    }
}
