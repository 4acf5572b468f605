// Which edge is to be unfolded.
ghost use Rattle.std.specs.Prelude.{◌≡◌};
ghost use Rattle.mc_base.specs.Nodes.{null};
ghost use Rattle.mc_state.specs.Known.{Test, Tells};
ghost use Rattle.mc_kernel.specs.Progress.Asked.{at_end, at_node, at_start, ends_at, false_or_null, from_start, is_summary, starts_at};

use mc_apply_unfold::{Segment, is_reached_back};
use mc_base::{EdgeId, NULL, NodeId};
use mc_flow::defs::Defs;
use mc_lines::cert::Line;
use mc_state::graph::Edge;
use mc_symbolic::State;

/// The line that unfolds an edge from its start; None for a block.
fn from_start(edge: &(EdgeId, Edge)) -> Option<Line>
    ensures { result ≡ from_start edge.now }
{
    match &edge.1 {
        Edge::Block { .. } => None,
        Edge::Ind { .. } => Some(Line::L1(edge.0)),
        Edge::Seg { .. } => Some(Line::L2(edge.0)),
    }
}

/// Whether an edge is no block.
fn is_summary(edge: &Edge) -> bool
    ensures { result ≡ is_summary edge.now }
{
    match edge {
        Edge::Block { .. } => false,
        Edge::Ind { .. } => true,
        Edge::Seg { .. } => true,
    }
}

/// Whether an edge is no block, and starts at a node that is equal.
fn starts_at(state: &State, node: NodeId, edge: &(EdgeId, Edge)) -> bool
    ensures { (know : Test) → Tells know state.now → result ≡ starts_at know node edge.now }
{
    is_summary(&edge.1) && state.are_equal(edge.1.start(), node)
}

/// The line that unfolds the least edge, but for blocks, that starts at a node which is equal.
pub fn at_start(state: &State, node: NodeId) -> Option<Line>
    ensures { (know : Test) → Tells know state.now → result ≡ at_start know node state.now.graph.edges }
{
    for edge in state.edges() {
        if starts_at(state, node, edge) {
            return from_start(edge);
        }
    }
    None
}

/// Whether a segment can be unfolded from its end where the node is accessed.
fn ends_at(state: &State, defs: &Defs, node: NodeId, edge: &(EdgeId, Edge)) -> bool
    ensures { (know : Test) → Tells know state.now → result ≡ ends_at know defs.now node edge.now }
{
    match &edge.1 {
        Edge::Block { .. } => false,
        Edge::Ind { .. } => false,
        Edge::Seg {
            at,
            args,
            pred,
            end,
            end_args,
        } => {
            let segment = Segment {
                at: *at,
                args: args.as_slice(),
                pred: *pred,
                stop: *end,
                ends: end_args.as_slice(),
            };
            is_reached_back(state, defs.as_slice(), Some(node), &segment)
        }
    }
}

/// The line that unfolds the least segment of which an end argument at a back position is equal to the node.
pub fn at_end(state: &State, defs: &Defs, node: NodeId) -> Option<Line>
    ensures { (know : Test) → Tells know state.now → result ≡ at_end know defs.now node state.now.graph.edges }
{
    for edge in state.edges() {
        if ends_at(state, defs, node, edge) {
            return Some(Line::L15(edge.0));
        }
    }
    None
}

/// The line that unfolds the least edge, but for blocks, that starts at null.
pub fn at_null(state: &State) -> Option<Line>
    ensures { (know : Test) → Tells know state.now → result ≡ at_start know null state.now.graph.edges }
{
    at_start(state, NULL)
}

/// The line that ends a branch whose state is false; else the one that unfolds an edge at null.
pub fn false_or_null(state: &State) -> Option<Line>
    ensures { (know : Test) → Tells know state.now → result ≡ false_or_null know state.now.graph.edges }
{
    if state.is_false() {
        return Some(Line::L12);
    }
    at_null(state)
}

/// The line that unfolds an edge at a node that is accessed: from its start, and where there is none from its end.
pub fn at_node(state: &State, defs: &Defs, node: NodeId) -> Option<Line>
    ensures { (know : Test) → Tells know state.now → result ≡ at_node know defs.now state.now.graph.edges node }
{
    match at_start(state, node) {
        Some(line) => Some(line),
        None => at_end(state, defs, node),
    }
}
