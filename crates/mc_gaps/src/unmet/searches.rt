// Searches among the edges of a state.
ghost use Rattle.std.specs.Prelude.{◌≡◌, slice_get};
ghost use Rattle.std.specs.List.{list_all, list_any};
ghost use Rattle.mc_base.specs.Nodes.{null};
ghost use Rattle.mc_state.specs.Graph.Edges.{start_of, fields_of};
ghost use Rattle.mc_state.specs.Known.{Test, Tells, equal};
ghost use Rattle.mc_rules_steps.specs.Judges.{is_block, is_shaped_at, is_block_at};
ghost use Rattle.mc_gaps.specs.Unmet.Gaps.{may_unfold, is_unknown, lacks_field};

use mc_apply_unfold::{Segment, is_reached_back};
use mc_base::{EdgeId, NULL, NodeId, StructId};
use mc_flow::defs::Def;
use mc_state::graph::Edge;
use mc_symbolic::State;

/// Whether an edge may be unfolded where a node is accessed.
fn may_unfold(s: &State, defs: &[Def], node: NodeId, edge: &(EdgeId, Edge)) -> bool
    ensures { (know : Test) → Tells know s.now → result ≡ may_unfold know defs.now node edge.now }
{
    match &edge.1 {
        Edge::Block { .. } => false,
        Edge::Ind { at, .. } => s.are_equal(node, *at),
        Edge::Seg {
            at,
            args,
            pred,
            end,
            end_args,
        } => {
            let seg = Segment {
                at: *at,
                args: args.as_slice(),
                pred: *pred,
                stop: *end,
                ends: end_args.as_slice(),
            };
            s.are_equal(node, *at) || is_reached_back(s, defs, Some(node), &seg)
        }
    }
}

/// Whether one of the edges may.
pub fn any_unfolds(s: &State, defs: &[Def], node: NodeId) -> bool
    ensures { (know : Test) → Tells know s.now
        → result ≡ list_any (may_unfold know defs.now node) s.now.graph.edges }
{
    for edge in s.edges() {
        if may_unfold(s, defs, node, edge) {
            return true;
        }
    }
    false
}

/// Whether an edge is a block of the struct at a node that is equal.
fn is_shaped_at(s: &State, node: NodeId, shape: StructId, edge: &(EdgeId, Edge)) -> bool
    ensures { (know : Test) → Tells know s.now → result ≡ is_shaped_at know node shape edge.now }
{
    edge.1.has_shape(shape) && s.are_equal(node, edge.1.start())
}

/// Whether one of the edges is.
pub fn any_shaped(s: &State, node: NodeId, shape: StructId) -> bool
    ensures { (know : Test) → Tells know s.now
        → result ≡ list_any (is_shaped_at know node shape) s.now.graph.edges }
{
    for edge in s.edges() {
        if is_shaped_at(s, node, shape, edge) {
            return true;
        }
    }
    false
}

/// Whether an edge is a block.
fn is_block(edge: &Edge) -> bool
    ensures { result ≡ is_block edge.now }
{
    match edge {
        Edge::Block { .. } => true,
        Edge::Ind { .. } => false,
        Edge::Seg { .. } => false,
    }
}

/// Whether an edge is a block at a node that is equal.
fn is_block_at(s: &State, node: NodeId, edge: &(EdgeId, Edge)) -> bool
    ensures { (know : Test) → Tells know s.now → result ≡ is_block_at know node edge.now }
{
    is_block(&edge.1) && s.are_equal(node, edge.1.start())
}

/// Whether one of the edges is.
pub fn any_block(s: &State, node: NodeId) -> bool
    ensures { (know : Test) → Tells know s.now → result ≡ list_any (is_block_at know node) s.now.graph.edges }
{
    for edge in s.edges() {
        if is_block_at(s, node, edge) {
            return true;
        }
    }
    false
}

/// Whether an edge has the field, which is not known.
fn is_unknown(edge: &Edge, field: u64) -> bool
    ensures { result ≡ is_unknown (slice_get (fields_of edge.now) field) }
{
    match edge.field(field) {
        None => false,
        Some(None) => true,
        Some(Some(_)) => false,
    }
}

/// Whether an edge is a block of the struct at a node that is equal, with a field that is not known.
fn lacks_field(s: &State, node: NodeId, shape: StructId, field: u64, edge: &(EdgeId, Edge)) -> bool
    ensures { (know : Test) → Tells know s.now → result ≡ lacks_field know node shape field edge.now }
{
    is_shaped_at(s, node, shape, edge) && is_unknown(&edge.1, field)
}

/// Whether one of the edges is.
pub fn any_lacks_field(s: &State, node: NodeId, shape: StructId, field: u64) -> bool
    ensures { (know : Test) → Tells know s.now
        → result ≡ list_any (lacks_field know node shape field) s.now.graph.edges }
{
    for edge in s.edges() {
        if lacks_field(s, node, shape, field, edge) {
            return true;
        }
    }
    false
}

/// Whether an edge starts at null.
fn starts_at_null(s: &State, edge: &Edge) -> bool
    ensures { (know : Test) → Tells know s.now → result ≡ equal know (start_of edge.now) null }
{
    s.are_equal(edge.start(), NULL)
}

/// Whether each of the edges does.
pub fn all_at_null(s: &State) -> bool
    ensures { (know : Test) → Tells know s.now
        → result ≡ list_all (λ e. equal know (start_of e.1) null) s.now.graph.edges }
{
    for edge in s.edges() {
        if !starts_at_null(s, &edge.1) {
            return false;
        }
    }
    true
}
