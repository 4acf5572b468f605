// Whether a fold hides a node that is still needed.
use crate::Survey;
use mc_base::{EdgeId, NodeId};
use mc_find_view::sight::{Nodes, edge_names};
use mc_state::Term;

/// What a fold takes and what comes out: the start, the nodes that the new edge names, and those of them that stand at back
/// positions of its end, from which they are found again.
#[derive(Clone, Copy)]
pub struct Fold<'a> {
    pub taken: &'a [EdgeId],
    pub start: NodeId,
    pub named: &'a [Term],
    pub back: &'a [Term],
}

/// Whether a node is equal to a term of a list.
fn is_among(nodes: &Nodes<'_>, node: NodeId, list: &[Term]) -> bool {
    for term in list {
        if term.add == 0 && nodes.state.are_equal(node, term.node) {
            return true;
        }
    }
    false
}

/// Whether a kept edge that is not taken starts at a node.
fn is_kept_at(nodes: &Nodes<'_>, survey: &Survey, fold: &Fold<'_>, node: NodeId) -> bool {
    for (place, entry) in nodes.state.edges().iter().enumerate() {
        if survey.is_kept(place)
            && !fold.taken.contains(&entry.0)
            && nodes.state.are_equal(entry.1.start(), node)
        {
            return true;
        }
    }
    false
}

/// Whether a reached edge that is not taken names a node.
fn is_named_outside(nodes: &Nodes<'_>, survey: &Survey, fold: &Fold<'_>, node: NodeId) -> bool {
    for (place, entry) in nodes.state.edges().iter().enumerate() {
        if survey.is_used(place)
            && !fold.taken.contains(&entry.0)
            && edge_names(nodes, &entry.1, node)
        {
            return true;
        }
    }
    false
}

/// Whether the start of an edge that is taken is still needed.
fn hides_start(nodes: &Nodes<'_>, survey: &Survey, fold: &Fold<'_>, start: NodeId) -> bool {
    if nodes.state.are_equal(start, fold.start) {
        return false;
    }
    if survey.live.has(nodes.state, start) || is_kept_at(nodes, survey, fold, start) {
        return true;
    }
    if is_among(nodes, start, fold.back) {
        return false;
    }
    is_named_outside(nodes, survey, fold, start)
}

/// Whether a taken edge names a node.
fn is_named_inside(nodes: &Nodes<'_>, fold: &Fold<'_>, node: NodeId) -> bool {
    for id in fold.taken {
        if let Some(edge) = nodes.state.edge(*id) {
            if nodes.names(edge, node) {
                return true;
            }
        }
    }
    false
}

/// Whether the node of a live pointer is named in what is taken, and nowhere afterwards.
fn loses(nodes: &Nodes<'_>, survey: &Survey, fold: &Fold<'_>, node: NodeId) -> bool {
    if nodes.state.are_equal(node, NodeId(0)) || nodes.state.are_equal(node, fold.start) {
        return false;
    }
    is_named_inside(nodes, fold, node)
        && !is_among(nodes, node, fold.named)
        && !is_named_outside(nodes, survey, fold, node)
}

/// Whether a fold loses the node of a live pointer.
fn loses_variable(nodes: &Nodes<'_>, survey: &Survey, fold: &Fold<'_>) -> bool {
    let live = survey.live.pointers();
    live.iter().any(|node| loses(nodes, survey, fold, *node))
}

/// Whether a fold hides a node that is still needed.
pub fn hides(nodes: &Nodes<'_>, survey: &Survey, fold: &Fold<'_>) -> bool {
    for id in fold.taken {
        if let Some(edge) = nodes.state.edge(*id) {
            if hides_start(nodes, survey, fold, edge.start()) {
                return true;
            }
        }
    }
    loses_variable(nodes, survey, fold)
}
