// Whether variables and edges name a node.
ghost use Rattle.std.specs.Prelude.{◌≡◌, ◌↔◌, IsTrue, not};
ghost use Rattle.std.specs.List.{list_all};
ghost use Rattle.mc_state.specs.Graph.Edges.{known_nodes, nodes_of};
ghost use Rattle.mc_state.specs.Facts.{IsUnnamed};
ghost use Rattle.mc_rules_logic.specs.Fold.ChangeJudges.{is_listed, is_unnamed as has_no_name};

use mc_base::{EdgeId, NodeId};
use mc_state::graph::Edge;
use mc_symbolic::State;

/// Whether the node is one of a list.
fn is_among(node: NodeId, nodes: &[NodeId]) -> bool
    ensures { result ≡ is_listed node nodes.now }
{
    for other in nodes {
        if other.0 == node.0 {
            return true;
        }
    }
    false
}

/// Whether the node is one that is known.
fn is_known(node: NodeId, fields: &[Option<NodeId>]) -> bool
    ensures { result ≡ is_listed node (known_nodes fields.now) }
{
    for field in fields {
        if let Some(other) = *field {
            if other.0 == node.0 {
                return true;
            }
        }
    }
    false
}

/// Whether the edge names the node.
fn is_in_edge(node: NodeId, edge: &Edge) -> bool
    ensures { result ≡ is_listed node (nodes_of edge.now) }
{
    if edge.start().0 == node.0 {
        return true;
    }
    match edge {
        Edge::Block { fields, .. } => is_known(node, fields.as_slice()),
        Edge::Ind { args, .. } => is_among(node, args.as_slice()),
        Edge::Seg {
            args,
            end,
            end_args,
            ..
        } => {
            is_among(node, args.as_slice())
                || end.0 == node.0
                || is_among(node, end_args.as_slice())
        }
    }
}

/// Whether none of the edges names the node.
fn is_in_none(node: NodeId, edges: &[(EdgeId, Edge)]) -> bool
    ensures { result ≡ list_all (λ e. not (is_listed node (nodes_of e.1))) edges.now }
{
    for entry in edges {
        if is_in_edge(node, &entry.1) {
            return false;
        }
    }
    true
}

/// Whether neither a variable nor an edge names the node.
fn stands_nowhere(state: &State, node: NodeId) -> bool
    ensures { result ≡ has_no_name node state.now }
{
    !is_known(node, state.env()) && is_in_none(node, state.edges())
}

/// Whether no variable and no edge names the node.
pub fn is_unnamed(state: &State, node: NodeId) -> bool
    ensures told { result ≡ has_no_name node state.now }
    ensures derived { IsTrue result ↔ IsUnnamed node state.now }
{
    stands_nowhere(state, node)
}
