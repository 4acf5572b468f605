// Lists of nodes and of edges that are images of others.
ghost use Rattle.std.specs.Prelude.{◌≡◌, ◌↔◌, IsTrue, map, option_map};
ghost use Rattle.mc_base.specs.Nodes.{moved};
ghost use Rattle.mc_state.specs.Graph.Edges.{moved_edge};
ghost use Rattle.mc_pure_ops.specs.Renaming.Images.{image};
ghost use Rattle.mc_joins.specs.Alike.Alike.{moved_edges};

use mc_base::{EdgeId, NodeId};
use mc_pure_ops::renaming::Renaming;
use mc_state::graph::Edge;

/// Whether the image of a node is the other.
fn is_image(renaming: &Renaming, from: NodeId, to: NodeId) -> bool
    ensures { IsTrue result ↔ (moved (image renaming.now) from ≡ to) }
{
    renaming.image(from).0 == to.0
}

/// The same where the nodes may be unknown.
fn is_option_image(renaming: &Renaming, from: Option<NodeId>, to: Option<NodeId>) -> bool
    ensures { IsTrue result ↔ (option_map (moved (image renaming.now)) from ≡ to) }
{
    match (from, to) {
        (Some(a), Some(b)) => is_image(renaming, a, b),
        (Some(_), None) => false,
        (None, Some(_)) => false,
        (None, None) => true,
    }
}

/// Whether the images of nodes are the others, one by one.
fn are_images(renaming: &Renaming, from: &[NodeId], to: &[NodeId]) -> bool
    ensures { IsTrue result ↔ (map (moved (image renaming.now)) from.now ≡ to.now) }
{
    if from.len() != to.len() {
        return false;
    }
    for (i, node) in from.iter().enumerate() {
        if !is_image(renaming, *node, to[i]) {
            return false;
        }
    }
    true
}

/// The same where the nodes may be unknown.
pub fn are_option_images(
    renaming: &Renaming,
    from: &[Option<NodeId>],
    to: &[Option<NodeId>],
) -> bool
    ensures { IsTrue result ↔ (map (option_map (moved (image renaming.now))) from.now ≡ to.now) }
{
    if from.len() != to.len() {
        return false;
    }
    for (i, node) in from.iter().enumerate() {
        if !is_option_image(renaming, *node, to[i]) {
            return false;
        }
    }
    true
}

/// Whether an edge with the images of its nodes is the other.
fn is_edge_image(renaming: &Renaming, from: &Edge, to: &Edge) -> bool
    ensures { IsTrue result ↔ (moved_edge (image renaming.now) from.now ≡ to.now) }
{
    match (from, to) {
        (
            Edge::Block { at, shape, fields },
            Edge::Block {
                at: to_at,
                shape: to_shape,
                fields: to_fields,
            },
        ) => {
            is_image(renaming, *at, *to_at)
                && shape.0 == to_shape.0
                && are_option_images(renaming, fields.as_slice(), to_fields.as_slice())
        }
        (
            Edge::Ind { at, pred, args },
            Edge::Ind {
                at: to_at,
                pred: to_pred,
                args: to_args,
            },
        ) => {
            is_image(renaming, *at, *to_at)
                && pred.0 == to_pred.0
                && are_images(renaming, args.as_slice(), to_args.as_slice())
        }
        (
            Edge::Seg {
                at,
                args,
                pred,
                end,
                end_args,
            },
            Edge::Seg {
                at: to_at,
                args: to_args,
                pred: to_pred,
                end: to_end,
                end_args: to_end_args,
            },
        ) => {
            is_image(renaming, *at, *to_at)
                && are_images(renaming, args.as_slice(), to_args.as_slice())
                && pred.0 == to_pred.0
                && is_image(renaming, *end, *to_end)
                && are_images(renaming, end_args.as_slice(), to_end_args.as_slice())
        }
        (Edge::Block { .. }, Edge::Ind { .. }) => false,
        (Edge::Block { .. }, Edge::Seg { .. }) => false,
        (Edge::Ind { .. }, Edge::Block { .. }) => false,
        (Edge::Ind { .. }, Edge::Seg { .. }) => false,
        (Edge::Seg { .. }, Edge::Block { .. }) => false,
        (Edge::Seg { .. }, Edge::Ind { .. }) => false,
    }
}

/// Whether edges with the images of their nodes are the others with the same ids, one by one.
pub fn are_edge_images(renaming: &Renaming, from: &[(EdgeId, Edge)], to: &[(EdgeId, Edge)]) -> bool
    ensures { IsTrue result ↔ (moved_edges (image renaming.now) from.now ≡ to.now) }
{
    if from.len() != to.len() {
        return false;
    }
    for i in 0..from.len() {
        if from[i].0.0 != to[i].0.0 {
            return false;
        }
        if !is_edge_image(renaming, &from[i].1, &to[i].1) {
            return false;
        }
    }
    true
}
