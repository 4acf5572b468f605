// The edge of the result that two edges of one form become, and the pairs of their nodes.
ghost use Rattle.std.specs.Prelude.{◌≡◌, ◌++◌, ◌∷◌, [], Some, None, IfOk, OnOk, zip};
ghost use Rattle.mc_joins.specs.Joinings.{with_pairs, known_both};
ghost use Rattle.mc_joins.specs.Steps.{pairs_of, nodes_for, known_for, edge_for};

use crate::pairs::{Pair, node_for, put_pair};
use mc_base::{Args, Items, NoMemory, NodeId};
use mc_state::graph::Edge;
use std::alloc::Global;

/// Lists the pairs of nodes that stand at one place.
fn put_all(pairs: &mut Vec<Pair>, left: &[NodeId], right: &[NodeId]) -> Result<(), NoMemory>
    ensures { OnOk result (pairs.new.items ≡ with_pairs pairs.old.items (zip left.now right.now)) }
{
    for (place, node) in left.iter().enumerate() {
        match right.get(place) {
            Some(other) => put_pair(pairs, &(*node, *other))?,
            None => return Ok(()),
        }
    }
    Ok(())
}

/// Lists the pair of two nodes, where both are known.
fn put_both(
    pairs: &mut Vec<Pair>,
    left: Option<NodeId>,
    right: Option<NodeId>,
) -> Result<(), NoMemory>
    ensures { OnOk result (pairs.new.items ≡ with_pairs pairs.old.items (known_both (left ∷ []) (right ∷ []))) }
{
    match (left, right) {
        (Some(node), Some(other)) => put_pair(pairs, &(node, other)),
        (Some(_), None) => Ok(()),
        (None, Some(_)) => Ok(()),
        (None, None) => Ok(()),
    }
}

/// Lists the pairs of nodes that stand at one place, where both are known.
pub fn put_known(
    pairs: &mut Vec<Pair>,
    left: &[Option<NodeId>],
    right: &[Option<NodeId>],
) -> Result<(), NoMemory>
    ensures { OnOk result (pairs.new.items ≡ with_pairs pairs.old.items (known_both left.now right.now)) }
{
    for (place, node) in left.iter().enumerate() {
        match right.get(place) {
            Some(other) => put_both(pairs, *node, *other)?,
            None => return Ok(()),
        }
    }
    Ok(())
}

/// Lists the pairs that two edges of one form make, in the order in which documents write them.
pub fn put_pairs(pairs: &mut Vec<Pair>, left: &Edge, right: &Edge) -> Result<(), NoMemory>
    ensures { OnOk result (pairs.new.items ≡ with_pairs pairs.old.items (pairs_of left.now right.now)) }
{
    match (left, right) {
        (Edge::Block { fields, .. }, Edge::Block { fields: others, .. }) => {
            put_known(pairs, fields.as_slice(), others.as_slice())
        }
        (Edge::Ind { args, .. }, Edge::Ind { args: others, .. }) => {
            put_all(pairs, args.as_slice(), others.as_slice())
        }
        (
            Edge::Seg {
                args,
                end,
                end_args,
                ..
            },
            Edge::Seg {
                args: others,
                end: stop,
                end_args: stop_args,
                ..
            },
        ) => {
            put_all(pairs, args.as_slice(), others.as_slice())?;
            put_pair(pairs, &(*end, *stop))?;
            put_all(pairs, end_args.as_slice(), stop_args.as_slice())
        }
        (Edge::Block { .. }, Edge::Ind { .. }) => Ok(()),
        (Edge::Block { .. }, Edge::Seg { .. }) => Ok(()),
        (Edge::Ind { .. }, Edge::Block { .. }) => Ok(()),
        (Edge::Ind { .. }, Edge::Seg { .. }) => Ok(()),
        (Edge::Seg { .. }, Edge::Block { .. }) => Ok(()),
        (Edge::Seg { .. }, Edge::Ind { .. }) => Ok(()),
    }
}

/// The nodes of the result for nodes that stand at one place.
fn all_for(
    alloc: Global,
    pairs: &[Pair],
    left: &[NodeId],
    right: &[NodeId],
) -> Result<Vec<NodeId>, NoMemory>
    ensures { IfOk result (λ nodes. nodes.items ≡ nodes_for pairs.now left.now right.now) }
{
    let mut nodes = Vec::new(alloc);
    for (place, node) in left.iter().enumerate() {
        match right.get(place) {
            Some(other) => nodes.push(node_for(pairs, *node, *other))?,
            None => return Ok(nodes),
        }
    }
    Ok(nodes)
}

/// The nodes as a list of their own.
pub fn args_of(alloc: Global, nodes: &[NodeId]) -> Result<Args<NodeId>, NoMemory>
    ensures { IfOk result (λ args. args ≡ nodes.now) }
{
    let mut args = Args::new(alloc);
    for node in nodes {
        args.push(*node)?;
    }
    Ok(args)
}

/// The same as a list of arguments.
fn nodes_for(
    alloc: Global,
    pairs: &[Pair],
    left: &[NodeId],
    right: &[NodeId],
) -> Result<Args<NodeId>, NoMemory>
    ensures { IfOk result (λ nodes. nodes ≡ nodes_for pairs.now left.now right.now) }
{
    let nodes = all_for(alloc, pairs, left, right)?;
    let args = args_of(alloc, nodes.as_slice())?;
    Ok(args)
}

/// The node of the result for two nodes, where both are known.
fn known_node(pairs: &[Pair], left: Option<NodeId>, right: Option<NodeId>) -> Option<NodeId>
    ensures { result ∷ [] ≡ known_for pairs.now (left ∷ []) (right ∷ []) }
{
    match (left, right) {
        (Some(node), Some(other)) => Some(node_for(pairs, node, other)),
        (Some(_), None) => None,
        (None, Some(_)) => None,
        (None, None) => None,
    }
}

/// The nodes of the result for nodes that stand at one place, where both are known.
pub fn known_for(
    alloc: Global,
    pairs: &[Pair],
    left: &[Option<NodeId>],
    right: &[Option<NodeId>],
) -> Result<Vec<Option<NodeId>>, NoMemory>
    ensures { IfOk result (λ nodes. nodes.items ≡ known_for pairs.now left.now right.now) }
{
    let mut nodes = Vec::new(alloc);
    for (place, node) in left.iter().enumerate() {
        match right.get(place) {
            Some(other) => nodes.push(known_node(pairs, *node, *other))?,
            None => return Ok(nodes),
        }
    }
    Ok(nodes)
}

/// The edge of the result for two edges of one form.
pub fn edge_for(
    alloc: Global,
    pairs: &[Pair],
    left: &Edge,
    right: &Edge,
) -> Result<Option<Edge>, NoMemory>
    ensures { IfOk result (λ edge. edge ≡ edge_for pairs.now left.now right.now) }
{
    match (left, right) {
        (
            Edge::Block { at, shape, fields },
            Edge::Block {
                at: other,
                fields: others,
                ..
            },
        ) => {
            let fields = known_for(alloc, pairs, fields.as_slice(), others.as_slice())?;
            Ok(Some(Edge::Block {
                at: node_for(pairs, *at, *other),
                shape: *shape,
                fields: Items::of(fields),
            }))
        }
        (
            Edge::Ind { at, pred, args },
            Edge::Ind {
                at: other,
                args: others,
                ..
            },
        ) => {
            let args = nodes_for(alloc, pairs, args.as_slice(), others.as_slice())?;
            Ok(Some(Edge::Ind {
                at: node_for(pairs, *at, *other),
                pred: *pred,
                args,
            }))
        }
        (
            Edge::Seg {
                at,
                args,
                pred,
                end,
                end_args,
            },
            Edge::Seg {
                at: other,
                args: others,
                end: stop,
                end_args: stop_args,
                ..
            },
        ) => {
            let args = nodes_for(alloc, pairs, args.as_slice(), others.as_slice())?;
            let end_args = nodes_for(alloc, pairs, end_args.as_slice(), stop_args.as_slice())?;
            Ok(Some(Edge::Seg {
                at: node_for(pairs, *at, *other),
                args,
                pred: *pred,
                end: node_for(pairs, *end, *stop),
                end_args,
            }))
        }
        (Edge::Block { .. }, Edge::Ind { .. }) => Ok(None),
        (Edge::Block { .. }, Edge::Seg { .. }) => Ok(None),
        (Edge::Ind { .. }, Edge::Block { .. }) => Ok(None),
        (Edge::Ind { .. }, Edge::Seg { .. }) => Ok(None),
        (Edge::Seg { .. }, Edge::Block { .. }) => Ok(None),
        (Edge::Seg { .. }, Edge::Ind { .. }) => Ok(None),
    }
}
