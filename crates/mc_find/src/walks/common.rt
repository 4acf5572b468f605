// The common part of a head and an arrival.
use crate::walks::pairing::{Pairing, Sides};
use mc_base::{Args, Items, NULL, NoMemory, NodeId};
use mc_state::graph::Edge;
use mc_state::{NodeKind, RawState};
use std::alloc::Global;

/// The kind of a node.
fn kind_at(raw: &RawState, node: NodeId) -> NodeKind {
    raw.kinds
        .as_slice()
        .get(node.0 as usize)
        .copied()
        .unwrap_or(NodeKind::Ptr)
}

/// The kinds of the pairs: null is of every kind.
fn kinds_of(
    alloc: Global,
    sides: Sides<'_>,
    pairing: &Pairing,
) -> Result<Items<NodeKind>, NoMemory> {
    let mut kinds = Vec::with_capacity(alloc, pairing.pairs.len())?;
    for pair in pairing.pairs.as_slice() {
        let kind = if pair.0 == NULL {
            kind_at(sides.arrival, pair.1)
        } else {
            kind_at(sides.head, pair.0)
        };
        kinds.push(kind)?;
    }
    Ok(Items::of(kinds))
}

/// The number of a pair.
fn number_of(pairing: &Pairing, one: NodeId, other: NodeId) -> NodeId {
    match pairing.place_of(one, other) {
        Some(place) => NodeId(place as u64),
        None => NULL,
    }
}

/// The numbers of what is known on both sides.
fn known_on_both(
    alloc: Global,
    pairing: &Pairing,
    ones: &[Option<NodeId>],
    others: &[Option<NodeId>],
) -> Result<Items<Option<NodeId>>, NoMemory> {
    let mut list = Vec::with_capacity(alloc, ones.len())?;
    for (place, one) in ones.iter().enumerate() {
        let other = others.get(place).copied().flatten();
        let number = match (*one, other) {
            (Some(left), Some(right)) => Some(number_of(pairing, left, right)),
            _ => None,
        };
        list.push(number)?;
    }
    Ok(Items::of(list))
}

/// The numbers of nodes on both sides.
fn all_of(
    alloc: Global,
    pairing: &Pairing,
    ones: &[NodeId],
    others: &[NodeId],
) -> Result<Args<NodeId>, NoMemory> {
    let mut list = Args::new(alloc);
    for (place, one) in ones.iter().enumerate() {
        let other = others.get(place).copied().unwrap_or(NULL);
        list.push(number_of(pairing, *one, other))?;
    }
    Ok(list)
}

/// The common part of two edges that go with each other.
fn edge_of(
    alloc: Global,
    pairing: &Pairing,
    one: &Edge,
    other: &Edge,
) -> Result<Option<Edge>, NoMemory> {
    let at = number_of(pairing, one.start(), other.start());
    match (one, other) {
        (Edge::Block { shape, fields, .. }, Edge::Block { fields: own, .. }) => {
            Ok(Some(Edge::Block {
                at,
                shape: *shape,
                fields: known_on_both(alloc, pairing, fields.as_slice(), own.as_slice())?,
            }))
        }
        (Edge::Ind { pred, args, .. }, Edge::Ind { args: own, .. }) => Ok(Some(Edge::Ind {
            at,
            pred: *pred,
            args: all_of(alloc, pairing, args.as_slice(), own.as_slice())?,
        })),
        (
            Edge::Seg {
                args,
                pred,
                end,
                end_args,
                ..
            },
            Edge::Seg {
                args: own,
                end: stop,
                end_args: ends,
                ..
            },
        ) => Ok(Some(Edge::Seg {
            at,
            args: all_of(alloc, pairing, args.as_slice(), own.as_slice())?,
            pred: *pred,
            end: number_of(pairing, *end, *stop),
            end_args: all_of(alloc, pairing, end_args.as_slice(), ends.as_slice())?,
        })),
        _ => Ok(None),
    }
}

/// The common parts of the edges that go with each other.
fn edges_of(alloc: Global, sides: Sides<'_>, pairing: &Pairing) -> Result<Items<Edge>, NoMemory> {
    let mut list = Vec::new(alloc);
    for (place, edge) in sides.head.edges.as_slice().iter().enumerate() {
        let Some(partner) = pairing.partner(place) else {
            continue;
        };
        let Some(own) = sides.arrival.edges.as_slice().get(partner) else {
            continue;
        };
        if let Some(common) = edge_of(alloc, pairing, edge, own)? {
            list.push(common)?;
        }
    }
    Ok(Items::of(list))
}

/// Whether each edge of both sides goes with one of the other.
fn are_all_paired(pairing: &Pairing) -> bool {
    for partner in pairing.partners.as_slice() {
        if partner.is_none() {
            return false;
        }
    }
    for used in pairing.used.as_slice() {
        if !*used {
            return false;
        }
    }
    true
}

/// The common part of a head and an arrival, without atoms: a node for each pair.
pub fn common_of(alloc: Global, sides: Sides<'_>, pairing: &Pairing) -> Result<RawState, NoMemory> {
    let vars = sides.head.vars.as_slice();
    Ok(RawState {
        vars: known_on_both(alloc, pairing, vars, sides.arrival.vars.as_slice())?,
        kinds: kinds_of(alloc, sides, pairing)?,
        edges: edges_of(alloc, sides, pairing)?,
        atoms: Items::new(alloc),
        whole: sides.head.whole && sides.arrival.whole && are_all_paired(pairing),
    })
}
