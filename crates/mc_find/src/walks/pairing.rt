// Which nodes and edges of a head go with which of an arrival.
use mc_base::{NULL, NoMemory, NodeId};
use mc_state::RawState;
use mc_state::graph::Edge;
use std::alloc::Global;

/// A head and an arrival of another shape, numbered as what is seen.
#[derive(Clone, Copy)]
pub struct Sides<'a> {
    pub head: &'a RawState,
    pub arrival: &'a RawState,
}

/// The nodes to which both sides lead from the same variables: pairs, null with null first; for each edge of the head the
/// place of the edge that goes with it; and for each edge of the arrival whether it goes with one.
#[derive(Drop)]
pub struct Pairing {
    pub pairs: Vec<(NodeId, NodeId)>,
    pub partners: Vec<Option<usize>>,
    pub used: Vec<bool>,
}

/// The most pairs that are followed.
const PAIRS: usize = 10_000;

/// Where a node stands in an edge.
#[derive(Clone, Copy)]
enum Spot {
    Start,
    EndArg(usize),
}

/// The end arguments of an edge that is a segment.
fn end_args_of(edge: &Edge) -> &[NodeId] {
    match edge {
        Edge::Block { .. } => &[],
        Edge::Ind { .. } => &[],
        Edge::Seg { end_args, .. } => end_args.as_slice(),
    }
}

/// Where a node stands in an edge that can be found from it.
fn spot_of(edge: &Edge, node: NodeId) -> Option<Spot> {
    if edge.start() == node {
        return Some(Spot::Start);
    }
    for (place, own) in end_args_of(edge).iter().enumerate() {
        if *own == node {
            return Some(Spot::EndArg(place));
        }
    }
    None
}

/// Whether a node stands there in an edge.
fn stands(edge: &Edge, node: NodeId, spot: Spot) -> bool {
    match spot {
        Spot::Start => edge.start() == node,
        Spot::EndArg(place) => match end_args_of(edge).get(place) {
            Some(own) => *own == node,
            None => false,
        },
    }
}

/// Whether two edges are of one form, struct or predicate.
fn are_of_one_form(one: &Edge, other: &Edge) -> bool {
    match (one, other) {
        (Edge::Block { shape, .. }, Edge::Block { shape: own, .. }) => *shape == *own,
        (Edge::Ind { pred, .. }, Edge::Ind { pred: own, .. }) => *pred == *own,
        (Edge::Seg { pred, .. }, Edge::Seg { pred: own, .. }) => *pred == *own,
        _ => false,
    }
}

impl Pairing {
    /// The pairing of a head and an arrival.
    pub fn of(alloc: Global, sides: Sides<'_>) -> Result<Pairing, NoMemory> {
        let mut pairing = Pairing {
            pairs: vec![in alloc; (NULL, NULL)]?,
            partners: vec![in alloc; None; sides.head.edges.len()]?,
            used: vec![in alloc; false; sides.arrival.edges.len()]?,
        };
        pairing.add_known(sides.head.vars.as_slice(), sides.arrival.vars.as_slice())?;
        pairing.follow(sides)?;
        Ok(pairing)
    }

    /// The place of a pair.
    pub fn place_of(&self, one: NodeId, other: NodeId) -> Option<usize> {
        for (place, pair) in self.pairs.as_slice().iter().enumerate() {
            if pair.0 == one && pair.1 == other {
                return Some(place);
            }
        }
        None
    }

    /// The first node of the arrival that goes with a node of the head.
    pub fn image(&self, node: NodeId) -> Option<NodeId> {
        for pair in self.pairs.as_slice() {
            if pair.0 == node {
                return Some(pair.1);
            }
        }
        None
    }

    /// The place of the arrival's edge that goes with one of the head.
    pub fn partner(&self, place: usize) -> Option<usize> {
        self.partners.as_slice().get(place).copied().flatten()
    }

    /// Whether the arrival's edge at a place goes with one of the head.
    pub fn is_used(&self, place: usize) -> bool {
        self.used.as_slice().get(place).copied().unwrap_or(true)
    }

    /// Adds a pair, if it is not there.
    fn add(&mut self, one: NodeId, other: NodeId) -> Result<(), NoMemory> {
        if self.place_of(one, other).is_none() {
            self.pairs.push((one, other))?;
        }
        Ok(())
    }

    /// Adds pairs of what is known on both sides.
    fn add_known(
        &mut self,
        ones: &[Option<NodeId>],
        others: &[Option<NodeId>],
    ) -> Result<(), NoMemory> {
        for (place, one) in ones.iter().enumerate() {
            let other = others.get(place).copied().flatten();
            if let (Some(left), Some(right)) = (*one, other) {
                self.add(left, right)?;
            }
        }
        Ok(())
    }

    /// Adds pairs of nodes, one by one.
    fn add_all(&mut self, ones: &[NodeId], others: &[NodeId]) -> Result<(), NoMemory> {
        for (place, one) in ones.iter().enumerate() {
            if let Some(other) = others.get(place) {
                self.add(*one, *other)?;
            }
        }
        Ok(())
    }

    /// Adds the pairs of two edges of one form.
    fn add_edges(&mut self, one: &Edge, other: &Edge) -> Result<(), NoMemory> {
        self.add(one.start(), other.start())?;
        match (one, other) {
            (Edge::Block { fields, .. }, Edge::Block { fields: own, .. }) => {
                self.add_known(fields.as_slice(), own.as_slice())
            }
            (Edge::Ind { args, .. }, Edge::Ind { args: own, .. }) => {
                self.add_all(args.as_slice(), own.as_slice())
            }
            (
                Edge::Seg { args, end, .. },
                Edge::Seg {
                    args: own,
                    end: stop,
                    ..
                },
            ) => {
                self.add_all(args.as_slice(), own.as_slice())?;
                self.add(*end, *stop)?;
                self.add_all(end_args_of(one), end_args_of(other))
            }
            _ => Ok(()),
        }
    }

    /// The place of the first edge of the arrival that can go with one of the head.
    fn partner_for(
        &self,
        sides: Sides<'_>,
        edge: &Edge,
        node: NodeId,
        spot: Spot,
    ) -> Option<usize> {
        for (place, own) in sides.arrival.edges.as_slice().iter().enumerate() {
            if !self.is_used(place) && are_of_one_form(edge, own) && stands(own, node, spot) {
                return Some(place);
            }
        }
        None
    }

    /// Lets two edges go with each other.
    fn take(&mut self, sides: Sides<'_>, place: usize, partner: usize) -> Result<(), NoMemory> {
        if let Some(slot) = self.partners.get_mut(place) {
            *slot = Some(partner);
        }
        if let Some(slot) = self.used.get_mut(partner) {
            *slot = true;
        }
        let one = sides.head.edges.as_slice().get(place);
        let other = sides.arrival.edges.as_slice().get(partner);
        match (one, other) {
            (Some(edge), Some(own)) => self.add_edges(edge, own),
            _ => Ok(()),
        }
    }

    /// Takes the edges that are found from a pair.
    fn take_at(&mut self, sides: Sides<'_>, one: NodeId, other: NodeId) -> Result<(), NoMemory> {
        for (place, edge) in sides.head.edges.as_slice().iter().enumerate() {
            if self.partner(place).is_some() {
                continue;
            }
            if let Some(spot) = spot_of(edge, one) {
                if let Some(partner) = self.partner_for(sides, edge, other, spot) {
                    self.take(sides, place, partner)?;
                }
            }
        }
        Ok(())
    }

    /// Takes the edges that are found from the pairs, in order.
    fn follow(&mut self, sides: Sides<'_>) -> Result<(), NoMemory> {
        for next in 0..PAIRS {
            let Some(pair) = self.pairs.as_slice().get(next).copied() else {
                return Ok(());
            };
            if pair.0 != NULL && pair.1 != NULL {
                self.take_at(sides, pair.0, pair.1)?;
            }
        }
        Ok(())
    }
}
