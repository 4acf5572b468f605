// How far an arrival is from a head.
use crate::walks::pairing::{Pairing, Sides};
use crate::walks::reach::{Reach, reach_of};
use mc_base::{NULL, NoMemory, NodeId};
use mc_state::graph::Edge;
use std::alloc::Global;

/// How far an arrival is from a head: how much the head has and the arrival has not, and what their common part costs.
#[derive(Clone, Copy)]
pub struct Distance {
    pub lost: u64,
    pub cost: u64,
}

/// How many places are known in the first of two lists alone.
fn known_alone(ones: &[Option<NodeId>], others: &[Option<NodeId>]) -> u64 {
    let mut count = 0u64;
    for (place, one) in ones.iter().enumerate() {
        if one.is_some() && others.get(place).copied().flatten().is_none() {
            count = count.saturating_add(1);
        }
    }
    count
}

/// The fields of a block.
fn fields_of(edge: &Edge) -> &[Option<NodeId>] {
    match edge {
        Edge::Block { fields, .. } => fields.as_slice(),
        Edge::Ind { .. } => &[],
        Edge::Seg { .. } => &[],
    }
}

/// How many variables and fields are known in the head alone, and how many in the arrival alone.
fn unequal_places(sides: Sides<'_>, pairing: &Pairing) -> (u64, u64) {
    let own = sides.head.vars.as_slice();
    let other = sides.arrival.vars.as_slice();
    let mut head = known_alone(own, other);
    let mut arrival = known_alone(other, own);
    for (place, edge) in sides.head.edges.as_slice().iter().enumerate() {
        let Some(partner) = pairing.partner(place) else {
            continue;
        };
        if let Some(found) = sides.arrival.edges.as_slice().get(partner) {
            head = head.saturating_add(known_alone(fields_of(edge), fields_of(found)));
            arrival = arrival.saturating_add(known_alone(fields_of(found), fields_of(edge)));
        }
    }
    (head, arrival)
}

/// Pairs of which one node is null, and nodes that are in more than one pair, each of the head first.
#[derive(Clone, Copy)]
struct Splits {
    null_in_head: u64,
    null_in_arrival: u64,
    of_head: u64,
    of_arrival: u64,
}

/// Whether one of the pairs has this node of the head.
fn has_left(pairs: &[(NodeId, NodeId)], node: NodeId) -> bool {
    for pair in pairs {
        if pair.0 == node {
            return true;
        }
    }
    false
}

/// Whether one of the pairs has this node of the arrival.
fn has_right(pairs: &[(NodeId, NodeId)], node: NodeId) -> bool {
    for pair in pairs {
        if pair.1 == node {
            return true;
        }
    }
    false
}

impl Splits {
    /// Counts a pair, where these come before it.
    fn count(&mut self, before: &[(NodeId, NodeId)], one: NodeId, other: NodeId) {
        if one == NULL && other != NULL {
            self.null_in_head = self.null_in_head.saturating_add(1);
        }
        if other == NULL && one != NULL {
            self.null_in_arrival = self.null_in_arrival.saturating_add(1);
        }
        if one != NULL && has_left(before, one) {
            self.of_head = self.of_head.saturating_add(1);
        }
        if other != NULL && has_right(before, other) {
            self.of_arrival = self.of_arrival.saturating_add(1);
        }
    }
}

/// What is split by pairs.
fn splits_of(pairs: &[(NodeId, NodeId)]) -> Splits {
    let mut splits = Splits {
        null_in_head: 0,
        null_in_arrival: 0,
        of_head: 0,
        of_arrival: 0,
    };
    for (place, pair) in pairs.iter().enumerate() {
        if let Some(before) = pairs.get(..place) {
            splits.count(before, pair.0, pair.1);
        }
    }
    splits
}

/// How many edges of the head have no partner, and how many of these variables lead to.
fn lone_of_head(reach: &Reach, pairing: &Pairing) -> (u64, u64) {
    let mut all = 0u64;
    let mut reached = 0u64;
    for (place, partner) in pairing.partners.as_slice().iter().enumerate() {
        if partner.is_none() {
            all = all.saturating_add(1);
            if reach.is_reached(place) {
                reached = reached.saturating_add(1);
            }
        }
    }
    (all, reached)
}

/// How many edges of the arrival have no partner, and how many of these variables lead to.
fn lone_of_arrival(reach: &Reach, pairing: &Pairing) -> (u64, u64) {
    let mut all = 0u64;
    let mut reached = 0u64;
    for (place, used) in pairing.used.as_slice().iter().enumerate() {
        if !*used {
            all = all.saturating_add(1);
            if reach.is_reached(place) {
                reached = reached.saturating_add(1);
            }
        }
    }
    (all, reached)
}

/// So many times a cost.
fn at_cost(count: u64, other: u64, cost: u64) -> u64 {
    count.saturating_add(other).saturating_mul(cost)
}

/// How far an arrival is from a head.
pub fn distance_of(
    alloc: Global,
    sides: Sides<'_>,
    pairing: &Pairing,
) -> Result<Distance, NoMemory> {
    let (head_lone, head_reached) = lone_of_head(&reach_of(alloc, sides.head)?, pairing);
    let (other_lone, other_reached) = lone_of_arrival(&reach_of(alloc, sides.arrival)?, pairing);
    let (head_known, other_known) = unequal_places(sides, pairing);
    let splits = splits_of(pairing.pairs.as_slice());
    let loses_all = sides.head.whole && (!sides.arrival.whole || other_lone > 0);
    let lost = head_lone
        .saturating_add(head_known)
        .saturating_add(splits.null_in_head)
        .saturating_add(splits.of_head)
        .saturating_add(loses_all as u64);
    let cost = at_cost(head_reached, other_reached, 3)
        .saturating_add(at_cost(head_known, other_known, 2))
        .saturating_add(at_cost(splits.null_in_head, splits.null_in_arrival, 10))
        .saturating_add(at_cost(splits.of_head, splits.of_arrival, 4));
    Ok(Distance { lost, cost })
}
