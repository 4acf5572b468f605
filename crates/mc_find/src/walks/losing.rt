// Arrivals at cuts whose heads lose what arrivals lack.
use crate::matching::Trail;
use crate::walks::Attempt;
use crate::walks::arriving::{Landing, jump};
use crate::walks::common::common_of;
use crate::walks::heads::joined;
use crate::walks::nearness::{Paired, sides_of};
use crate::walks::pairing::Pairing;
use crate::walks::walked::Walked;
use crate::walks::walking::Way;
use mc_base::{EdgeId, Items, NULL, NoMemory, NodeId, PointId};
use mc_find_view::sight::Seen;
use mc_symbolic::State;
use std::alloc::Global;

/// The node of a state for a node that was seen of it.
fn seen_node(seen: &Seen, node: NodeId) -> NodeId {
    seen.images
        .as_slice()
        .get(node.0 as usize)
        .copied()
        .unwrap_or(NULL)
}

/// The pairs with the nodes of the arrival's state.
fn state_pairs(
    alloc: Global,
    pairing: &Pairing,
    seen: &Seen,
) -> Result<Vec<(NodeId, NodeId)>, NoMemory> {
    let mut pairs = Vec::with_capacity(alloc, pairing.pairs.len())?;
    for pair in pairing.pairs.as_slice() {
        pairs.push((pair.0, seen_node(seen, pair.1)))?;
    }
    Ok(pairs)
}

/// The nodes of the arrival's state for the nodes of a head, so many.
fn images_of(
    alloc: Global,
    pairing: &Pairing,
    seen: &Seen,
    nodes: usize,
) -> Result<Vec<NodeId>, NoMemory> {
    let mut images = Vec::with_capacity(alloc, nodes)?;
    for node in 0..nodes {
        let own = pairing.image(NodeId(node as u64)).unwrap_or(NULL);
        images.push(seen_node(seen, own))?;
    }
    Ok(images)
}

/// The edges of the arrival's state for the edges of a head. None where one has no partner.
fn edges_of(
    alloc: Global,
    pairing: &Pairing,
    seen: &Seen,
) -> Result<Option<Vec<EdgeId>>, NoMemory> {
    let mut edges = Vec::with_capacity(alloc, pairing.partners.len())?;
    for place in 0..pairing.partners.len() {
        let Some(partner) = pairing.partner(place) else {
            return Ok(None);
        };
        match seen.edges.as_slice().get(partner) {
            Some(edge) => edges.push(*edge)?,
            None => return Ok(None),
        }
    }
    Ok(Some(edges))
}

impl Attempt<'_> {
    /// Lets a head take an arrival as it is: the images are read off the pairs.
    fn take(
        &mut self,
        taker: Paired,
        state: &State,
        seen: &Seen,
    ) -> Result<Option<Landing>, NoMemory> {
        let Some(head) = self.heads.as_slice().get(taker.place) else {
            return Ok(None);
        };
        let pairing = &taker.pairing;
        let images = images_of(self.alloc, pairing, seen, head.raw.kinds.len())?;
        let Some(edges) = edges_of(self.alloc, pairing, seen)? else {
            return Ok(None);
        };
        let way = self.meet_head(taker.place, state, images.as_slice(), edges.as_slice())?;
        Ok(Some(Landing {
            head: taker.place,
            images,
            edges,
            way,
        }))
    }

    /// The common part of a head and an arrival. None where it is no state.
    fn common_part(
        &self,
        near: &Paired,
        state: &State,
        seen: &Seen,
    ) -> Result<Option<State>, NoMemory> {
        let Some(head) = self.heads.as_slice().get(near.place) else {
            return Ok(None);
        };
        let mut raw = common_of(self.alloc, sides_of(head, seen), &near.pairing)?;
        let pairs = state_pairs(self.alloc, &near.pairing, seen)?;
        let round = head.round.saturating_add(1);
        let thresholds = self.paths.thresholds();
        let joint = joined(
            self.alloc,
            head.state.known(),
            state.known(),
            pairs.as_slice(),
            round,
            thresholds,
        )?;
        let Some(atoms) = joint else {
            return Ok(None);
        };
        raw.atoms = Items::of(atoms);
        self.paths.state_of(&raw)
    }

    /// Puts what was seen of a common part in place of the head.
    fn weaken(
        &mut self,
        place: usize,
        cut: PointId,
        part: &State,
        seen: Seen,
    ) -> Result<Way, NoMemory> {
        let Some(mut next) = self.head_of(cut, part, seen)? else {
            return Ok(Way::Stuck);
        };
        let Some(head) = self.heads.get_mut(place) else {
            return Ok(Way::Stuck);
        };
        next.round = head.round.saturating_add(1);
        next.turns = head.turns;
        next.is_weak = true;
        next.walked.add_targets(&head.walked)?;
        *head = next;
        Ok(Way::Again)
    }

    /// Lets another head take a common part of its shape, and drops the head from which that came.
    fn give_up(
        &mut self,
        place: usize,
        other: usize,
        part: &State,
        seen: &Seen,
    ) -> Result<Way, NoMemory> {
        let way = self.meet_head(other, part, seen.images.as_slice(), seen.edges.as_slice())?;
        if way != Way::On {
            return Ok(way);
        }
        if let Some(head) = self.heads.get_mut(other) {
            head.is_weak = true;
        }
        self.forget_head(place);
        Ok(Way::Again)
    }

    /// Lets the head that goes best with an arrival become their common part. What jumped to it is followed again.
    fn lose(&mut self, cut: PointId, state: &State, seen: &Seen) -> Result<Way, NoMemory> {
        let Some(near) = self.nearest(cut, seen)? else {
            return Ok(Way::Stuck);
        };
        let Some(part) = self.common_part(&near, state, seen)? else {
            return Ok(Way::Stuck);
        };
        let place = near.place;
        if part.is_false() {
            return Ok(Way::Stuck);
        }
        self.follow_again(place);
        let own = self.look_at(cut, &part)?;
        match self.head_like(cut, &own, Some(place)) {
            Some(other) => self.give_up(place, other, &part, &own),
            None => self.weaken(place, cut, &part, own),
        }
    }

    /// The head at which an arrival lands, if there is one or may be a new one.
    fn landing(
        &mut self,
        cut: PointId,
        state: &State,
        seen: &Seen,
        fresh: &[usize],
    ) -> Result<Option<Landing>, NoMemory> {
        if let Some(place) = self.head_like(cut, seen, None) {
            return Ok(Some(self.land(place, state, seen)?));
        }
        if let Some(taker) = self.taker(cut, seen, false)? {
            return self.take(taker, state, seen);
        }
        if self.heads_at(cut) >= self.style.heads {
            self.drop_unreached(cut, fresh)?;
        }
        if self.heads_at(cut) < self.style.heads {
            return Ok(None);
        }
        match self.taker(cut, seen, true)? {
            Some(taker) => self.take(taker, state, seen),
            None => Ok(None),
        }
    }

    /// Ends the first branch, which has come to a cut whose heads lose what arrivals lack.
    pub fn arrive_losing(
        &mut self,
        cut: PointId,
        trail: &mut Trail<'_>,
        walked: &mut Walked,
    ) -> Result<Way, NoMemory> {
        let Some(state) = trail.state() else {
            return Ok(Way::Stuck);
        };
        let seen = self.look_at(cut, state)?;
        let landing = match self.landing(cut, state, &seen, walked.targets.as_slice())? {
            Some(found) => found,
            None => {
                if self.heads_at(cut) >= self.style.heads {
                    return self.lose(cut, state, &seen);
                }
                self.land_new(cut, state, seen, walked.targets.as_slice())?
            }
        };
        jump(landing, trail, walked)
    }
}
