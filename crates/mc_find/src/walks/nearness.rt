// How well heads go with arrivals of another shape.
use crate::walks::Attempt;
use crate::walks::distance::{Distance, distance_of};
use crate::walks::heads::Head;
use crate::walks::pairing::{Pairing, Sides};
use mc_base::{NoMemory, PointId, VarId};
use mc_find_view::sight::Seen;

/// How well a head goes with an arrival; less is better.
#[derive(Clone, Copy)]
struct Nearness {
    flags_differ: bool,
    distance: Distance,
}

/// Whether one of two is better.
fn is_nearer(one: Nearness, other: Nearness) -> bool {
    if one.flags_differ != other.flags_differ {
        return other.flags_differ;
    }
    let loses = one.distance.lost > 0;
    let other_loses = other.distance.lost > 0;
    if loses != other_loses {
        return other_loses;
    }
    one.distance.cost < other.distance.cost
}

/// Whether all values of some flags are among others.
fn are_flags_of(flags: &[(VarId, i64)], others: &[(VarId, i64)]) -> bool {
    for flag in flags {
        if !others.contains(flag) {
            return false;
        }
    }
    true
}

/// The sides of a head and what was seen of an arrival.
pub fn sides_of<'a>(head: &'a Head, seen: &'a Seen) -> Sides<'a> {
    Sides {
        head: &head.raw,
        arrival: &seen.raw,
    }
}

/// A head with its place, and which of its nodes and edges go with which of an arrival.
#[derive(Drop)]
pub struct Paired {
    pub place: usize,
    pub pairing: Pairing,
}

impl Attempt<'_> {
    /// How well a head goes with an arrival, and what of it goes with what.
    fn compare(&self, head: &Head, seen: &Seen) -> Result<(Nearness, Pairing), NoMemory> {
        let sides = sides_of(head, seen);
        let pairing = Pairing::of(self.alloc, sides)?;
        let near = Nearness {
            flags_differ: head.flags.as_slice() != seen.flags.as_slice(),
            distance: distance_of(self.alloc, sides, &pairing)?,
        };
        Ok((near, pairing))
    }

    /// What goes with what, where a head that has lost something takes an arrival as it is. Its flags are the arrival's, or
    /// some of them where this is asked.
    fn takes(&self, head: &Head, seen: &Seen, by_some: bool) -> Result<Option<Pairing>, NoMemory> {
        if !head.is_weak || !are_flags_of(head.flags.as_slice(), seen.flags.as_slice()) {
            return Ok(None);
        }
        let (near, pairing) = self.compare(head, seen)?;
        if near.distance.lost == 0 && (by_some || !near.flags_differ) {
            Ok(Some(pairing))
        } else {
            Ok(None)
        }
    }

    /// The first head of a cut that has lost something and takes an arrival as it is.
    pub fn taker(
        &self,
        cut: PointId,
        seen: &Seen,
        by_some: bool,
    ) -> Result<Option<Paired>, NoMemory> {
        for (place, head) in self.heads.as_slice().iter().enumerate() {
            if head.is_of(cut) {
                if let Some(pairing) = self.takes(head, seen, by_some)? {
                    return Ok(Some(Paired { place, pairing }));
                }
            }
        }
        Ok(None)
    }

    /// The head of a cut that goes best with an arrival.
    pub fn nearest(&self, cut: PointId, seen: &Seen) -> Result<Option<Paired>, NoMemory> {
        let mut best: Option<Paired> = None;
        let mut least: Option<Nearness> = None;
        for (place, head) in self.heads.as_slice().iter().enumerate() {
            if !head.is_of(cut) {
                continue;
            }
            let (near, pairing) = self.compare(head, seen)?;
            let is_best = match least {
                Some(found) => is_nearer(near, found),
                None => true,
            };
            if is_best {
                best = Some(Paired { place, pairing });
                least = Some(near);
            }
        }
        Ok(best)
    }
}
