// The states of cuts.
ghost use Rattle.std.specs.Prelude.{All};
ghost use Rattle.mc_base.specs.Ranges.Ends.{IsInt};

use crate::walks::Attempt;
use crate::walks::hashing::hash_of;
use crate::walks::walked::Walked;
use mc_base::{Atom, Items, NULL, NoMemory, NodeId, PointId, VarId};
use mc_find_view::sight::{Seen, are_alike};
use mc_pure::Pure;
use mc_pure_ops::join::{are_joinable, join};
use mc_state::RawState;
use mc_symbolic::State;
use std::alloc::Global;

/// A state of a cut: as documents write it, and as lines change it; how often it changed; how many
/// rounds it has had, and whether it is new or has changed since the last one; what is known of the branches from it, where these
/// are of the state as it is now; and whether it lost what arrivals lack.
#[derive(Drop)]
pub struct Head {
    pub cut: PointId,
    pub raw: RawState,
    pub state: State,
    pub flags: Vec<(VarId, i64)>,
    pub hash: u64,
    pub round: u64,
    pub turns: u64,
    pub is_fresh: bool,
    pub stamp: u64,
    pub walked: Walked,
    pub is_stale: bool,
    pub is_dropped: bool,
    pub is_weak: bool,
}

impl Head {
    /// Whether it is a head of a cut.
    pub fn is_of(&self, cut: PointId) -> bool {
        !self.is_dropped && self.cut == cut
    }

    /// Whether what was seen of a state at a cut, with this hash, has this head's shape.
    pub fn has_shape(&self, cut: PointId, seen: &Seen, hash: u64) -> bool {
        self.hash == hash
            && self.is_of(cut)
            && self.flags.as_slice() == seen.flags.as_slice()
            && are_alike(&self.raw, &seen.raw)
    }
}

/// The nodes of a list with their numbers, as pairs.
fn pairs_of(alloc: Global, images: &[NodeId]) -> Result<Vec<(NodeId, NodeId)>, NoMemory> {
    let mut pairs = Vec::with_capacity(alloc, images.len())?;
    for (place, image) in images.iter().enumerate() {
        pairs.push((NodeId(place as u64), *image))?;
    }
    Ok(pairs)
}

/// Each node of a list twice, as pairs.
fn twice(alloc: Global, images: &[NodeId]) -> Result<Vec<(NodeId, NodeId)>, NoMemory> {
    let mut pairs = Vec::with_capacity(alloc, images.len())?;
    for image in images {
        pairs.push((*image, *image))?;
    }
    Ok(pairs)
}

/// What is known on both sides of pairs, widened from the third round on, where they can be joined.
pub fn joined(
    alloc: Global,
    left: &Pure,
    right: &Pure,
    pairs: &[(NodeId, NodeId)],
    round: u64,
    thresholds: &[i64],
) -> Result<Option<Vec<Atom>>, NoMemory>
    requires { All IsInt thresholds.now }
{
    if left.is_false() || right.is_false() {
        return Ok(None);
    }
    if !are_joinable(left, right, pairs) {
        return Ok(None);
    }
    let joint = join(alloc, left, right, pairs, round, thresholds)?;
    Ok(Some(mc_pure_ops::canon::canon(alloc, &joint)?))
}

/// What is known of nodes, with their places as numbers. A place of null is zero.
fn atoms_at(alloc: Global, known: &Pure, images: &[NodeId]) -> Result<Option<Vec<Atom>>, NoMemory> {
    let pairs = twice(alloc, images)?;
    let Some(mut atoms) = joined(alloc, known, known, pairs.as_slice(), 1, &[])? else {
        return Ok(None);
    };
    for (place, image) in images.iter().enumerate() {
        if place > 0 && *image == NULL {
            atoms.push(Atom::In(NodeId(place as u64), 0, 0))?;
        }
    }
    Ok(Some(atoms))
}

/// What is known both of a head's nodes and of their images, widened from the third round on.
pub fn joint_atoms(
    alloc: Global,
    thresholds: &[i64],
    head: &State,
    known: &Pure,
    images: &[NodeId],
    round: u64,
) -> Result<Option<Vec<Atom>>, NoMemory>
    requires { All IsInt thresholds.now }
{
    let pairs = pairs_of(alloc, images)?;
    joined(
        alloc,
        head.known(),
        known,
        pairs.as_slice(),
        round,
        thresholds,
    )
}

impl Attempt<'_> {
    /// The head with the shape of what was seen, other than one.
    pub fn head_like(&self, cut: PointId, seen: &Seen, except: Option<usize>) -> Option<usize> {
        let hash = hash_of(&seen.raw);
        for place in self.cuts.heads_of(cut) {
            if let Some(head) = self.heads.as_slice().get(*place) {
                if except != Some(*place) && head.has_shape(cut, seen, hash) {
                    return Some(*place);
                }
            }
        }
        None
    }

    /// Adds a head.
    pub fn push_head(&mut self, head: Head) -> Result<(), NoMemory> {
        if let Some(cut) = self.cuts.find_mut(head.cut) {
            cut.heads.push(self.heads.len())?;
        }
        self.heads.push(head)?;
        Ok(())
    }

    /// How many heads a cut has.
    pub fn heads_at(&self, cut: PointId) -> usize {
        self.cuts.heads_of(cut).len()
    }

    /// The head of what was seen of a state. None where that is no state.
    pub fn head_of(
        &mut self,
        cut: PointId,
        state: &State,
        seen: Seen,
    ) -> Result<Option<Head>, NoMemory> {
        let Some(atoms) = atoms_at(self.alloc, state.known(), seen.images.as_slice())? else {
            return Ok(None);
        };
        let hash = hash_of(&seen.raw);
        let mut raw = seen.raw;
        raw.atoms = Items::of(atoms);
        let Some(made) = self.paths.state_of(&raw)? else {
            return Ok(None);
        };
        Ok(Some(Head {
            cut,
            raw,
            state: made,
            flags: seen.flags,
            hash,
            round: 1,
            turns: 0,
            is_fresh: true,
            stamp: self.next_stamp(),
            walked: Walked::new(self.alloc),
            is_stale: true,
            is_dropped: false,
            is_weak: false,
        }))
    }
}
