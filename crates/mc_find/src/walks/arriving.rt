// Branches that come to a cut.
use crate::matching::{Step, Trail, shrink};
use crate::walks::heads::joint_atoms;
use crate::walks::walked::Walked;
use crate::walks::walking::Way;
use crate::walks::{Aim, Attempt};
use mc_base::{EdgeId, Items, NoMemory, NodeId, PointId};
use mc_check_line::jump::fits;
use mc_find_view::sight::Seen;
use mc_lines::cert::Line;
use mc_symbolic::State;

/// The most folds of one state.
const FOLDS: usize = 200;

/// Where a branch lands: the head, the images of its nodes and the edges for its edges, and how the walk goes on.
#[derive(Drop)]
pub struct Landing {
    pub head: usize,
    pub images: Vec<NodeId>,
    pub edges: Vec<EdgeId>,
    pub way: Way,
}

/// Ends a branch by the jump to where it lands, after the lines of its trail.
pub fn jump(landing: Landing, trail: &mut Trail<'_>, walked: &mut Walked) -> Result<Way, NoMemory> {
    trail.hand_over(&mut walked.lines)?;
    let line = Line::L13(
        landing.head as u64,
        Items::of(landing.images),
        Items::of(landing.edges),
    );
    walked.jump(landing.head, line)?;
    Ok(landing.way)
}

impl Attempt<'_> {
    /// Whether a cut has as many heads as it may.
    fn is_crowded(&self, cut: PointId) -> bool {
        !self.rung_at(cut).loses && self.heads_at(cut) >= self.plan_at(cut).keys
    }

    /// A new head of what was seen.
    /// Those of the cut that are not reached, also not from these heads, make room.
    pub fn add_head(
        &mut self,
        cut: PointId,
        state: &State,
        seen: Seen,
        fresh: &[usize],
    ) -> Result<Way, NoMemory> {
        if self.is_crowded(cut) {
            self.drop_unreached(cut, fresh)?;
            if self.is_crowded(cut) {
                return Ok(Way::Crowded(cut));
            }
        }
        let Some(head) = self.head_of(cut, state, seen)? else {
            return Ok(Way::Stuck);
        };
        self.push_head(head)?;
        if self.rung_at(cut).step == Step::Match {
            return self.absorb(cut);
        }
        Ok(Way::On)
    }

    /// Joins what is known at an arrival into a head.
    fn join_into(
        &mut self,
        place: usize,
        state: &State,
        images: &[NodeId],
    ) -> Result<Way, NoMemory> {
        let stamp = self.next_stamp();
        let turns = match self.heads.as_slice().get(place) {
            Some(head) => head.turns,
            None => return Ok(Way::Stuck),
        };
        let thresholds = self.thresholds(turns);
        let Some(head) = self.heads.get_mut(place) else {
            return Ok(Way::Stuck);
        };
        head.round = head.round.saturating_add(1);
        head.is_fresh = true;
        head.stamp = stamp;
        let known = state.known();
        let joint = joint_atoms(
            self.alloc,
            thresholds,
            &head.state,
            known,
            images,
            head.round,
        )?;
        let Some(atoms) = joint else {
            return Ok(Way::Stuck);
        };
        head.raw.atoms = Items::of(atoms);
        let Some(made) = self.paths.state_of(&head.raw)? else {
            return Ok(Way::Stuck);
        };
        head.state = made;
        head.is_stale = true;
        Ok(Way::On)
    }

    /// Lets a head take an arrival of its shape.
    pub fn meet_head(
        &mut self,
        place: usize,
        state: &State,
        images: &[NodeId],
        edges: &[EdgeId],
    ) -> Result<Way, NoMemory> {
        let unmet = match self.heads.as_slice().get(place) {
            Some(head) => fits(state, &head.state, images, edges),
            None => return Ok(Way::Stuck),
        };
        match unmet {
            None => Ok(Way::On),
            Some(8) => self.join_into(place, state, images),
            Some(_) => Ok(Way::Stuck),
        }
    }

    /// Counts what folding a state takes, as so many lines more; whether that is left.
    pub fn charge(&mut self, state: &State) -> bool {
        let edges = state.edges().len() as u64;
        let work = edges.saturating_mul(edges).saturating_mul(edges) / 64;
        self.spend(work);
        self.walk_left > 0
    }

    /// Folds a state at a cut as far as it goes.
    fn fold_whole(&self, cut: PointId, trail: &mut Trail<'_>) -> Result<(), NoMemory> {
        for round in 0..FOLDS {
            if !shrink(self.alloc, self.manner(cut), cut, trail, round == 0)? {
                return Ok(());
            }
        }
        Ok(())
    }

    /// What is seen of a state at a cut, and the head of that shape, if one is there.
    fn look_for_head(
        &self,
        cut: PointId,
        trail: &Trail<'_>,
    ) -> Result<Option<(Seen, Option<usize>)>, NoMemory> {
        let Some(state) = trail.state() else {
            return Ok(None);
        };
        let seen = self.look_at(cut, state)?;
        let found = self.head_like(cut, &seen, None);
        Ok(Some((seen, found)))
    }

    /// Whether a head of a cut has as many edges as a state.
    fn has_head_as_long(&self, cut: PointId, trail: &Trail<'_>) -> bool {
        let Some(state) = trail.state() else {
            return false;
        };
        let count = state.edges().len();
        self.cuts.heads_of(cut).iter().any(|place| match self.heads.as_slice().get(*place) {
            Some(head) => head.raw.edges.len() == count,
            None => false,
        })
    }

    /// Folds a state at a cut until it has the shape of a head that is there, or as far as it goes. What is seen of it then, and
    /// that head.
    fn fold_to_head(
        &self,
        cut: PointId,
        trail: &mut Trail<'_>,
    ) -> Result<Option<(Seen, Option<usize>)>, NoMemory> {
        for round in 0..FOLDS {
            if self.has_head_as_long(cut, trail) {
                let looked = self.look_for_head(cut, trail)?;
                if let Some((seen, found)) = looked {
                    if found.is_some() {
                        return Ok(Some((seen, found)));
                    }
                }
            }
            if !shrink(self.alloc, self.manner(cut), cut, trail, round == 0)? {
                break;
            }
        }
        self.look_for_head(cut, trail)
    }

    /// Folds a state, and lands at a head.
    fn land_any(
        &mut self,
        cut: PointId,
        trail: &mut Trail<'_>,
        fresh: &[usize],
    ) -> Result<Option<Landing>, NoMemory> {
        let Some((seen, found)) = self.fold_to_head(cut, trail)? else {
            return Ok(None);
        };
        if let Some(place) = found {
            return match trail.state() {
                Some(state) => Ok(Some(self.land(place, state, &seen)?)),
                None => Ok(None),
            };
        }
        if let Some(landing) = self.fit_head(cut, &seen, trail)? {
            return Ok(Some(landing));
        }
        match trail.state() {
            Some(state) => Ok(Some(self.land_new(cut, state, seen, fresh)?)),
            None => Ok(None),
        }
    }

    /// Ends the first branch, which has come to a cut: its state is folded, and a head takes it.
    fn fold_and_land(&mut self, cut: PointId, walked: &mut Walked) -> Result<Way, NoMemory> {
        let mut trail = Trail::new(self.alloc, self.paths.split()?);
        match trail.state() {
            Some(state) => {
                if !self.charge(state) {
                    return Ok(Way::TooLong);
                }
            }
            None => return Ok(Way::Stuck),
        }
        if self.rung_at(cut).loses {
            self.fold_whole(cut, &mut trail)?;
            return self.arrive_losing(cut, &mut trail, walked);
        }
        let Some(landing) = self.land_any(cut, &mut trail, walked.targets.as_slice())? else {
            return Ok(Way::Stuck);
        };
        jump(landing, &mut trail, walked)
    }

    /// Ends the first branch, which has come to a cut.
    pub fn arrive(&mut self, cut: PointId, walked: &mut Walked) -> Result<Way, NoMemory> {
        if self.aim == Aim::Faults {
            self.meet(cut, walked)
        } else {
            self.fold_and_land(cut, walked)
        }
    }

    /// Lands at a head of the same shape.
    pub fn land(&mut self, head: usize, state: &State, seen: &Seen) -> Result<Landing, NoMemory> {
        let images = Vec::from_slice(self.alloc, seen.images.as_slice())?;
        let edges = Vec::from_slice(self.alloc, seen.edges.as_slice())?;
        let way = self.meet_head(head, state, images.as_slice(), edges.as_slice())?;
        Ok(Landing {
            head,
            images,
            edges,
            way,
        })
    }

    /// Lands at a new head.
    pub fn land_new(
        &mut self,
        cut: PointId,
        state: &State,
        seen: Seen,
        fresh: &[usize],
    ) -> Result<Landing, NoMemory> {
        let images = Vec::from_slice(self.alloc, seen.images.as_slice())?;
        let edges = Vec::from_slice(self.alloc, seen.edges.as_slice())?;
        let head = self.heads.len();
        let way = self.add_head(cut, state, seen, fresh)?;
        Ok(Landing {
            head,
            images,
            edges,
            way,
        })
    }
}
