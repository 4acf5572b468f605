// Heads of another shape.
use crate::matching::{Paths, Step, Trail, find_fit, note};
use crate::walks::Attempt;
use crate::walks::arriving::Landing;
use crate::walks::walking::Way;
use mc_base::{NoMemory, PointId};
use mc_find_view::sight::Seen;
use mc_state::RawState;
use mc_state::graph::Edge;

/// So many steps it counts to try whether a state fits a head.
const FIT: u64 = 4;

/// So many more each try counts for each argument of the head's edges, as most of its time goes into finding these.
const ARGUMENT: u64 = 12;

/// How many arguments an edge has.
fn arguments_of(edge: &Edge) -> u64 {
    match edge {
        Edge::Block { .. } => 0,
        Edge::Ind { args, .. } => args.len() as u64,
        Edge::Seg { args, .. } => args.len() as u64,
    }
}

/// How many arguments the edges of a head have.
fn all_arguments(head: &RawState) -> u64 {
    let mut count: u64 = 0;
    for edge in head.edges.as_slice() {
        count = count.saturating_add(arguments_of(edge));
    }
    count
}

impl<'a> Attempt<'a> {
    /// Lets a state fit a head, by folds that are added to the trail. None where it does not.
    fn fit_to(
        &mut self,
        place: usize,
        cut: PointId,
        reached: &[bool],
        trail: &mut Trail<'_>,
    ) -> Result<Option<Landing>, NoMemory> {
        let manner = self.manner(cut);
        self.spend(FIT);
        let Some(head) = self.heads.as_slice().get(place) else {
            return Ok(None);
        };
        let Some(state) = trail.state() else {
            return Ok(None);
        };
        let found = find_fit(
            self.alloc,
            manner,
            state,
            cut,
            reached,
            &head.raw,
            self.style.nulls,
        )?;
        let each = ARGUMENT.saturating_mul(all_arguments(&head.raw));
        self.spend(found.tries.saturating_mul(each));
        let Some(own) = found.fit else {
            return Ok(None);
        };
        note(trail)?;
        let defs = self.task.sight.defs;
        let Some(head) = self.heads.as_slice().get(place) else {
            return Ok(None);
        };
        let kinds = head.raw.kinds.as_slice();
        let Some(edges) = own.make_edges(self.alloc, defs, trail)? else {
            return Ok(None);
        };
        let Some(images) = own.name_images(self.alloc, trail, kinds)? else {
            return Ok(None);
        };
        let Some(folded) = trail.state() else {
            return Ok(None);
        };
        let way = self.meet_head(place, folded, images.as_slice(), edges.as_slice())?;
        Ok(Some(Landing {
            head: place,
            images,
            edges,
            way,
        }))
    }

    /// Lets a state at a cut fit one of its heads, where states may.
    pub fn fit_head(
        &mut self,
        cut: PointId,
        seen: &Seen,
        trail: &mut Trail<'_>,
    ) -> Result<Option<Landing>, NoMemory> {
        if self.rung_at(cut).step != Step::Match {
            return Ok(None);
        }
        for place in 0..self.heads.len() {
            if self.may_fit(place, cut, seen) {
                let found = self.fit_to(place, cut, seen.used.as_slice(), trail)?;
                if found.is_some() {
                    return Ok(found);
                }
            }
        }
        Ok(None)
    }

    /// Whether a head is one of a cut, with these constants.
    fn may_fit(&self, place: usize, cut: PointId, seen: &Seen) -> bool {
        match self.heads.as_slice().get(place) {
            Some(head) => {
                !head.is_dropped
                    && head.cut == cut
                    && head.raw.whole == seen.raw.whole
                    && head.flags.as_slice() == seen.flags.as_slice()
            }
            None => false,
        }
    }

    /// Lets the newest head of a cut take the others that fit it. What jumped to one that it takes is followed again.
    pub fn absorb(&mut self, cut: PointId) -> Result<Way, NoMemory> {
        let Some(newest) = self.heads.len().checked_sub(1) else {
            return Ok(Way::On);
        };
        for place in 0..newest {
            let way = self.absorb_one(place, newest, cut)?;
            if way != Way::On {
                return Ok(way);
            }
        }
        Ok(Way::On)
    }

    /// The branch at a head alone. None where it was dropped, or is of another cut.
    fn alone(&self, place: usize, cut: PointId) -> Result<Option<Paths<'a>>, NoMemory> {
        let Some(head) = self.heads.as_slice().get(place) else {
            return Ok(None);
        };
        if head.is_dropped || head.cut != cut {
            return Ok(None);
        }
        let mut paths = self.paths.empty();
        if paths.enter_at(cut, &head.raw)? {
            Ok(Some(paths))
        } else {
            Ok(None)
        }
    }

    /// Lets a head take another of its cut, if it fits.
    fn absorb_one(&mut self, place: usize, newest: usize, cut: PointId) -> Result<Way, NoMemory> {
        let Some(paths) = self.alone(place, cut)? else {
            return Ok(Way::On);
        };
        let mut trail = Trail::new(self.alloc, paths);
        let Some(state) = trail.state() else {
            return Ok(Way::On);
        };
        let seen = self.look_at(cut, state)?;
        if !self.may_fit(newest, cut, &seen) {
            return Ok(Way::On);
        }
        let found = self.fit_to(newest, cut, seen.used.as_slice(), &mut trail)?;
        let Some(landing) = found else {
            return Ok(Way::On);
        };
        if landing.way == Way::On {
            self.forget_head(place);
        }
        Ok(landing.way)
    }
}
