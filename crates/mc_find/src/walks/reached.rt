// Heads to which branches come.
use crate::walks::heads::Head;
use crate::walks::walked::Walked;
use crate::walks::{Aim, Attempt};
use mc_base::{NoMemory, PointId};

/// Heads that are reached: marks of all that were met, and those whose targets are not marked yet.
#[derive(Drop)]
struct Reaching {
    marks: Vec<bool>,
    open: Vec<usize>,
}

impl Reaching {
    /// Marks the places of a list.
    fn mark(&mut self, places: &[usize]) -> Result<(), NoMemory> {
        for place in places {
            if let Some(slot) = self.marks.get_mut(*place) {
                if !*slot {
                    *slot = true;
                    self.open.push(*place)?;
                }
            }
        }
        Ok(())
    }
}

/// The turn of a head: where its cut's component stands in the program, and its cut, and when it came or changed.
#[derive(Clone, Copy)]
struct Turn {
    component: PointId,
    cut: PointId,
    stamp: u64,
}

/// Whether one turn comes before another.
fn is_before(one: Turn, other: Turn) -> bool {
    if one.component != other.component {
        return one.component.0 < other.component.0;
    }
    if one.cut != other.cut {
        return one.cut.0 < other.cut.0;
    }
    one.stamp < other.stamp
}

impl Attempt<'_> {
    /// For each head whether branches come to it from the entry, or from these heads.
    fn reached(&self, fresh: &[usize]) -> Result<Vec<bool>, NoMemory> {
        let mut reaching = Reaching {
            marks: vec![in self.alloc; false; self.heads.len()]?,
            open: Vec::new(self.alloc),
        };
        reaching.mark(self.entry.targets.as_slice())?;
        reaching.mark(fresh)?;
        for _ in 0..self.heads.len() {
            let Some(place) = reaching.open.pop() else {
                break;
            };
            if let Some(head) = self.heads.as_slice().get(place) {
                if !head.is_dropped {
                    reaching.mark(head.walked.targets.as_slice())?;
                }
            }
        }
        Ok(reaching.marks)
    }

    /// The turn of a head. For faults alone only the time counts.
    fn turn_of(&self, head: &Head) -> Turn {
        if self.aim == Aim::Faults {
            return Turn {
                component: PointId(0),
                cut: PointId(0),
                stamp: head.stamp,
            };
        }
        Turn {
            component: self.cuts.component(self.task.graph, head.cut),
            cut: head.cut,
            stamp: head.stamp,
        }
    }

    /// The head that is reached and from which branches have to be followed next: of those whose turn is first the oldest.
    pub fn next_reached(&self) -> Result<Option<usize>, NoMemory> {
        let marks = self.reached(&[])?;
        let mut best: Option<(usize, Turn)> = None;
        for (place, is_reached) in marks.as_slice().iter().enumerate() {
            if !*is_reached {
                continue;
            }
            let Some(head) = self.heads.as_slice().get(place) else {
                continue;
            };
            if !head.is_stale || head.is_dropped {
                continue;
            }
            let turn = self.turn_of(head);
            let is_best = match best {
                Some(found) => is_before(turn, found.1),
                None => true,
            };
            if is_best {
                best = Some((place, turn));
            }
        }
        match best {
            Some(found) => Ok(Some(found.0)),
            None => Ok(None),
        }
    }

    /// Has what jumps to a head followed again.
    pub fn follow_again(&mut self, place: usize) {
        if self.entry.targets.as_slice().contains(&place) {
            self.is_entry_stale = true;
        }
        for head in self.heads.as_mut_slice() {
            if head.walked.targets.as_slice().contains(&place) {
                head.is_stale = true;
            }
        }
    }

    /// Drops a head, and has what jumps to it followed again.
    pub fn forget_head(&mut self, place: usize) {
        let none = Walked::new(self.alloc);
        if let Some(head) = self.heads.get_mut(place) {
            head.is_dropped = true;
            head.walked = none;
            if let Some(cut) = self.cuts.find_mut(head.cut) {
                cut.forget(place);
            }
        }
        self.follow_again(place);
    }

    /// The places of the heads of a cut, copied.
    fn places_at(&self, cut: PointId) -> Result<Vec<usize>, NoMemory> {
        Vec::from_slice(self.alloc, self.cuts.heads_of(cut))
    }

    /// Drops the heads of a cut.
    pub fn drop_heads_of(&mut self, cut: PointId) -> Result<(), NoMemory> {
        for place in self.places_at(cut)?.as_slice() {
            self.forget_head(*place);
        }
        Ok(())
    }

    /// Drops the heads of cuts at marked points.
    pub fn drop_heads_at(&mut self, marks: &[bool]) -> Result<(), NoMemory> {
        for cut in self.cuts.points(self.alloc)?.as_slice() {
            if marks.get(cut.0 as usize).copied().unwrap_or(false) {
                self.drop_heads_of(*cut)?;
            }
        }
        Ok(())
    }

    /// Drops the heads of a cut that are not reached from the entry, or from these heads.
    pub fn drop_unreached(&mut self, cut: PointId, fresh: &[usize]) -> Result<(), NoMemory> {
        let marks = self.reached(fresh)?;
        for place in self.places_at(cut)?.as_slice() {
            if !marks.as_slice().get(*place).copied().unwrap_or(false) {
                self.forget_head(*place);
            }
        }
        Ok(())
    }

    /// Drops all heads that are not reached from the entry.
    pub fn keep_reached(&mut self) -> Result<(), NoMemory> {
        let marks = self.reached(&[])?;
        for (place, head) in self.heads.as_mut_slice().iter_mut().enumerate() {
            if !marks.as_slice().get(place).copied().unwrap_or(false) {
                head.is_dropped = true;
            }
        }
        Ok(())
    }
}
