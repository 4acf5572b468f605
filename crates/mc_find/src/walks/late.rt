// Cuts that are added where branches come together too often.
use crate::walks::Attempt;
use crate::walks::walked::Walked;
use crate::walks::walking::Way;
use mc_base::{NoMemory, PointId};

/// A point that one walk passes so often becomes a cut, or one before it.
const OFTEN: u64 = 16;

/// A point may become a cut that was passed so often at least.
const SOME: u64 = 3;

impl Attempt<'_> {
    /// Passes a point that does nothing, once more in this walk.
    pub fn pass(&mut self, walked: &mut Walked, point: PointId) -> Result<Way, NoMemory> {
        if !self.cuts_late || self.cuts.has(point) {
            return Ok(Way::On);
        }
        let Some(slot) = self.passed.get_mut(point.0 as usize) else {
            return Ok(Way::On);
        };
        if *slot == 0 {
            walked.skips.push(point)?;
        }
        *slot = slot.saturating_add(1);
        if *slot < OFTEN {
            return Ok(Way::On);
        }
        Ok(Way::Passed(self.first_passed(walked, point)))
    }

    /// The least point that was passed often enough, if none before a point was that point.
    fn first_passed(&self, walked: &Walked, point: PointId) -> PointId {
        let mut least = point;
        for own in walked.skips.as_slice() {
            let count = self
                .passed
                .as_slice()
                .get(own.0 as usize)
                .copied()
                .unwrap_or(0);
            if count >= SOME && own.0 < least.0 {
                least = *own;
            }
        }
        least
    }

    /// Makes a point a cut. Branches that passed it are followed again.
    pub fn cut_late(&mut self, point: PointId) -> Result<bool, NoMemory> {
        if self.cuts.has(point) {
            return Ok(false);
        }
        let plan = self.first_plan();
        self.cuts
            .add(self.alloc, self.task.graph, point, plan, self.style.rung)?;
        if self.entry.skips.as_slice().contains(&point) {
            self.is_entry_stale = true;
        }
        for head in self.heads.as_mut_slice() {
            if head.walked.skips.as_slice().contains(&point) {
                head.is_stale = true;
            }
        }
        Ok(true)
    }
}
