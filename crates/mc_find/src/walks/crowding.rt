// Cuts that would have too many heads.
use crate::matching::Step;
use crate::walks::Attempt;
use crate::walks::style::{Rung, first_rung, rung_up};
use mc_base::{NoMemory, PointId};

/// The least cut of a component climbs for another one where it has so many heads.
const SEVERAL: usize = 4;

impl Attempt<'_> {
    /// Whether a head of a cut has flags.
    fn has_flags(&self, cut: PointId) -> bool {
        for place in self.cuts.heads_of(cut) {
            if let Some(head) = self.heads.as_slice().get(*place) {
                if !head.flags.is_empty() {
                    return true;
                }
            }
        }
        false
    }

    /// The least cut of a component, where it is to climb for another one of that.
    fn climbing_for(&self, cut: PointId) -> Option<PointId> {
        let least = self.cuts.component(self.task.graph, cut);
        let own = self.cuts.find(least)?;
        let may_climb = own.is_at_first() && own.rung.step == Step::Plain;
        if least != cut && may_climb && self.heads_at(least) >= SEVERAL {
            Some(least)
        } else {
            None
        }
    }

    /// Lets a cut begin again at a rung.
    fn climb_to(&mut self, cut: PointId, rung: Rung) -> Result<(), NoMemory> {
        if let Some(own) = self.cuts.find_mut(cut) {
            own.begin_at(rung);
        }
        self.drop_heads_of(cut)
    }

    /// Makes room at a cut that would have too many heads, has had too many rounds, or took too many steps. Whether there is a
    /// way.
    pub fn relieve(&mut self, cut: PointId) -> Result<bool, NoMemory> {
        if let Some(own) = self.cuts.find_mut(cut) {
            own.was_crowded = true;
        }
        if let Some(least) = self.climbing_for(cut) {
            self.climb_to(least, first_rung(Step::Whole))?;
            return Ok(true);
        }
        let heads = if self.is_certain(cut) {
            0
        } else {
            self.style.heads
        };
        match rung_up(self.rung_at(cut), heads, self.has_flags(cut)) {
            Some(next) => {
                self.climb_to(cut, next)?;
                Ok(true)
            }
            None => self.blame(cut),
        }
    }
}
