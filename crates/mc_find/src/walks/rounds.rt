// How often is walked from a state of a cut.
ghost use Rattle.std.specs.Prelude.{All};
ghost use Rattle.mc_base.specs.Ranges.Ends.{IsInt};

use crate::walks::Attempt;
use mc_base::PointId;

/// The most steps that are spent on walks from one cut by one plan, if these are not more: so many for each point.
const SPENT: u64 = 40_000;

/// How many steps may be spent for each point.
const SPENT_EACH: u64 = 50;

impl<'a> Attempt<'a> {
    /// The next stamp.
    pub fn next_stamp(&mut self) -> u64 {
        self.stamp = self.stamp.saturating_add(1);
        self.stamp
    }

    /// The numbers at which ranges stop that are widened, of a head that has had so many rounds: none where most of them are
    /// over, so that it comes to rest.
    pub fn thresholds(&self, turns: u64) -> &'a [i64]
        ensures { All IsInt result.now }
    {
        if turns < self.limits.rounds.saturating_sub(self.limits.rounds / 3) {
            self.paths.thresholds()
        } else {
            &[]
        }
    }

    /// Whether too many steps were spent on walks from a cut.
    fn is_spent(&self, cut: PointId) -> bool {
        let points = self.task.graph.size() as u64;
        let most = points.saturating_mul(SPENT_EACH).max(SPENT);
        match self.cuts.find(cut) {
            Some(own) => own.spent > most && !own.rung.loses,
            None => false,
        }
    }

    /// Counts a round of a head that is walked from, if it is new or has changed. Its cut, where the head has had all its
    /// rounds, or the cut too many steps.
    pub fn overdue(&mut self, place: usize) -> Option<PointId> {
        let head = self.heads.get_mut(place)?;
        if head.is_fresh {
            head.is_fresh = false;
            head.turns = head.turns.saturating_add(1);
        }
        let cut = head.cut;
        let is_over = head.turns > self.limits.rounds;
        if is_over || self.is_spent(cut) {
            Some(cut)
        } else {
            None
        }
    }
}
