// What an attempt is for, and how it folds.
ghost use Rattle.std.specs.Prelude.{◌≡◌};

use crate::matching::Step;
use crate::walks::graph::Graph;
use mc_base::{PointId, PredId};
use mc_find_view::live::Asserted;
use mc_find_view::sight::Sight;

/// How much an attempt may take: states of a cut, and rounds of a cut; and whether the points where the two ways of an `if`
/// meet are cuts too. A round of a state is one walk from it where it is new or has
/// changed since.
#[derive(Clone, Copy, Debug, PartialEq, Eq)]
pub struct Limits {
    pub keys: usize,
    pub rounds: u64,
    pub merge: bool,
}

/// What an attempt is for.
#[derive(Clone, Copy, PartialEq, Eq)]
pub enum Aim {
    /// A certificate: where an instruction lacks something, a cut before it is folded otherwise.
    Certificate,
    /// A chain of one pass: where an instruction lacks something the branch is blocked, and the others go on.
    Chain,
    /// The faults that are met before anything is folded: each arrival at a cut becomes a head of its own.
    Faults,
}

/// A rung of the ladder that is climbed at a cut: how far folding goes, whether a head loses what an arrival lacks, and
/// whether heads with other values of flags count as one.
#[derive(Clone, Copy)]
pub struct Rung {
    pub step: Step,
    pub loses: bool,
    pub is_blind: bool,
}

/// How an attempt folds: where each cut begins on the ladder, how many heads a cut has where they lose (0: none does), and
/// whether null fits where a head has a structure that may be empty.
#[derive(Clone, Copy)]
pub struct Style {
    pub rung: Rung,
    pub heads: usize,
    pub nulls: bool,
}

/// What each attempt goes by: the program as it is looked at, its points, which of them reach one that asks that nothing is
/// allocated, the predicates in the order in which they are wanted, those that the program asserts, and the cuts with which
/// it begins.
#[derive(Clone, Copy)]
pub struct Task<'a> {
    pub sight: Sight<'a>,
    pub graph: &'a Graph,
    pub empties: &'a [bool],
    pub wanted: &'a [PredId],
    pub asserted: &'a [Asserted],
    pub cuts: &'a [PointId],
}

impl<'a> Task<'a> {
    /// The same, with other predicates in another order.
    pub fn wanting(self, wanted: &'a [PredId]) -> Task<'a>
        ensures flow { result.sight.flow.now ≡ self.entry.sight.flow.now }
        ensures defs { result.sight.defs.now ≡ self.entry.sight.defs.now }
    {
        Task {
            sight: self.sight,
            graph: self.graph,
            empties: self.empties,
            wanted,
            asserted: self.asserted,
            cuts: self.cuts,
        }
    }
}

/// The rung on which an attempt begins that folds so far.
pub const fn first_rung(step: Step) -> Rung {
    Rung {
        step,
        loses: false,
        is_blind: false,
    }
}

/// The rung on which heads with other values of flags count as one.
const fn blind_rung() -> Rung {
    Rung {
        step: Step::Whole,
        loses: false,
        is_blind: true,
    }
}

/// The rung on which heads lose what an arrival lacks, where they may.
fn losing_rung(heads: usize) -> Option<Rung> {
    if heads == 0 {
        return None;
    }
    Some(Rung {
        step: Step::Coarse,
        loses: true,
        is_blind: false,
    })
}

/// The next rung of the ladder, where heads may lose if they are so many, and there are flags. The last one is never left.
pub fn rung_up(rung: Rung, heads: usize, has_flags: bool) -> Option<Rung> {
    if rung.loses {
        return None;
    }
    if rung.is_blind {
        return losing_rung(heads);
    }
    match rung.step {
        Step::Plain => Some(first_rung(Step::Whole)),
        Step::Whole => Some(first_rung(Step::Coarse)),
        Step::Coarse => Some(first_rung(Step::Match)),
        Step::Match => {
            if has_flags {
                Some(blind_rung())
            } else {
                losing_rung(heads)
            }
        }
    }
}
