//! Ranges of whole numbers, each from a low to a high end.

ghost use Rattle.std.specs.Prelude.{◌≡◌, ℤ, ◌+ℤ◌, ◌-ℤ◌, ◌*ℤ◌, ◌≤ℤ◌, ◌↔◌, IsTrue, All};
ghost use Rattle.std.specs.Int.{int_max, int_min};
ghost use Rattle.mc_base.specs.Ranges.Ends.{IsEnd, IsInt};
ghost use Rattle.mc_base.specs.Ranges.Thresholds.{WidensUp, WidensDown};

mod ends;

use ends::{GREATEST_INT, LEAST_INT, product, widened_down, widened_up};

/// The numbers from `lo` to `hi`, which are none where `lo` is above `hi`. Both ends are from -2^62 to 2^62.
#[derive(Clone, Copy, Debug, PartialEq, Eq)]
pub struct Range {
    pub lo: i64,
    pub hi: i64,
    pub ghost low_end: { IsEnd lo },
    pub ghost high_end: { IsEnd hi },
}

impl Range {
    ghost use Rattle.mc_base.specs.Ranges.Range.{Holds, IsEmpty, Includes, IsIntRange, IsLeastRange, IsLeastIntRange, InEither, IsOutcome, IsWithinInt};

    /// The numbers that lie in both.
    pub fn meet(self, other: Range) -> Range
        ensures exact { (number : ℤ) → Holds result number ↔ (Holds self number × Holds other number) }
        ensures low { result.lo ≡ int_max self.lo other.lo }
        ensures high { result.hi ≡ int_min self.hi other.hi }
    {
        Range {
            lo: self.lo.max(other.lo),
            hi: self.hi.min(other.hi),
        }
    }

    /// The least range that holds both. An empty one is ignored.
    pub fn hull(self, other: Range) -> Range
        ensures least { IsLeastRange (InEither self other) result }
        ensures left_empty { IsEmpty self → result ≡ other }
    {
        if self.lo > self.hi {
            return other;
        }
        if other.lo > other.hi {
            return self;
        }
        Range {
            lo: self.lo.min(other.lo),
            hi: self.hi.max(other.hi),
        }
    }

    /// Keeps each end that `new` does not pass, and moves the others to the nearest threshold at or past that end of
    /// `new`, or to the end of `int` where there is none.
    pub fn widen(self, new: Range, thresholds: &[i64]) -> Range
        requires old_int { IsIntRange self }
        requires new_int { IsIntRange new }
        requires ints { All IsInt thresholds.now }
        ensures low { WidensDown thresholds.now self.lo new.lo result.lo }
        ensures high { WidensUp thresholds.now self.hi new.hi result.hi }
        ensures int { IsIntRange result }
    {
        Range {
            lo: widened_down(self.lo, new.lo, thresholds),
            hi: widened_up(self.hi, new.hi, thresholds),
        }
    }

    /// The least range of all sums of a number of the one and a number of the other, or None where it leaves `int`.
    pub fn add(self, other: Range) -> Option<Range>
        requires left { IsIntRange self }
        requires right { IsIntRange other }
        ensures { IsLeastIntRange (IsOutcome (λ x y. x +ℤ y) self other) result }
    {
        Range::within_int(self.lo + other.lo, self.hi + other.hi)
    }

    /// The least range of all differences of a number of the one and a number of the other, or None where it leaves
    /// `int`.
    pub fn sub(self, other: Range) -> Option<Range>
        requires left { IsIntRange self }
        requires right { IsIntRange other }
        ensures { IsLeastIntRange (IsOutcome (λ x y. x -ℤ y) self other) result }
    {
        Range::within_int(self.lo - other.hi, self.hi - other.lo)
    }

    /// The least range of all products of a number of the one and a number of the other, or None where it leaves
    /// `int`.
    pub fn mul(self, other: Range) -> Option<Range>
        requires left { IsIntRange self }
        requires right { IsIntRange other }
        ensures { IsLeastIntRange (IsOutcome (λ x y. x *ℤ y) self other) result }
    {
        let low_low = product(self.lo, other.lo);
        let low_high = product(self.lo, other.hi);
        let high_low = product(self.hi, other.lo);
        let high_high = product(self.hi, other.hi);
        let lo = low_low.min(low_high).min(high_low.min(high_high));
        let hi = low_low.max(low_high).max(high_low.max(high_high));
        Range::within_int(lo, hi)
    }

    /// Whether each number of `other` lies in this range.
    pub fn includes(self, other: Range) -> bool
        ensures { IsTrue result ↔ Includes self other }
    {
        other.lo > other.hi || (self.lo <= other.lo && other.hi <= self.hi)
    }

    /// The range of two ends, where it lies in `int`.
    fn within_int(lo: i64, hi: i64) -> Option<Range>
        requires { lo ≤ℤ hi }
        ensures { IsWithinInt lo hi result }
    {
        if lo < LEAST_INT || GREATEST_INT < hi {
            None
        } else {
            Some(Range { lo, hi })
        }
    }
}
