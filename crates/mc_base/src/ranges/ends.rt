// Ends of ranges.
ghost use Rattle.std.specs.Prelude.{◌≡◌, ℤ, ◌*ℤ◌, ◌≤ℤ◌, ◌<ℤ◌, All};
ghost use Rattle.mc_base.specs.Ranges.Ends.{IsInt};
ghost use Rattle.mc_base.specs.Ranges.Thresholds.{IsNearestAbove, IsNearestBelow, WidensUp, WidensDown};

pub const LEAST_INT: i64 = -2147483648;

pub const GREATEST_INT: i64 = 2147483647;

/// The product of two `int`s.
pub fn product(x: i64, y: i64) -> i64
    requires left { IsInt x }
    requires right { IsInt y }
    ensures { result ≡ x *ℤ y }
{
    x * y
}

/// The nearest threshold at or above a number.
fn nearest_above(number: i64, thresholds: &[i64]) -> i64
    requires int { IsInt number }
    requires ints { All IsInt thresholds.now }
    ensures nearest { IsNearestAbove thresholds.now number result }
    ensures int { IsInt result }
{
    let mut nearest = GREATEST_INT;
    for threshold in thresholds {
        if number <= *threshold {
            nearest = nearest.min(*threshold);
        }
    }
    nearest
}

/// The nearest threshold at or below a number.
fn nearest_below(number: i64, thresholds: &[i64]) -> i64
    requires int { IsInt number }
    requires ints { All IsInt thresholds.now }
    ensures nearest { IsNearestBelow thresholds.now number result }
    ensures int { IsInt result }
{
    let mut nearest = LEAST_INT;
    for threshold in thresholds {
        if *threshold <= number {
            nearest = nearest.max(*threshold);
        }
    }
    nearest
}

/// The high end after widening.
pub fn widened_up(old: i64, new: i64, thresholds: &[i64]) -> i64
    requires old_int { IsInt old }
    requires new_int { IsInt new }
    requires ints { All IsInt thresholds.now }
    ensures widens { WidensUp thresholds.now old new result }
    ensures int { IsInt result }
    ensures not_below { old ≤ℤ result }
{
    if new <= old {
        old
    } else {
        nearest_above(new, thresholds)
    }
}

/// The low end after widening.
pub fn widened_down(old: i64, new: i64, thresholds: &[i64]) -> i64
    requires old_int { IsInt old }
    requires new_int { IsInt new }
    requires ints { All IsInt thresholds.now }
    ensures widens { WidensDown thresholds.now old new result }
    ensures int { IsInt result }
    ensures not_above { result ≤ℤ old }
{
    if old <= new {
        old
    } else {
        nearest_below(new, thresholds)
    }
}
