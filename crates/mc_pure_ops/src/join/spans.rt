// Hulls of ranges.
ghost use Rattle.std.specs.Prelude.{◌≡◌, ◌<◌, true, false, All, IfOk, length};
ghost use Rattle.mc_base.specs.declared.plain.Atom.TheVariants.{In};
ghost use Rattle.std.specs.Int.{int_max, int_min};
ghost use Rattle.mc_base.specs.Ranges.Ends.{IsInt};
ghost use Rattle.mc_base.specs.Ranges.Range.{IsEmpty, IsIntRange};
ghost use Rattle.mc_pure.specs.Derived.{IsFalse};
ghost use Rattle.mc_pure_ops.specs.Canon.Order.{GivesAtMost};
ghost use Rattle.mc_pure_ops.specs.Join.Joint.{AreJoinable, IsJointRange, IsLate};
ghost use Rattle.mc_pure_ops.specs.Join.Gains.{Gains};
ghost use Rattle.mc_pure_ops.specs.Join.Parts.{AreThere, RangeAt, Below};

use crate::join::gains::put_some;
use crate::join::nodes::{kind_of_pair, node_at};
use mc_base::ranges::Range;
use mc_base::{Atom, Kind, NoMemory, NodeId};
use mc_pure::Pure;

/// The hull of two ranges.
fn hull(one: &Range, other: &Range) -> Range
    requires one { IsEmpty one.now → ⊥ }
    requires other { IsEmpty other.now → ⊥ }
    ensures lo { result.lo ≡ int_min one.now.lo other.now.lo }
    ensures hi { result.hi ≡ int_max one.now.hi other.now.hi }
{
    one.hull(*other)
}

/// Whether ranges of the kind are widened in this pass.
fn is_late(kind: Kind, round: u64) -> bool
    ensures yes { result ≡ true → IsLate kind round }
    ensures no { result ≡ false → IsLate kind round → ⊥ }
{
    match kind {
        Kind::Int => 3 <= round,
        Kind::Ptr => false,
    }
}

/// The hull of two ranges, or the first one widened to it.
fn joint_range(kind: Kind, round: u64, thresholds: &[i64], one: &Range, other: &Range) -> Range
    requires one { IsEmpty one.now → ⊥ }
    requires other { IsEmpty other.now → ⊥ }
    requires one_int { IsLate kind round → IsIntRange one.now }
    requires other_int { IsLate kind round → IsIntRange other.now }
    requires ints { All IsInt thresholds.now }
    ensures { IsJointRange kind round thresholds.now one.now.lo one.now.hi other.now.lo other.now.hi result.lo result.hi }
{
    let both = hull(one, other);
    if is_late(kind, round) {
        one.widen(both, thresholds)
    } else {
        both
    }
}

/// That a node lies in a range.
fn range_of(node: NodeId, range: &Range) -> Atom
    ensures { result ≡ In node range.now.lo range.now.hi }
{
    Atom::In(node, range.lo, range.hi)
}

/// The range of a pair.
fn range(
    left: &Pure,
    right: &Pure,
    pairs: &[(NodeId, NodeId)],
    round: u64,
    thresholds: &[i64],
    i: usize,
) -> Option<Atom>
    requires left_true { IsFalse left.now → ⊥ }
    requires right_true { IsFalse right.now → ⊥ }
    requires joinable { AreJoinable left.now right.now pairs.now }
    requires there { AreThere left.now right.now pairs.now }
    requires ints { All IsInt thresholds.now }
    requires first { i < length pairs.now }
    ensures { GivesAtMost (RangeAt left.now right.now pairs.now round thresholds.now i) result }
{
    let Some(kind) = kind_of_pair(left, right, &pairs[i]) else {
        return None;
    };
    let one = left.range(pairs[i].0);
    let other = right.range(pairs[i].1);
    let both = joint_range(kind, round, thresholds, &one, &other);
    Some(range_of(node_at(i), &both))
}

/// Writes down the ranges of all pairs.
pub fn put_ranges(
    joint: &mut Pure,
    left: &Pure,
    right: &Pure,
    pairs: &[(NodeId, NodeId)],
    round: u64,
    thresholds: &[i64],
) -> Result<(), NoMemory>
    requires left_true { IsFalse left.now → ⊥ }
    requires right_true { IsFalse right.now → ⊥ }
    requires joinable { AreJoinable left.now right.now pairs.now }
    requires there { AreThere left.now right.now pairs.now }
    requires ints { All IsInt thresholds.now }
    ensures { IfOk result (λ _. Gains (Below (RangeAt left.now right.now pairs.now round thresholds.now)
        (length pairs.now)) joint.old joint.new) }
{
    for i in 0..pairs.len() {
        put_some(joint, range(left, right, pairs, round, thresholds, i))?;
    }
    Ok(())
}
