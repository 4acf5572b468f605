// Equalities that are entailed on both sides.
ghost use Rattle.std.specs.Prelude.{◌≡◌, ◌-ℤ◌, ◌<◌, IfOk, MatchOption, length};
ghost use Rattle.mc_base.specs.declared.plain.Atom.TheVariants.{Eq};
ghost use Rattle.mc_pure.specs.Pure.{IsNode, IsOffset};
ghost use Rattle.mc_pure.specs.Derived.{IsFalse};
ghost use Rattle.mc_pure_ops.specs.Canon.Order.{GivesAtMost};
ghost use Rattle.mc_pure_ops.specs.Join.Gains.{Gains};
ghost use Rattle.mc_pure_ops.specs.Join.Parts.{AreThere, IsDistance, EqualityAt, Below};

use crate::join::gains::put_some;
use crate::join::nodes::node_at;
use mc_base::{Atom, NoMemory, NodeId};
use mc_pure::{ClassPlace, Pure};

/// By how much more a node is than another.
#[derive(Clone, Copy)]
pub struct Shift {
    pub by: i64,
}

/// The shift by this number.
fn shift_of(by: i64) -> Shift
    ensures { result.by ≡ by }
{
    Shift { by }
}

/// The difference of two offsets, where it is a number of 64 bits.
fn difference(first: &ClassPlace, second: &ClassPlace) -> Option<Shift>
    ensures { MatchOption result (IsOffset (first.now.offset -ℤ second.now.offset) → ⊥)
        (λ d. d.by ≡ first.now.offset -ℤ second.now.offset) }
{
    match first.offset.checked_sub(second.offset) {
        Some(by) => Some(shift_of(by)),
        None => None,
    }
}

/// By how much more the first node is, where the nodes are of one class.
fn distance(pure: &Pure, first: NodeId, second: NodeId) -> Option<Shift>
    requires not_false { IsFalse pure.now → ⊥ }
    requires first { IsNode pure.now.kinds first }
    requires second { IsNode pure.now.kinds second }
    ensures { IsDistance pure.now first second result }
{
    let one = pure.class_of(first);
    let other = pure.class_of(second);
    if one.least.0 != other.least.0 {
        return None;
    }
    difference(&one, &other)
}

/// That the first node is the second and a number more.
fn equal_by(first: NodeId, second: NodeId, shift: &Shift) -> Atom
    ensures { result ≡ Eq first second shift.now.by }
{
    Atom::Eq(first, second, shift.by)
}

/// The equality of two pairs.
fn equality(
    left: &Pure,
    right: &Pure,
    pairs: &[(NodeId, NodeId)],
    i: usize,
    j: usize,
) -> Option<Atom>
    requires left_true { IsFalse left.now → ⊥ }
    requires right_true { IsFalse right.now → ⊥ }
    requires there { AreThere left.now right.now pairs.now }
    requires first { i < length pairs.now }
    requires second { j < length pairs.now }
    ensures { GivesAtMost (EqualityAt left.now right.now pairs.now i j) result }
{
    let Some(by) = distance(left, pairs[i].0, pairs[j].0) else {
        return None;
    };
    if !right.entails(&equal_by(pairs[i].1, pairs[j].1, &by)) {
        return None;
    }
    Some(equal_by(node_at(i), node_at(j), &by))
}

/// Writes down the equalities of a pair with those before it.
fn put_equalities_of(
    joint: &mut Pure,
    left: &Pure,
    right: &Pure,
    pairs: &[(NodeId, NodeId)],
    i: usize,
) -> Result<(), NoMemory>
    requires left_true { IsFalse left.now → ⊥ }
    requires right_true { IsFalse right.now → ⊥ }
    requires there { AreThere left.now right.now pairs.now }
    requires first { i < length pairs.now }
    ensures { IfOk result (λ _. Gains (Below (EqualityAt left.now right.now pairs.now i) i) joint.old joint.new) }
{
    for j in 0..i {
        put_some(joint, equality(left, right, pairs, i, j))?;
    }
    Ok(())
}

/// Writes down the equalities of all pairs.
pub fn put_equalities(
    joint: &mut Pure,
    left: &Pure,
    right: &Pure,
    pairs: &[(NodeId, NodeId)],
) -> Result<(), NoMemory>
    requires left_true { IsFalse left.now → ⊥ }
    requires right_true { IsFalse right.now → ⊥ }
    requires there { AreThere left.now right.now pairs.now }
    ensures { IfOk result (λ _. Gains (Below (λ i. Below (EqualityAt left.now right.now pairs.now i) i)
        (length pairs.now)) joint.old joint.new) }
{
    for i in 0..pairs.len() {
        put_equalities_of(joint, left, right, pairs, i)?;
    }
    Ok(())
}
