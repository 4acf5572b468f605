//! What is known on both sides of a join: equalities, hulls of ranges, disequalities.

ghost use Rattle.std.specs.Prelude.{◌≡◌, All, IfOk};
ghost use Rattle.mc_base.specs.Ranges.Ends.{IsInt};
ghost use Rattle.mc_pure.specs.Derived.{IsFalse};
ghost use Rattle.mc_pure_ops.specs.Join.Joint.{AreJoinable, IsJoin};

mod differences;
mod equalities;
mod gains;
mod joinable;
mod nodes;
mod spans;

use crate::canon::canon;
use differences::{put_differences, put_listed, turned};
use equalities::put_equalities;
pub use joinable::are_joinable;
use mc_base::{NoMemory, NodeId};
use mc_pure::Pure;
use nodes::numbered;
use spans::put_ranges;
use std::alloc::Global;

/// What is known of pairs of nodes, each pair a node of the result by its place: the equalities that are entailed on both
/// sides, the hull of the two ranges, for numbers from the third pass on widened from the left's by the thresholds, and
/// the disequalities that are entailed on both sides and have offset 0 or are on the canonical list of one. Both sides
/// can be true; the nodes of a pair are there and of one kind, node 0 being of every kind.
pub fn join(
    alloc: Global,
    left: &Pure,
    right: &Pure,
    pairs: &[(NodeId, NodeId)],
    round: u64,
    thresholds: &[i64],
) -> Result<Pure, NoMemory>
    requires left_true { IsFalse left.now → ⊥ }
    requires right_true { IsFalse right.now → ⊥ }
    requires joinable { AreJoinable left.now right.now pairs.now }
    requires ints { All IsInt thresholds.now }
    ensures { IfOk result (λ joint. IsJoin left.now right.now pairs.now round thresholds.now joint) }
{
    let left_list = canon(alloc, left)?;
    let right_list = canon(alloc, right)?;
    let mut joint = numbered(alloc, left, right, pairs)?;
    put_ranges(&mut joint, left, right, pairs, round, thresholds)?;
    put_equalities(&mut joint, left, right, pairs)?;
    put_differences(&mut joint, left, right, pairs)?;
    put_listed(&mut joint, left_list.as_slice(), right, pairs)?;
    let back = turned(alloc, pairs)?;
    put_listed(&mut joint, right_list.as_slice(), left, back.as_slice())?;
    Ok(joint)
}
