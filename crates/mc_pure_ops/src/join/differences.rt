// Disequalities that are entailed on both sides.
ghost use Rattle.std.specs.Prelude.{◌≡◌, ◌<◌, ℕ, IfOk, length};
ghost use Rattle.mc_base.specs.declared.plain.Atom.TheVariants.{Ne};
ghost use Rattle.mc_pure.specs.Derived.{IsFalse};
ghost use Rattle.mc_pure_ops.specs.Canon.Order.{GivesAtMost};
ghost use Rattle.mc_pure_ops.specs.Join.Gains.{Gains};
ghost use Rattle.mc_pure_ops.specs.Join.Parts.{AreThere, DifferenceAt, ListedAt, Below, AtPlace, turned};

use crate::join::gains::put_some;
use crate::join::nodes::node_at;
use mc_base::{Atom, NoMemory, NodeId};
use mc_pure::Pure;
use std::alloc::Global;

/// That the first node is not the second and a number more.
fn differ_by(first: NodeId, second: NodeId, by: &i64) -> Atom
    ensures { result ≡ Ne first second by.now }
{
    Atom::Ne(first, second, *by)
}

/// That two pairs differ.
fn difference(
    left: &Pure,
    right: &Pure,
    pairs: &[(NodeId, NodeId)],
    i: usize,
    j: usize,
) -> Option<Atom>
    requires left_true { IsFalse left.now → ⊥ }
    requires right_true { IsFalse right.now → ⊥ }
    requires first { i < length pairs.now }
    requires second { j < length pairs.now }
    ensures { GivesAtMost (DifferenceAt left.now right.now pairs.now i j) result }
{
    if !left.entails(&differ_by(pairs[i].0, pairs[j].0, &0)) {
        return None;
    }
    if !right.entails(&differ_by(pairs[i].1, pairs[j].1, &0)) {
        return None;
    }
    Some(differ_by(node_at(i), node_at(j), &0))
}

/// Writes down which of the pairs before it a pair differs from.
fn put_differences_of(
    joint: &mut Pure,
    left: &Pure,
    right: &Pure,
    pairs: &[(NodeId, NodeId)],
    i: usize,
) -> Result<(), NoMemory>
    requires left_true { IsFalse left.now → ⊥ }
    requires right_true { IsFalse right.now → ⊥ }
    requires first { i < length pairs.now }
    ensures { IfOk result (λ _. Gains (Below (DifferenceAt left.now right.now pairs.now i) i) joint.old joint.new) }
{
    for j in 0..i {
        put_some(joint, difference(left, right, pairs, i, j))?;
    }
    Ok(())
}

/// Writes down which pairs differ.
pub fn put_differences(
    joint: &mut Pure,
    left: &Pure,
    right: &Pure,
    pairs: &[(NodeId, NodeId)],
) -> Result<(), NoMemory>
    requires left_true { IsFalse left.now → ⊥ }
    requires right_true { IsFalse right.now → ⊥ }
    ensures { IfOk result (λ _. Gains (Below (λ i. Below (DifferenceAt left.now right.now pairs.now i) i)
        (length pairs.now)) joint.old joint.new) }
{
    for i in 0..pairs.len() {
        put_differences_of(joint, left, right, pairs, i)?;
    }
    Ok(())
}

/// The pairs the other way round.
pub fn turned(alloc: Global, pairs: &[(NodeId, NodeId)]) -> Result<Vec<(NodeId, NodeId)>, NoMemory>
    ensures { IfOk result (λ back. back.items ≡ turned pairs.now) }
{
    let mut back = Vec::with_capacity(alloc, pairs.len())?;
    for pair in pairs {
        back.push((pair.1, pair.0))?;
    }
    Ok(back)
}

/// The disequality of two pairs that is an atom of one side, where the other side has it too.
fn listed(atom: &Atom, other: &Pure, pairs: &[(NodeId, NodeId)], i: usize, j: usize) -> Option<Atom>
    requires not_false { IsFalse other.now → ⊥ }
    requires first { i < length pairs.now }
    requires second { j < length pairs.now }
    ensures { GivesAtMost (ListedAt other.now pairs.now atom.now i j) result }
{
    let Atom::Ne(a, b, by) = atom else {
        return None;
    };
    if a.0 != pairs[i].0.0 {
        return None;
    }
    if b.0 != pairs[j].0.0 {
        return None;
    }
    if !other.entails(&differ_by(pairs[i].1, pairs[j].1, by)) {
        return None;
    }
    Some(differ_by(node_at(i), node_at(j), by))
}

/// Writes down what an atom of one side gives of a pair.
fn put_listed_of(
    joint: &mut Pure,
    atom: &Atom,
    other: &Pure,
    pairs: &[(NodeId, NodeId)],
    i: usize,
) -> Result<(), NoMemory>
    requires not_false { IsFalse other.now → ⊥ }
    requires first { i < length pairs.now }
    ensures { IfOk result (λ _. Gains (Below (ListedAt other.now pairs.now atom.now i) (length pairs.now)) joint.old joint.new) }
{
    for j in 0..pairs.len() {
        put_some(joint, listed(atom, other, pairs, i, j))?;
    }
    Ok(())
}

/// Writes down what an atom of one side gives.
fn put_listed_atom(
    joint: &mut Pure,
    atom: &Atom,
    other: &Pure,
    pairs: &[(NodeId, NodeId)],
) -> Result<(), NoMemory>
    requires { IsFalse other.now → ⊥ }
    ensures { IfOk result (λ _. Gains (Below
        (λ i. Below (ListedAt other.now pairs.now atom.now i) (length pairs.now))
        (length pairs.now)) joint.old joint.new) }
{
    for i in 0..pairs.len() {
        put_listed_of(joint, atom, other, pairs, i)?;
    }
    Ok(())
}

/// Writes down the disequalities of one side's list that the other side has too.
pub fn put_listed(
    joint: &mut Pure,
    list: &[Atom],
    other: &Pure,
    pairs: &[(NodeId, NodeId)],
) -> Result<(), NoMemory>
    requires { IsFalse other.now → ⊥ }
    ensures { IfOk result (λ _. Gains (Below
        (AtPlace (λ atom. Below (λ i. Below (ListedAt other.now pairs.now atom i) (length pairs.now))
        (length pairs.now)) list.now) (length list.now)) joint.old joint.new) }
{
    for atom in list {
        put_listed_atom(joint, atom, other, pairs)?;
    }
    Ok(())
}
