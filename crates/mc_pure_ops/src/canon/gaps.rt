// Disequalities, moved to the least nodes of classes.
ghost use Rattle.std.specs.Prelude.{◌≡◌, ◌≢◌, ◌+ℤ◌, ◌-ℤ◌, neg_ℤ, ◌⊎◌, ◌<ℤ◌, ◌<◌, pos, true, false, IfOk, None, [], length};
ghost use Rattle.mc_base.specs.declared.plain.Atom.TheVariants.{Ne};
ghost use Rattle.mc_base.specs.Ranges.Ends.{IsEnd};
ghost use Rattle.mc_pure.specs.Pure.{IsNode};
ghost use Rattle.mc_pure.specs.Classes.{IsLong, HasNormalForm};
ghost use Rattle.mc_pure.specs.Derived.{IsFalse};
ghost use Rattle.mc_pure.specs.Rows.{IsShort};
ghost use Rattle.mc_pure_ops.specs.Canon.Order.{Added, GivesAtMost};
ghost use Rattle.mc_pure_ops.specs.Canon.Left.{IsLeftOut, IsPlace};
ghost use Rattle.mc_pure_ops.specs.Canon.Gaps.{AreNodes, AreApart, MovedPlaces, StartsGive, StartGives, IsPlain, IsTurned, gap_atom, Shows, Gives, PairGives, AtomGives, WrittenGives, PairsGiveAt, PairsGiveOf, PairsGive, DifferenceLeft};

use crate::canon::left::{Left, place};
use crate::canon::order::put_some;
use mc_base::ranges::Range;
use mc_base::{Atom, NoMemory, NodeId};
use mc_pure::{ClassPlace, Pure};
use std::alloc::Global;

/// The first node is not the second and `by` more.
#[derive(Clone, Copy)]
pub struct Gap {
    pub left: NodeId,
    pub right: NodeId,
    pub by: i128,
}

/// The ends of a range.
#[derive(Clone, Copy)]
pub struct Ends {
    pub lo: i128,
    pub hi: i128,
}

/// The ends of a node's range.
fn ends_of(range: &Range) -> Ends
    ensures lo { result.lo ≡ range.now.lo }
    ensures hi { result.hi ≡ range.now.hi }
    ensures lo_end { IsEnd result.lo }
    ensures hi_end { IsEnd result.hi }
{
    Ends {
        lo: i128::from(range.lo),
        hi: i128::from(range.hi),
    }
}

/// Whether two ranges do not meet, the second moved by a number.
fn are_apart(left: &Ends, right: &Ends, by: i128) -> bool
    requires lo { IsEnd right.now.lo }
    requires hi { IsEnd right.now.hi }
    requires short { IsShort by }
    ensures yes { result ≡ true → ((left.now.hi <ℤ (right.now.lo +ℤ by)) ⊎ ((right.now.hi +ℤ by) <ℤ left.now.lo)) }
    ensures no { result ≡ false → ((left.now.hi <ℤ (right.now.lo +ℤ by)) ⊎ ((right.now.hi +ℤ by) <ℤ left.now.lo)) → ⊥ }
{
    if left.hi < right.lo + by {
        true
    } else if right.hi + by < left.lo {
        true
    } else {
        false
    }
}

/// Whether the ranges of the nodes do not meet. If they do, the number fits in 64 bits.
fn is_apart(pure: &Pure, gap: &Gap) -> bool
    requires not_false { IsFalse pure.now → ⊥ }
    requires left { IsNode pure.now.kinds gap.now.left }
    requires right { IsNode pure.now.kinds gap.now.right }
    requires short { IsShort gap.now.by }
    ensures yes { result ≡ true → AreApart pure.now gap.now }
    ensures no { result ≡ false → AreApart pure.now gap.now → ⊥ }
    ensures long { result ≡ false → IsLong gap.now.by }
{
    let left = ends_of(&pure.range(gap.left));
    let right = ends_of(&pure.range(gap.right));
    are_apart(&left, &right, gap.by)
}

/// The number in 128 bits.
fn wide(by: i64) -> i128
    ensures is { result ≡ by }
    ensures long { IsLong result }
{
    i128::from(by)
}

/// The number that a gap gets where its nodes are moved.
fn moved_by(right: i128, by: i128, left: i128) -> i128
    requires right { IsLong right }
    requires by { IsLong by }
    requires left { IsLong left }
    ensures is { result ≡ (right +ℤ by) -ℤ left }
    ensures short { IsShort result }
{
    (right + by) - left
}

/// By how much more the first is.
fn difference(a: i64, b: i64) -> i128
    ensures { result ≡ a -ℤ b }
{
    i128::from(a) - i128::from(b)
}

/// Whether the first is the sum of the others.
fn is_sum(total: i128, by: i128, more: i128) -> bool
    requires by { IsShort by }
    requires more { IsShort more }
    ensures yes { result ≡ true → total ≡ by +ℤ more }
    ensures no { result ≡ false → total ≢ by +ℤ more }
{
    total == by + more
}

/// Whether the disequality of two nodes by 0 is the gap, moved along their classes.
fn is_moved(
    first: &ClassPlace,
    second: &ClassPlace,
    left: &ClassPlace,
    right: &ClassPlace,
    by: i128,
) -> bool
    requires { IsShort by }
    ensures yes { result ≡ true → MovedPlaces first.now second.now left.now right.now (pos 0) by }
    ensures no { result ≡ false → MovedPlaces first.now second.now left.now right.now (pos 0) by → ⊥ }
{
    if first.least.0 != left.least.0 {
        return false;
    }
    if second.least.0 != right.least.0 {
        return false;
    }
    let mine = difference(first.offset, left.offset);
    let other = difference(second.offset, right.offset);
    is_sum(other, by, mine)
}

/// Whether the start of one block and that of another give the gap.
fn start_gives(
    pure: &Pure,
    starts: &[NodeId],
    i: usize,
    left: &ClassPlace,
    right: &ClassPlace,
    gap: &Gap,
) -> bool
    requires not_false { IsFalse pure.now → ⊥ }
    requires short { IsShort gap.now.by }
    requires starts { AreNodes pure.now starts.now }
    requires inside { i < length starts.now }
    requires left { IsPlace pure.now None gap.now.left left.now }
    requires right { IsPlace pure.now None gap.now.right right.now }
    ensures yes { result ≡ true → StartGives pure.now starts.now gap.now i }
    ensures no { result ≡ false → StartGives pure.now starts.now gap.now i → ⊥ }
{
    let first = pure.class_of(starts[i]);
    if first.least.0 != left.least.0 {
        return false;
    }
    for j in 0..starts.len() {
        let second = pure.class_of(starts[j]);
        if i != j && is_moved(&first, &second, left, right, gap.by) {
            return true;
        }
    }
    false
}

/// Whether the starts of blocks give the gap.
fn starts_give(pure: &Pure, starts: &[NodeId], gap: &Gap) -> bool
    requires not_false { IsFalse pure.now → ⊥ }
    requires left { IsNode pure.now.kinds gap.now.left }
    requires right { IsNode pure.now.kinds gap.now.right }
    requires short { IsShort gap.now.by }
    requires starts { AreNodes pure.now starts.now }
    ensures yes { result ≡ true → StartsGive pure.now starts.now gap.now }
    ensures no { result ≡ false → StartsGive pure.now starts.now gap.now → ⊥ }
{
    let left = pure.class_of(gap.left);
    let right = pure.class_of(gap.right);
    for i in 0..starts.len() {
        if start_gives(pure, starts, i, &left, &right, gap) {
            return true;
        }
    }
    false
}

/// Whether the gap follows from ranges or from starts of blocks. If not, its number fits in 64 bits.
fn is_plain(pure: &Pure, starts: &[NodeId], gap: &Gap) -> bool
    requires not_false { IsFalse pure.now → ⊥ }
    requires left { IsNode pure.now.kinds gap.now.left }
    requires right { IsNode pure.now.kinds gap.now.right }
    requires short { IsShort gap.now.by }
    requires starts { AreNodes pure.now starts.now }
    ensures yes { result ≡ true → IsPlain pure.now starts.now gap.now }
    ensures no { result ≡ false → IsPlain pure.now starts.now gap.now → ⊥ }
    ensures long { result ≡ false → IsLong gap.now.by }
{
    if is_apart(pure, gap) {
        return true;
    }
    starts_give(pure, starts, gap)
}

/// Whether the number is above 0.
fn is_positive(by: i128) -> bool
    ensures yes { result ≡ true → pos 0 <ℤ by }
    ensures no { result ≡ false → pos 0 <ℤ by → ⊥ }
{
    by > 0
}

/// Whether the gap is as it is to be written: between two classes the higher first, inside one with a positive number.
fn is_turned(gap: &Gap, inside: bool) -> bool
    requires short { IsShort gap.now.by }
    ensures yes { result ≡ true → IsTurned inside gap.now }
    ensures no { result ≡ false → IsTurned inside gap.now → ⊥ }
{
    if inside {
        if gap.left.0 == gap.right.0 {
            is_positive(gap.by)
        } else {
            false
        }
    } else {
        gap.right.0 < gap.left.0
    }
}

/// The gap turned round.
fn turned(gap: &Gap) -> Gap
    requires { IsShort gap.now.by }
    ensures left { result.left ≡ gap.now.right }
    ensures right { result.right ≡ gap.now.left }
    ensures by { result.by ≡ neg_ℤ gap.now.by }
{
    Gap {
        left: gap.right,
        right: gap.left,
        by: -gap.by,
    }
}

/// The atom of a gap.
fn atom_of(gap: &Gap) -> Atom
    requires { IsLong gap.now.by }
    ensures { result ≡ gap_atom gap.now }
{
    Atom::Ne(gap.left, gap.right, narrow(gap.by))
}

/// The number in 64 bits.
fn narrow(by: i128) -> i64
    requires { IsLong by }
    ensures { result ≡ by }
{
    by as i64
}

/// What is to be written of a gap that is turned as it is.
fn shown(pure: &Pure, starts: &[NodeId], gap: &Gap, inside: bool) -> Option<Atom>
    requires not_false { IsFalse pure.now → ⊥ }
    requires left { IsNode pure.now.kinds gap.now.left }
    requires right { IsNode pure.now.kinds gap.now.right }
    requires short { IsShort gap.now.by }
    requires starts { AreNodes pure.now starts.now }
    ensures { GivesAtMost (Shows pure.now starts.now inside gap.now) result }
{
    if !is_turned(gap, inside) {
        return None;
    }
    if is_plain(pure, starts, gap) {
        return None;
    }
    Some(atom_of(gap))
}

/// What is to be written of a gap, either way round.
fn gives(pure: &Pure, starts: &[NodeId], gap: &Gap, inside: bool) -> Option<Atom>
    requires not_false { IsFalse pure.now → ⊥ }
    requires left { IsNode pure.now.kinds gap.now.left }
    requires right { IsNode pure.now.kinds gap.now.right }
    requires short { IsShort gap.now.by }
    requires starts { AreNodes pure.now starts.now }
    ensures { GivesAtMost (Gives pure.now starts.now inside gap.now) result }
{
    match shown(pure, starts, gap, inside) {
        Some(atom) => Some(atom),
        None => shown(pure, starts, &turned(gap), inside),
    }
}

/// The gap between the least nodes of two classes, of which a node each differ.
fn gap_between(left: &ClassPlace, right: &ClassPlace, by: i64) -> Gap
    ensures left { result.left ≡ left.now.least }
    ensures right { result.right ≡ right.now.least }
    ensures by { result.by ≡ (right.now.offset +ℤ by) -ℤ left.now.offset }
    ensures short { IsShort result.by }
{
    Gap {
        left: left.least,
        right: right.least,
        by: moved_by(wide(right.offset), wide(by), wide(left.offset)),
    }
}

/// What is to be written of a disequality.
fn pair_gives(
    pure: &Pure,
    left: &Left,
    starts: &[NodeId],
    inside: bool,
    x: NodeId,
    y: NodeId,
    by: i64,
) -> Option<Atom>
    requires not_false { IsFalse pure.now → ⊥ }
    requires left { IsLeftOut pure.now left.now.lost left.now.heir }
    requires starts { AreNodes pure.now starts.now }
    requires first { IsNode pure.now.kinds x }
    requires second { IsNode pure.now.kinds y }
    ensures { GivesAtMost (PairGives pure.now left.now.lost starts.now inside x y by) result }
{
    let Some(first) = place(pure, left, x) else {
        return None;
    };
    let Some(second) = place(pure, left, y) else {
        return None;
    };
    gives(pure, starts, &gap_between(&first, &second, by), inside)
}

/// What is to be written of an atom.
fn atom_gives(
    pure: &Pure,
    left: &Left,
    starts: &[NodeId],
    inside: bool,
    atom: &Atom,
) -> Option<Atom>
    requires not_false { IsFalse pure.now → ⊥ }
    requires left { IsLeftOut pure.now left.now.lost left.now.heir }
    requires starts { AreNodes pure.now starts.now }
    requires known { (x y : _) (d : _) → atom.now ≡ Ne x y d → IsNode pure.now.kinds x × IsNode pure.now.kinds y }
    ensures { GivesAtMost (AtomGives pure.now left.now.lost starts.now inside atom.now) result }
{
    match atom {
        Atom::Ne(x, y, by) => pair_gives(pure, left, starts, inside, *x, *y, *by),
        Atom::Eq(_, _, _) => None,
        Atom::In(_, _, _) => None,
    }
}

/// Puts in what is to be written of the written atoms.
fn put_written(
    list: &mut Vec<Atom>,
    pure: &Pure,
    left: &Left,
    starts: &[NodeId],
    inside: bool,
) -> Result<(), NoMemory>
    requires not_false { IsFalse pure.now → ⊥ }
    requires left { IsLeftOut pure.now left.now.lost left.now.heir }
    requires form { HasNormalForm pure.now }
    requires starts { AreNodes pure.now starts.now }
    ensures { IfOk result (λ _. Added (WrittenGives pure.now left.now.lost starts.now inside) list.old.items list.new.items) }
{
    for atom in pure.written() {
        put_some(list, atom_gives(pure, left, starts, inside, atom))?;
    }
    Ok(())
}

/// What is to be written of nodes at two places, which differ.
fn pair_at(
    pure: &Pure,
    left: &Left,
    starts: &[NodeId],
    inside: bool,
    nodes: &[NodeId],
    i: usize,
    j: usize,
) -> Option<Atom>
    requires not_false { IsFalse pure.now → ⊥ }
    requires left { IsLeftOut pure.now left.now.lost left.now.heir }
    requires starts { AreNodes pure.now starts.now }
    requires nodes { AreNodes pure.now nodes.now }
    requires first { i < length nodes.now }
    requires second { j < length nodes.now }
    ensures { GivesAtMost (PairsGiveAt pure.now left.now.lost starts.now inside nodes.now i j) result }
{
    if i == j {
        return None;
    }
    pair_gives(pure, left, starts, inside, nodes[i], nodes[j], 0)
}

/// Puts in what is to be written of a node and the others, which differ.
fn put_pairs_of(
    list: &mut Vec<Atom>,
    pure: &Pure,
    left: &Left,
    starts: &[NodeId],
    inside: bool,
    nodes: &[NodeId],
    i: usize,
) -> Result<(), NoMemory>
    requires not_false { IsFalse pure.now → ⊥ }
    requires left { IsLeftOut pure.now left.now.lost left.now.heir }
    requires starts { AreNodes pure.now starts.now }
    requires nodes { AreNodes pure.now nodes.now }
    requires first { i < length nodes.now }
    ensures { IfOk result (λ _. Added (PairsGiveOf pure.now left.now.lost starts.now inside nodes.now i) list.old.items list.new.items) }
{
    for j in 0..nodes.len() {
        put_some(list, pair_at(pure, left, starts, inside, nodes, i, j))?;
    }
    Ok(())
}

/// Puts in what is to be written of nodes that all differ.
fn put_pairs(
    list: &mut Vec<Atom>,
    pure: &Pure,
    left: &Left,
    starts: &[NodeId],
    inside: bool,
    nodes: &[NodeId],
) -> Result<(), NoMemory>
    requires not_false { IsFalse pure.now → ⊥ }
    requires left { IsLeftOut pure.now left.now.lost left.now.heir }
    requires starts { AreNodes pure.now starts.now }
    requires nodes { AreNodes pure.now nodes.now }
    ensures { IfOk result (λ _. Added (PairsGive pure.now left.now.lost starts.now inside nodes.now) list.old.items list.new.items) }
{
    for i in 0..nodes.len() {
        put_pairs_of(list, pure, left, starts, inside, nodes, i)?;
    }
    Ok(())
}

/// The disequalities that are to be written: those of the written atoms, and those of nodes that all differ, but for what
/// follows from ranges or from starts of blocks.
pub fn differences(
    alloc: Global,
    pure: &Pure,
    left: &Left,
    starts: &[NodeId],
    inside: bool,
    nodes: &[NodeId],
) -> Result<Vec<Atom>, NoMemory>
    requires not_false { IsFalse pure.now → ⊥ }
    requires left { IsLeftOut pure.now left.now.lost left.now.heir }
    requires starts { AreNodes pure.now starts.now }
    requires nodes { AreNodes pure.now nodes.now }
    ensures { IfOk result (λ list. Added (DifferenceLeft pure.now left.now.lost starts.now inside nodes.now) [] list.items) }
{
    pure.has_normal_form();
    let mut list = Vec::new(alloc);
    put_written(&mut list, pure, left, starts, inside)?;
    put_pairs(&mut list, pure, left, starts, inside, nodes)?;
    Ok(list)
}
