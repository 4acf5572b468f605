// The nodes that are left where one is left out, and what is written of each.
ghost use Rattle.std.specs.Prelude.{◌≡◌, ◌≢◌, ◌-ℤ◌, ◌⊎◌, ◌<ℤ◌, true, false, IfOk, Some, None, []};
ghost use Rattle.mc_base.specs.Nodes.{null};
ghost use Rattle.mc_base.specs.declared.plain.Atom.TheVariants.{Eq, In};
ghost use Rattle.mc_pure.specs.Pure.{IsNode, low_of, high_of};
ghost use Rattle.mc_pure.specs.Classes.{IsLong};
ghost use Rattle.mc_pure.specs.Derived.{IsFalse, Follows};
ghost use Rattle.mc_pure_ops.specs.Canon.Order.{Added, GivesAtMost};
ghost use Rattle.mc_pure_ops.specs.Canon.Left.{IsLeft, IsLeftOut, FindsPlace, IsRangeLeft, IsClassLeft, OfNode, OfNodes};

use crate::canon::order::put_some;
use mc_base::ranges::Range;
use mc_base::{Atom, Kind, NoMemory, NodeId};
use mc_pure::{ClassPlace, Pure};
use std::alloc::Global;

/// The node that is left out, if any, and what is left of its class where it is the least node of that.
#[derive(Clone, Copy)]
pub struct Left {
    pub lost: Option<NodeId>,
    pub heir: Option<ClassPlace>,
}

/// Whether the node is left.
pub fn is_left(lost: Option<NodeId>, node: NodeId) -> bool
    ensures yes { result ≡ true → IsLeft lost node }
    ensures no { result ≡ false → IsLeft lost node → ⊥ }
{
    match lost {
        Some(other) => node.0 != other.0,
        None => true,
    }
}

/// The place beside another node of the class than its least.
fn beside(place: &ClassPlace, heir: &ClassPlace) -> ClassPlace
    requires { IsLong (place.now.offset -ℤ heir.now.offset) }
    ensures least { result.least ≡ heir.now.least }
    ensures offset { result.offset ≡ place.now.offset -ℤ heir.now.offset }
{
    ClassPlace {
        least: heir.least,
        offset: place.offset - heir.offset,
    }
}

/// The least node that is left of a node's class, and how much more the node is.
pub fn place(pure: &Pure, left: &Left, node: NodeId) -> Option<ClassPlace>
    requires there { IsNode pure.now.kinds node }
    requires not_false { IsFalse pure.now → ⊥ }
    requires left { IsLeftOut pure.now left.now.lost left.now.heir }
    ensures { FindsPlace pure.now left.now.lost node result }
{
    let place = pure.class_of(node);
    if is_left(left.lost, place.least) {
        return Some(place);
    }
    match left.heir {
        Some(heir) => Some(beside(&place, &heir)),
        None => None,
    }
}

/// Whether the range is narrower than its kind's.
fn is_narrower(range: &Range, kind: Kind) -> bool
    ensures yes { result ≡ true → ((low_of kind <ℤ range.now.lo) ⊎ (range.now.hi <ℤ high_of kind)) }
    ensures no { result ≡ false → ((low_of kind <ℤ range.now.lo) ⊎ (range.now.hi <ℤ high_of kind)) → ⊥ }
{
    match kind {
        Kind::Int => range.lo > -2_147_483_648 || range.hi < 2_147_483_647,
        Kind::Ptr => range.lo > 0 || range.hi < 4_611_686_018_427_387_903,
    }
}

/// That the node lies in the range.
fn range_of(node: NodeId, range: &Range) -> Atom
    ensures { result ≡ In node range.now.lo range.now.hi }
{
    Atom::In(node, range.lo, range.hi)
}

/// That the node is the least of its class and a number more.
fn equality_of(node: NodeId, place: &ClassPlace) -> Atom
    ensures { result ≡ Eq node place.now.least place.now.offset }
{
    Atom::Eq(node, place.least, place.offset)
}

/// The range of a node, where it is to be written.
fn range_atom(pure: &Pure, left: &Left, node: NodeId) -> Option<Atom>
    requires there { IsNode pure.now.kinds node }
    requires not_false { IsFalse pure.now → ⊥ }
    ensures { GivesAtMost (OfNode (IsRangeLeft pure.now left.now.lost) node) result }
{
    if node.0 == 0 {
        return None;
    }
    if !is_left(left.lost, node) {
        return None;
    }
    let range = pure.range(node);
    match pure.kind(node) {
        Some(kind) => {
            if is_narrower(&range, kind) {
                Some(range_of(node, &range))
            } else {
                None
            }
        }
        None => None,
    }
}

/// The equality of a node with the least that is left of its class, where it is to be written.
fn class_atom(pure: &Pure, left: &Left, node: NodeId) -> Option<Atom>
    requires there { IsNode pure.now.kinds node }
    requires not_false { IsFalse pure.now → ⊥ }
    requires left { IsLeftOut pure.now left.now.lost left.now.heir }
    ensures { GivesAtMost (OfNode (IsClassLeft pure.now left.now.lost) node) result }
{
    if !is_left(left.lost, node) {
        return None;
    }
    match place(pure, left, node) {
        Some(place) => {
            if place.least.0 == 0 {
                None
            } else if place.least.0 == node.0 {
                None
            } else {
                Some(equality_of(node, &place))
            }
        }
        None => None,
    }
}

/// The ranges that are to be written.
pub fn ranges(alloc: Global, pure: &Pure, left: &Left) -> Result<Vec<Atom>, NoMemory>
    requires not_false { IsFalse pure.now → ⊥ }
    ensures { IfOk result (λ list. Added (IsRangeLeft pure.now left.now.lost) [] list.items) }
{
    let mut list = Vec::new(alloc);
    for node in pure.nodes() {
        put_some(&mut list, range_atom(pure, left, *node))?;
    }
    Ok(list)
}

/// The equalities that are to be written.
pub fn equalities(alloc: Global, pure: &Pure, left: &Left) -> Result<Vec<Atom>, NoMemory>
    requires not_false { IsFalse pure.now → ⊥ }
    requires left { IsLeftOut pure.now left.now.lost left.now.heir }
    ensures { IfOk result (λ list. Added (IsClassLeft pure.now left.now.lost) [] list.items) }
{
    let mut list = Vec::new(alloc);
    for node in pure.nodes() {
        put_some(&mut list, class_atom(pure, left, *node))?;
    }
    Ok(list)
}

/// Nothing is left out.
pub fn whole() -> Left
    ensures lost { result.lost ≡ None }
{
    Left {
        lost: None,
        heir: None,
    }
}
