// Forgetting a node.
ghost use Rattle.std.specs.Prelude.{◌≡◌, ◌≢◌, IfOk, Some};
ghost use Rattle.mc_base.specs.Nodes.{null};
ghost use Rattle.mc_pure.specs.Pure.{IsNode};
ghost use Rattle.mc_pure.specs.Derived.{IsFalse};
ghost use Rattle.mc_pure_ops.specs.Canon.Left.{IsLeftOut};
ghost use Rattle.mc_pure_ops.specs.Canon.Forgotten.{IsNextHeir, IsForgottenOrFalse};

use crate::canon::canonical::contradiction;
use crate::canon::gaps::differences;
use crate::canon::left::{Left, equalities, ranges};
use mc_base::{Atom, NoMemory, NodeId};
use mc_pure::{ClassPlace, Pure};
use std::alloc::Global;

/// A node in the place of the least node of its class.
fn heir_at(node: NodeId, place: &ClassPlace) -> ClassPlace
    ensures least { result.least ≡ node }
    ensures offset { result.offset ≡ place.now.offset }
{
    ClassPlace {
        least: node,
        offset: place.offset,
    }
}

/// The least node beside one that is left out of its class, with one node more to choose from.
fn next_heir(
    pure: &Pure,
    lost: NodeId,
    other: NodeId,
    heir: Option<ClassPlace>,
) -> Option<ClassPlace>
    requires there { IsNode pure.now.kinds other }
    requires not_false { IsFalse pure.now → ⊥ }
    ensures { IsNextHeir pure.now lost other heir result }
{
    if other.0 == lost.0 {
        return heir;
    }
    let place = pure.class_of(other);
    if place.least.0 != lost.0 {
        return heir;
    }
    match heir {
        Some(best) => {
            if best.least.0 <= other.0 {
                Some(best)
            } else {
                Some(heir_at(other, &place))
            }
        }
        None => Some(heir_at(other, &place)),
    }
}

/// Leaves a node out.
fn without(pure: &Pure, lost: NodeId) -> Left
    requires there { IsNode pure.now.kinds lost }
    requires not_null { lost ≢ null }
    requires not_false { IsFalse pure.now → ⊥ }
    ensures lost { result.lost ≡ Some lost }
    ensures heir { IsLeftOut pure.now result.lost result.heir }
{
    pure.has_normal_form();
    mc_pure::normal_forms_say_all();
    let mut heir = None;
    for other in pure.nodes() {
        heir = next_heir(pure, lost, *other, heir);
    }
    Left {
        lost: Some(lost),
        heir,
    }
}

/// What is to be written when a node is forgotten: the canonical list of what was entailed of the other nodes, where no
/// block is known, and after it the disequalities inside one class.
pub fn forget(alloc: Global, pure: &Pure, lost: NodeId) -> Result<Vec<Atom>, NoMemory>
    requires there { IsNode pure.now.kinds lost }
    requires not_null { lost ≢ null }
    ensures { IfOk result (λ list. IsForgottenOrFalse pure.now lost list.items) }
{
    if pure.is_false() {
        return contradiction(alloc);
    }
    pure.has_normal_form();
    mc_pure::normal_forms_say_all();
    mc_pure::derived_grows();
    let left = without(pure, lost);
    let mut list = ranges(alloc, pure, &left)?;
    let same = equalities(alloc, pure, &left)?;
    let apart = differences(alloc, pure, &left, &[], false, pure.starts())?;
    let inner = differences(alloc, pure, &left, &[], true, pure.starts())?;
    list.extend_from_slice(same.as_slice())?;
    list.extend_from_slice(apart.as_slice())?;
    list.extend_from_slice(inner.as_slice())?;
    Ok(list)
}
