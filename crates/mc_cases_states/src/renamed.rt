// What is known of renamed and merged nodes.
use crate::entries::{list, pair, pairs};
use crate::known::known_with;
use crate::renamings::renaming;
use anyhow::Result;
use mc_base::{Atom, NoMemory, NodeId};
use mc_cases::Case;
use mc_pure::Pure;
use mc_pure_ops::renamed::{can_rename, merge, rename};
use serde_json::Value;
use std::alloc::Global;

/// What is known of nodes with these images, where they may be renamed so.
fn renamed(
    alloc: Global,
    pure: &Pure,
    pairs: &[(NodeId, NodeId)],
) -> Result<Option<Pure>, NoMemory> {
    let there = renaming(alloc, pairs)?;
    if !can_rename(alloc, pure, &there)? {
        return Ok(None);
    }
    let moved = rename(alloc, pure, &there)?;
    Ok(Some(moved))
}

/// What is known with one node in place of another, where they are of one kind.
fn merged(
    alloc: Global,
    pure: &Pure,
    keep: NodeId,
    gone: NodeId,
) -> Result<Option<Pure>, NoMemory> {
    if keep.0 == gone.0 || gone.0 == 0 || !pure.allows(&Atom::Eq(keep, gone, 0)) {
        return Ok(None);
    }
    let moved = merge(alloc, pure, keep, gone)?;
    Ok(Some(moved))
}

/// The written atoms, the nodes, and those at which blocks start.
fn said(alloc: Global, pure: &Pure) -> Result<Value> {
    let mut values = Vec::new(alloc);
    values.push(list(alloc, pure.written())?)?;
    values.push(list(alloc, pure.nodes())?)?;
    values.push(list(alloc, pure.starts())?)?;
    Ok(Value::Array(values))
}

/// What a case knows, with nodes merged or renamed, where that may be.
fn moved(alloc: Global, case: Case<'_>) -> Result<Option<Pure>> {
    let pure = known_with(alloc, case, "atoms", "blocks")?;
    if case.has("merge") {
        let (keep, gone) = pair(alloc, case.get("merge")?)?;
        return Ok(merged(alloc, &pure, keep, gone)?);
    }
    let images = pairs(alloc, case, "images")?;
    Ok(renamed(alloc, &pure, images.as_slice())?)
}

/// What is known then; null where the nodes may not be merged or renamed.
pub fn answer(alloc: Global, case: Case<'_>) -> Result<Value> {
    match moved(alloc, case)? {
        Some(pure) => said(alloc, &pure),
        None => Ok(Value::Null),
    }
}
