// Renamings, and what is asked of them.
use crate::entries::{entry, list, pairs};
use anyhow::{Result, bail};
use mc_base::{Items, NoMemory, NodeId};
use mc_cases::Case;
use mc_pure_ops::renaming::Renaming;
use serde_json::Value;
use std::alloc::Global;

/// The renaming with these images, in this order; those that are refused are left out.
pub fn renaming(alloc: Global, pairs: &[(NodeId, NodeId)]) -> Result<Renaming, NoMemory> {
    let mut renaming = Renaming::new(alloc);
    for (from, to) in pairs {
        renaming.add(*from, *to)?;
    }
    Ok(renaming)
}

/// Of each image, whether it is taken.
fn added(alloc: Global, pairs: &[(NodeId, NodeId)]) -> Result<Value> {
    let mut renaming = Renaming::new(alloc);
    let mut answers = Vec::new(alloc);
    for (from, to) in pairs {
        answers.push(Value::Bool(renaming.add(*from, *to)?))?;
    }
    Ok(Value::Array(answers))
}

/// The renaming with these images, with another after it, or some images alone and copied, as the case says.
fn changed(alloc: Global, case: Case<'_>, adds: &[(NodeId, NodeId)]) -> Result<Renaming> {
    let there = renaming(alloc, adds)?;
    if case.has("after") {
        let after = pairs(alloc, case, "after")?;
        let after = renaming(alloc, after.as_slice())?;
        return Ok(there.compose(&after)?);
    }
    if case.has("keep") {
        let keep: Items<NodeId> = entry(alloc, case, "keep")?;
        let some = there.restrict(keep.as_slice())?;
        return Ok(some.copy()?);
    }
    Ok(there)
}

/// The nodes that have images, with them.
fn listed(alloc: Global, there: &Renaming) -> Result<Value> {
    let mut values = Vec::new(alloc);
    for (from, to) in there.pairs() {
        values.push(list(alloc, &[*from, *to])?)?;
    }
    Ok(Value::Array(values))
}

/// The image of each node, where it has one.
fn found(alloc: Global, there: &Renaming, nodes: &[NodeId]) -> Result<Value> {
    let mut images = Vec::new(alloc);
    for node in nodes {
        images.push(there.get(*node))?;
    }
    list(alloc, images.as_slice())
}

/// The image of each node; itself where it has none.
fn images(alloc: Global, there: &Renaming, nodes: &[NodeId]) -> Result<Value> {
    let mut images = Vec::new(alloc);
    for node in nodes {
        images.push(there.image(*node))?;
    }
    list(alloc, images.as_slice())
}

/// Where each node leads back to; itself where there is no way back.
fn back(alloc: Global, there: &Renaming, nodes: &[NodeId]) -> Result<Value> {
    match there.inverse()? {
        Some(back) => images(alloc, &back, nodes),
        None => list(alloc, nodes),
    }
}

/// What is asked of some nodes.
fn of_nodes(alloc: Global, there: &Renaming, ask: &str, nodes: &[NodeId]) -> Result<Value> {
    match ask {
        "get" => found(alloc, there, nodes),
        "image" => images(alloc, there, nodes),
        "back" => back(alloc, there, nodes),
        _ => bail!("nothing is asked"),
    }
}

/// What a case asks of its renaming.
pub fn answer(alloc: Global, case: Case<'_>) -> Result<Value> {
    let adds = pairs(alloc, case, "adds")?;
    let there = changed(alloc, case, adds.as_slice())?;
    match case.text("ask")? {
        "added" => added(alloc, adds.as_slice()),
        "pairs" => listed(alloc, &there),
        "injective" => Ok(Value::Bool(there.is_injective()?)),
        ask => {
            let nodes: Items<NodeId> = entry(alloc, case, "of")?;
            of_nodes(alloc, &there, ask, nodes.as_slice())
        }
    }
}
