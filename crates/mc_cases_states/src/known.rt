// What is known of nodes, and what is entailed by it.
use crate::entries::{entry, entry_or_none};
use anyhow::Result;
use mc_base::{Atom, Items, Kind, NoMemory, NodeId};
use mc_cases::Case;
use mc_pure::Pure;
use mc_state::NodeKind;
use serde_json::Value;
use std::alloc::Global;

/// Adds a node of a kind; node 0 is there.
pub fn add_node(pure: &mut Pure, node: NodeId, kind: NodeKind) -> Result<(), NoMemory> {
    if pure.has(node) {
        return Ok(());
    }
    match kind {
        NodeKind::Zero => Ok(()),
        NodeKind::Int => pure.node(node, Kind::Int),
        NodeKind::Ptr => pure.node(node, Kind::Ptr),
    }
}

fn add_nodes(pure: &mut Pure, kinds: &[NodeKind]) -> Result<(), NoMemory> {
    for (number, kind) in kinds.iter().enumerate() {
        add_node(pure, NodeId(number as u64), *kind)?;
    }
    Ok(())
}

/// Assumes atoms, but for those that may not be assumed.
pub fn assume_all(pure: &mut Pure, atoms: &[Atom]) -> Result<(), NoMemory> {
    for atom in atoms {
        if pure.allows(atom) {
            pure.assume(atom)?;
        }
    }
    Ok(())
}

/// Starts blocks at those nodes that are there.
pub fn block_all(pure: &mut Pure, starts: &[NodeId]) -> Result<(), NoMemory> {
    for start in starts {
        if pure.has(*start) {
            pure.block(*start)?;
        }
    }
    Ok(())
}

/// What is known of a case's nodes by the atoms that stand by a name. Atoms that may not be assumed are left out.
pub fn known(alloc: Global, case: Case<'_>, key: &str) -> Result<Pure> {
    let kinds: Items<NodeKind> = entry(alloc, case, "kinds")?;
    let atoms: Items<Atom> = entry(alloc, case, key)?;
    let mut pure = Pure::new(alloc)?;
    add_nodes(&mut pure, kinds.as_slice())?;
    assume_all(&mut pure, atoms.as_slice())?;
    Ok(pure)
}

/// The same, and that blocks start at the nodes that stand by another name, if any do.
pub fn known_with(alloc: Global, case: Case<'_>, key: &str, blocks: &str) -> Result<Pure> {
    let mut pure = known(alloc, case, key)?;
    let starts: Items<NodeId> = entry_or_none(alloc, case, blocks)?;
    block_all(&mut pure, starts.as_slice())?;
    Ok(pure)
}

/// Of each atom that a case asks for, whether it is entailed; null where what is known can't be true.
pub fn entailed(alloc: Global, pure: &Pure, case: Case<'_>) -> Result<Value> {
    if pure.is_false() {
        return Ok(Value::Null);
    }
    let asks: Items<Atom> = entry(alloc, case, "asks")?;
    let mut answers = Vec::new(alloc);
    for atom in asks.as_slice() {
        answers.push(Value::Bool(pure.entails(atom)))?;
    }
    Ok(Value::Array(answers))
}

/// What of its atoms is entailed by what a case knows.
pub fn answer(alloc: Global, case: Case<'_>) -> Result<Value> {
    let pure = known(alloc, case, "atoms")?;
    entailed(alloc, &pure, case)
}
