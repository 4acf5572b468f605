// Facts about nodes: which are entailed, which may be assumed, and their canonical lists. Nodes 1 to 4 are numbers, 5 and
// 6 are pointers.
use crate::entries::{entry_or_none, list};
use crate::known::{add_node, assume_all, block_all};
use anyhow::{Result, bail};
use mc_base::{Atom, Items, NoMemory, NodeId};
use mc_cases::Case;
use mc_lines::cert::Entry;
use mc_pure::Pure;
use mc_pure_ops::canon::{canon, forget};
use mc_state::NodeKind;
use serde_json::Value;
use std::alloc::Global;

static KINDS: [(NodeId, NodeKind); 6] = [
    (NodeId(5), NodeKind::Ptr),
    (NodeId(1), NodeKind::Int),
    (NodeId(2), NodeKind::Int),
    (NodeId(3), NodeKind::Int),
    (NodeId(4), NodeKind::Int),
    (NodeId(6), NodeKind::Ptr),
];

fn add_nodes(pure: &mut Pure) -> Result<(), NoMemory> {
    for (node, kind) in KINDS.iter() {
        add_node(pure, *node, *kind)?;
    }
    Ok(())
}

fn unblock_all(pure: &mut Pure, starts: &[NodeId]) -> Result<(), NoMemory> {
    for start in starts {
        pure.unblock(*start)?;
    }
    Ok(())
}

// The six nodes with the atoms of a case assumed, its blocks started, and some of them ended again.
fn state(alloc: Global, case: Case<'_>) -> Result<Pure> {
    let mut pure = known(alloc, case)?;
    let starts: Items<NodeId> = entry_or_none(alloc, case, "blocks")?;
    block_all(&mut pure, starts.as_slice())?;
    let ended: Items<NodeId> = entry_or_none(alloc, case, "unblocked")?;
    unblock_all(&mut pure, ended.as_slice())?;
    Ok(pure)
}

// The six nodes with the atoms of a case assumed.
fn known(alloc: Global, case: Case<'_>) -> Result<Pure> {
    let atoms: Items<Atom> = entry_or_none(alloc, case, "atoms")?;
    let mut pure = Pure::new(alloc)?;
    add_nodes(&mut pure)?;
    assume_all(&mut pure, atoms.as_slice())?;
    Ok(pure)
}

/// What comes of the questions of a case, one after the other.
pub fn answer(alloc: Global, case: Case<'_>) -> Result<Value> {
    let pure = state(alloc, case)?;
    let mut out = String::new(alloc);
    add_asked(alloc, &mut out, case, &pure)?;
    add_ranges(alloc, &mut out, case, &pure)?;
    if case.is("starts") {
        add_starts(&mut out, pure.starts())?;
    }
    Ok(Value::String(out))
}

// Whether the facts are inconsistent, what they entail, and what may be assumed.
fn add_asked(alloc: Global, out: &mut String, case: Case<'_>, pure: &Pure) -> Result<()> {
    if pure.is_false() {
        out.push_str("inconsistent ")?;
    }
    let asks: Items<Atom> = entry_or_none(alloc, case, "asks")?;
    add_entailed(out, pure, asks.as_slice())?;
    let assumes: Items<Atom> = entry_or_none(alloc, case, "assumes")?;
    add_allowed(out, pure, assumes.as_slice())?;
    Ok(())
}

fn add_entailed(out: &mut String, pure: &Pure, atoms: &[Atom]) -> Result<(), NoMemory> {
    for atom in atoms {
        let word = if pure.entails(atom) {
            "entailed "
        } else {
            "open "
        };
        out.push_str(word)?;
    }
    Ok(())
}

fn add_allowed(out: &mut String, pure: &Pure, atoms: &[Atom]) -> Result<(), NoMemory> {
    for atom in atoms {
        let word = if pure.allows(atom) {
            "allowed "
        } else {
            "refused "
        };
        out.push_str(word)?;
    }
    Ok(())
}

fn add_ranges(alloc: Global, out: &mut String, case: Case<'_>, pure: &Pure) -> Result<()> {
    let nodes: Items<NodeId> = entry_or_none(alloc, case, "ranges")?;
    for node in nodes.as_slice() {
        add_range(out, pure, *node)?;
    }
    Ok(())
}

// The range of a node.
fn add_range(out: &mut String, pure: &Pure, node: NodeId) -> Result<(), NoMemory> {
    if !pure.has(node) || pure.is_false() {
        return out.push_str("no range ");
    }
    let range = pure.range(node);
    let low = range.lo;
    let high = range.hi;
    write!(out, "[{low},{high}] ")
}

fn add_starts(out: &mut String, starts: &[NodeId]) -> Result<(), NoMemory> {
    for start in starts {
        let number = start.0;
        write!(out, "block at {number} ")?;
    }
    Ok(())
}

/// The canonical list of what is known, or what is left of it where a node is forgotten.
pub fn canonical(alloc: Global, case: Case<'_>) -> Result<Value> {
    let pure = state(alloc, case)?;
    let atoms = match case.find("forgotten") {
        None => canon(alloc, &pure)?,
        Some(value) => left(alloc, &pure, value)?,
    };
    list(alloc, atoms.as_slice())
}

// What is left where a node is forgotten.
fn left(alloc: Global, pure: &Pure, value: &Value) -> Result<Vec<Atom>> {
    let gone: NodeId = Entry::read(alloc, value)?;
    if gone.0 == 0 || !pure.has(gone) {
        bail!("no node that can be forgotten");
    }
    Ok(forget(alloc, pure, gone)?)
}
