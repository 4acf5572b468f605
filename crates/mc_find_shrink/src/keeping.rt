// Which blocks stay.
use crate::survey::Live;
use crate::{Manner, Step};
use mc_base::{Kind, NoMemory, NodeId, StructId};
use mc_find_view::sight::{Nodes, edge_names, is_dead_field};
use mc_state::graph::Edge;
use std::alloc::Global;

/// Whether a block has a pointer that is stored before it can be read.
fn has_dead_pointer(
    nodes: &Nodes<'_>,
    at: NodeId,
    shape: StructId,
    fields: &[Option<NodeId>],
) -> bool {
    for place in 0..fields.len() {
        if nodes.sight.field_kind(shape, place) == Kind::Ptr
            && is_dead_field(nodes.sight, nodes.state, nodes.point, at, shape, place)
        {
            return true;
        }
    }
    false
}

/// Whether a block stays for a live variable.
fn stays_for_variable(manner: Manner<'_>, nodes: &Nodes<'_>, live: &Live, edge: &Edge) -> bool {
    let Edge::Block { at, shape, fields } = edge else {
        return false;
    };
    if !live.has(nodes.state, *at) {
        return false;
    }
    let is_coarse = manner.step == Step::Coarse || manner.step == Step::Match;
    !is_coarse || has_dead_pointer(nodes, *at, *shape, fields.as_slice())
}

/// Whether a block has a field at a live variable's node.
fn stands_before(nodes: &Nodes<'_>, live: &Live, edge: &Edge) -> bool {
    let Edge::Block { fields, .. } = edge else {
        return false;
    };
    for field in fields.as_slice() {
        if let Some(node) = field {
            if node.0 != 0
                && !nodes.state.are_equal(*node, NodeId(0))
                && live.has(nodes.state, *node)
            {
                return true;
            }
        }
    }
    false
}

/// Whether the edge at a place is marked.
fn has(list: &[bool], place: usize) -> bool {
    list.get(place).copied().unwrap_or(false)
}

/// Whether an edge other than two names a node.
fn is_named_elsewhere(nodes: &Nodes<'_>, one: usize, other: usize, node: NodeId) -> bool {
    for (place, entry) in nodes.state.edges().iter().enumerate() {
        if place != one && place != other && edge_names(nodes, &entry.1, node) {
            return true;
        }
    }
    false
}

/// Whether a block names a node by more than one field.
fn names_twice(nodes: &Nodes<'_>, edge: &Edge, node: NodeId) -> bool {
    let Edge::Block { fields, .. } = edge else {
        return false;
    };
    let mut is_named = false;
    for field in fields.as_slice() {
        if let Some(own) = field {
            if nodes.state.are_equal(*own, node) {
                if is_named {
                    return true;
                }
                is_named = true;
            }
        }
    }
    false
}

/// Whether a block is of another struct than a kept block that names it, and is named once more.
fn is_shared(nodes: &Nodes<'_>, kept: &[bool], own: usize, at: NodeId, shape: StructId) -> bool {
    for (place, entry) in nodes.state.edges().iter().enumerate() {
        if let Edge::Block { shape: other, .. } = &entry.1 {
            if has(kept, place)
                && *other != shape
                && nodes.names(&entry.1, at)
                && (names_twice(nodes, &entry.1, at) || is_named_elsewhere(nodes, own, place, at))
            {
                return true;
            }
        }
    }
    false
}

/// Marks the blocks that stay for a kept one of another struct; whether there is a new one.
fn keep_shared(nodes: &Nodes<'_>, kept: &mut Vec<bool>) -> bool {
    let mut changed = false;
    for (place, entry) in nodes.state.edges().iter().enumerate() {
        if let Edge::Block { at, shape, .. } = &entry.1 {
            if !has(kept.as_slice(), place)
                && is_shared(nodes, kept.as_slice(), place, *at, *shape)
            {
                mark(kept, place);
                changed = true;
            }
        }
    }
    changed
}

/// Marks the edge at a place.
fn mark(list: &mut Vec<bool>, place: usize) {
    if let Some(slot) = list.get_mut(place) {
        *slot = true;
    }
}

/// Whether a block has a field at the start of one that is marked as standing before.
fn leads_to(nodes: &Nodes<'_>, before: &[bool], edge: &Edge) -> bool {
    for (place, entry) in nodes.state.edges().iter().enumerate() {
        if has(before, place) && nodes.names(edge, entry.1.start()) {
            return true;
        }
    }
    false
}

/// Keeps the blocks with a field at the start of one that is marked as standing before. Marks of these.
fn keep_leading(
    alloc: Global,
    nodes: &Nodes<'_>,
    before: &[bool],
    kept: &mut Vec<bool>,
) -> Result<Vec<bool>, NoMemory> {
    let mut next = vec![in alloc; false; nodes.state.edges().len()]?;
    for (place, entry) in nodes.state.edges().iter().enumerate() {
        if let Edge::Block { .. } = &entry.1 {
            if leads_to(nodes, before, &entry.1) {
                mark(&mut next, place);
                mark(kept, place);
            }
        }
    }
    Ok(next)
}

/// Keeps blocks with a field at a live variable's node, and then those so many fields before.
fn keep_before(
    alloc: Global,
    nodes: &Nodes<'_>,
    live: &Live,
    count: usize,
    kept: &mut Vec<bool>,
) -> Result<(), NoMemory> {
    let mut before = vec![in alloc; false; nodes.state.edges().len()]?;
    for (place, entry) in nodes.state.edges().iter().enumerate() {
        if stands_before(nodes, live, &entry.1) {
            mark(&mut before, place);
            mark(kept, place);
        }
    }
    for _ in 1..count {
        before = keep_leading(alloc, nodes, before.as_slice(), kept)?;
    }
    Ok(())
}

/// For each edge whether it is a block that stays.
pub fn kept_blocks(
    alloc: Global,
    manner: Manner<'_>,
    nodes: &Nodes<'_>,
    live: &Live,
) -> Result<Vec<bool>, NoMemory> {
    let mut kept = Vec::with_capacity(alloc, nodes.state.edges().len())?;
    for entry in nodes.state.edges() {
        kept.push(stays_for_variable(manner, nodes, live, &entry.1))?;
    }
    if manner.before > 0 {
        keep_before(alloc, nodes, live, manner.before, &mut kept)?;
    }
    for _ in 0..nodes.state.edges().len() {
        if !keep_shared(nodes, &mut kept) {
            break;
        }
    }
    Ok(kept)
}
