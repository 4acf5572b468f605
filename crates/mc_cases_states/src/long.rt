// Long lists and deep trees, which take no deep stack of the machine. Their blocks stand at 1, 2 and so on.
use crate::entries::entry;
use crate::shapes::Shapes;
use anyhow::{Context, Result, bail};
use mc_base::{Items, NoMemory, NodeId, PredId, StructId};
use mc_cases::Case;
use mc_cover::search::cover;
use mc_flow::heap::Heap;
use mc_shape_search::sat::{holds, meets};
use mc_state::graph::Edge;
use mc_state::{NodeKind, RawState, Term};
use mc_state_io::raw::state_of;
use mc_symbolic::State;
use serde_json::Value;
use std::alloc::Global;

/// A block of a list: a number, and where the next one is.
fn add_node(heap: &mut Heap, at: u32, next: i64) -> Result<(), NoMemory> {
    if at > 0 {
        let at = u64::from(at);
        heap.add(at, 0, 2)?;
        heap.write(at, 0, 0, 5);
        heap.write(at, 0, 1, next);
    }
    Ok(())
}

/// A block of a tree: where its left child is; it has no other.
fn add_fork(heap: &mut Heap, at: u32, left: i64) -> Result<(), NoMemory> {
    if at > 0 {
        let at = u64::from(at);
        heap.add(at, 1, 2)?;
        heap.write(at, 1, 0, left);
        heap.write(at, 1, 1, 0);
    }
    Ok(())
}

/// A list of so many blocks, and what the last of them leads to.
fn long_list(alloc: Global, count: u32, end: i64) -> Result<Heap, NoMemory> {
    let mut heap = Heap::new(alloc);
    for at in 1..count {
        add_node(&mut heap, at, i64::from(at) + 1)?;
    }
    add_node(&mut heap, count, end)?;
    Ok(heap)
}

/// A tree of so many blocks, each the left child of the one before.
fn deep_tree(alloc: Global, count: u32) -> Result<Heap, NoMemory> {
    let mut heap = Heap::new(alloc);
    for at in 1..count {
        add_fork(&mut heap, at, i64::from(at) + 1)?;
    }
    add_fork(&mut heap, count, 0)?;
    Ok(heap)
}

fn heap_of(alloc: Global, case: Case<'_>, count: u32) -> Result<Heap> {
    match case.text("shape")? {
        "list" => Ok(long_list(alloc, count, case.integer("end")?)?),
        "tree" => Ok(deep_tree(alloc, count)?),
        _ => bail!("no shape"),
    }
}

/// The block at a node; the node after the last is the number of each.
fn block(alloc: Global, at: u64, count: u64) -> Result<Edge, NoMemory> {
    let next = if at < count { at + 1 } else { 0 };
    let mut fields = Items::new(alloc);
    fields.push(Some(NodeId(count.wrapping_add(1))))?;
    fields.push(Some(NodeId(next)))?;
    Ok(Edge::Block {
        at: NodeId(at),
        shape: StructId(0),
        fields,
    })
}

/// The state of a list of so many blocks, which ends in null.
fn list_state(alloc: Global, shapes: &Shapes, count: u32) -> Result<Option<State>, NoMemory> {
    let mut kinds = Vec::new(alloc);
    kinds.push(NodeKind::Zero)?;
    let mut edges = Items::new(alloc);
    for place in 0..count {
        kinds.push(NodeKind::Ptr)?;
        edges.push(block(alloc, u64::from(place) + 1, u64::from(count))?)?;
    }
    kinds.push(NodeKind::Int)?;
    let raw = RawState {
        vars: Items::new(alloc),
        kinds: Items::of(kinds),
        edges,
        atoms: Items::new(alloc),
        whole: true,
    };
    state_of(alloc, shapes.list(), &[], shapes.structs(), &raw)
}

/// How many marks the first cover of a predicate at node 1 has.
fn count_marks(
    alloc: Global,
    shapes: &Shapes,
    state: &State,
    pred: PredId,
) -> Result<Option<usize>, NoMemory> {
    if state.is_false() {
        return Ok(None);
    }
    let at = Term {
        node: NodeId(1),
        add: 0,
    };
    let found = cover(alloc, state, shapes.defs(), &[], pred, at, &[])?;
    Ok(found.map(|marks| marks.len()))
}

/// How many marks cover a list, or null.
fn covered(alloc: Global, shapes: &Shapes, pred: PredId, count: u32) -> Result<Value> {
    match list_state(alloc, shapes, count)? {
        Some(state) => Ok(Value::from(count_marks(alloc, shapes, &state, pred)?)),
        None => bail!("the state is malformed"),
    }
}

/// How many blocks the part has on which a predicate holds at address 1, or null.
fn found(alloc: Global, shapes: &Shapes, heap: &Heap, pred: PredId) -> Result<Value> {
    let found = holds(alloc, heap, shapes.defs(), pred, 1, &[])?;
    Ok(Value::from(found.map(|part| part.len())))
}

/// What a case asks of a long list or a deep tree.
pub fn answer(alloc: Global, shapes: &Shapes, case: Case<'_>) -> Result<Value> {
    let count = u32::try_from(case.number("blocks")?)
        .ok()
        .context("too many blocks")?;
    let pred: PredId = entry(alloc, case, "pred")?;
    match case.text("ask")? {
        "cover" => covered(alloc, shapes, pred, count),
        "holds" => found(alloc, shapes, &heap_of(alloc, case, count)?, pred),
        "meets" => {
            let heap = heap_of(alloc, case, count)?;
            let met = meets(alloc, &heap, shapes.defs(), pred, 1, &[])?;
            Ok(Value::Bool(met))
        }
        _ => bail!("nothing is asked"),
    }
}
