// The nodes that are reached from null and the variables.
ghost use Rattle.std.specs.Prelude.{◌≡◌, ◌↔◌, ◌<◌, ◌∷◌, IfOk, OnOk, IsTrue, Some, false, slice_get, length, replicate};
ghost use Rattle.mc_base.specs.Nodes.{null};
ghost use Rattle.mc_state.specs.Graph.Edges.{known_nodes};
ghost use Rattle.mc_state.specs.Facts.{IsReached, IsFalse};
ghost use Rattle.mc_symbolic.specs.Reached.{IsOpened, Opens, Searches};

use crate::State;
use crate::nodes::{push_known, push_nodes};
use mc_base::{NULL, NoMemory, NodeId};
use std::alloc::Global;

/// Uses the edge at a place, where it is not used and starts at a node that equals this one.
fn open_at(
    state: &State,
    node: NodeId,
    place: usize,
    found: &mut Vec<NodeId>,
    used: &mut Vec<bool>,
) -> Result<(), NoMemory>
    requires there { place < length state.now.graph.edges }
    requires long { length used.old.items ≡ length state.now.graph.edges }
    ensures { OnOk result (IsOpened state.now node place found.old.items used.old.items found.new.items used.new.items) }
{
    if used[place] {
        return Ok(());
    }
    let edge = &state.edges()[place].1;
    if !state.are_equal(edge.start(), node) {
        return Ok(());
    }
    push_nodes(found, edge)?;
    used[place] = true;
    Ok(())
}

/// Uses all edges that are not used and start at nodes that equal this one.
fn open_all(
    state: &State,
    node: NodeId,
    found: &mut Vec<NodeId>,
    used: &mut Vec<bool>,
) -> Result<(), NoMemory>
    requires long { length used.old.items ≡ length state.now.graph.edges }
    ensures { OnOk result
        (Opens state.now node
        (length state.now.graph.edges) found.old.items used.old.items found.new.items used.new.items) }
{
    for place in 0..state.edges().len() {
        open_at(state, node, place, found, used)?;
    }
    Ok(())
}

/// Null and the nodes of variables.
fn roots(alloc: Global, state: &State) -> Result<Vec<NodeId>, NoMemory>
    ensures { IfOk result (λ found. found.items ≡ null ∷ known_nodes state.now.env) }
{
    let mut found = vec![in alloc; NULL]?;
    push_known(&mut found, state.env())?;
    Ok(found)
}

/// As many edges that are not used.
fn none_used(alloc: Global, count: usize) -> Result<Vec<bool>, NoMemory>
    ensures { IfOk result (λ used. used.items ≡ replicate count false) }
{
    vec![in alloc; false; count]
}

/// Whether a node is reached: found from null and the variables along edges and equalities.
pub fn is_reached(alloc: Global, state: &State, node: NodeId) -> Result<bool, NoMemory>
    ensures { IfOk result (λ reached. IsTrue reached ↔ IsReached state.now node) }
{
    if state.is_false() {
        return Ok(true);
    }
    state.is_bounded();
    let mut found = roots(alloc, state)?;
    let mut used = none_used(alloc, state.edges().len())?;
    let mut next = 0;
    while next < found.len() {
        let start = found[next];
        if state.are_equal(start, node) {
            return Ok(true);
        }
        open_all(state, start, &mut found, &mut used)?;
        next += 1;
    }
    Ok(false)
}
