// Blocks of rules at a term, among edges of a state that are not used.
ghost use Rattle.std.specs.Prelude.{◌≡◌, ◌==◌, ◌&&◌, ◌++◌, Some, None, IfOk, map, option_map, if◌then◌else◌};
ghost use Rattle.mc_state.specs.Terms.{plain};
ghost use Rattle.mc_state.specs.Known.{Test, Tells};
ghost use Rattle.mc_cover.specs.Terms.{equal_terms};
ghost use Rattle.mc_cover.specs.Goals.{all_there, whole_block};
ghost use Rattle.mc_cover.specs.Guessed.{first_edge};
ghost use Rattle.mc_cover.specs.Search.Setting.{free_edges};

use crate::guess::edges::{are_equal, is_used};
use mc_base::{EdgeId, NoMemory, NodeId, StructId};
use mc_cover::search::plain;
use mc_state::Term;
use mc_state::graph::Edge;
use mc_symbolic::State;
use std::alloc::Global;

/// Adds the nodes of fields, and answers whether all are known.
fn push_fields(nodes: &mut Vec<NodeId>, fields: &[Option<NodeId>]) -> Result<bool, NoMemory>
    ensures { IfOk result (λ all. (if all then Some nodes.new.items else None)
        ≡ option_map (λ known. nodes.old.items ++ known) (all_there fields.now)) }
{
    for field in fields {
        match field {
            None => return Ok(false),
            Some(node) => nodes.push(*node)?,
        }
    }
    Ok(true)
}

/// Whether the structs are one, and the terms entailed equal.
fn is_there(state: &State, at: &Term, start: NodeId, shape: StructId, own: StructId) -> bool
    ensures { (know : Test) → Tells know state.now → result ≡ (own.0 == shape.0 && equal_terms know at.now (plain start)) }
{
    own.0 == shape.0 && are_equal(state, at, &plain(start))
}

/// The nodes of fields, where all are known.
fn known_fields(alloc: Global, fields: &[Option<NodeId>]) -> Result<Option<Vec<NodeId>>, NoMemory>
    ensures { IfOk result (λ found. option_map (λ nodes. nodes.items) found ≡ all_there fields.now) }
{
    let mut nodes = Vec::with_capacity(alloc, fields.len())?;
    if push_fields(&mut nodes, fields)? {
        Ok(Some(nodes))
    } else {
        Ok(None)
    }
}

/// The nodes of the fields of a block of the struct at an equal node, where all are known.
fn whole_at(
    alloc: Global,
    state: &State,
    at: &Term,
    shape: StructId,
    edge: &Edge,
) -> Result<Option<Vec<NodeId>>, NoMemory>
    ensures { IfOk result (λ found. (know : Test) → Tells know state.now → option_map (λ nodes. nodes.items) found
        ≡ whole_block know at.now shape edge.now) }
{
    match edge {
        Edge::Block {
            at: start,
            shape: own,
            fields,
        } => {
            if !is_there(state, at, *start, shape, *own) {
                return Ok(None);
            }
            known_fields(alloc, fields.as_slice())
        }
        Edge::Ind { .. } => Ok(None),
        Edge::Seg { .. } => Ok(None),
    }
}

/// The least block of the struct at an equal node that is not used and of which all fields are known, with their nodes.
pub fn block(
    alloc: Global,
    state: &State,
    used: &[EdgeId],
    at: &Term,
    shape: StructId,
) -> Result<Option<(EdgeId, Vec<NodeId>)>, NoMemory>
    ensures { IfOk result (λ found. (know : Test) → Tells know state.now → option_map (λ b. (b.0, b.1.items)) found
        ≡ first_edge (whole_block know at.now shape) (free_edges state.now used.now)) }
{
    state.is_bounded();
    for entry in state.edges() {
        if is_used(used, entry.0) {
            continue;
        }
        match whole_at(alloc, state, at, shape, &entry.1)? {
            Some(nodes) => return Ok(Some((entry.0, nodes))),
            None => {}
        }
    }
    Ok(None)
}
