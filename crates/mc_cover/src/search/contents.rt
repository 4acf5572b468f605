// What the block of a rule holds.
ghost use Rattle.std.specs.Prelude.{◌≡◌, ◌==◌, ◌&&◌, ◌++◌, Some, None, IfOk, map, option_map, option_and_then, if◌then◌else◌};
ghost use Rattle.mc_state.specs.Terms.{plain};
ghost use Rattle.mc_state.specs.Known.{Test, Tells};
ghost use Rattle.mc_cover.specs.Goals.{all_there, whole_block, contents_by};
ghost use Rattle.mc_cover.specs.Terms.{equal_terms};
ghost use Rattle.mc_cover.specs.Search.Setting.{free_edges};

use crate::search::edges::free_edge;
use crate::search::terms::{are_equal, plain};
use mc_base::{EdgeId, NoMemory, NodeId, StructId};
use mc_state::Term;
use mc_state::graph::Edge;
use mc_symbolic::State;

/// Adds the nodes of fields, and answers whether all are known.
pub fn push_fields(names: &mut Vec<Term>, fields: &[Option<NodeId>]) -> Result<bool, NoMemory>
    ensures { IfOk result (λ all. (if all then Some names.new.items else None)
        ≡ option_map (λ nodes. names.old.items ++ map plain nodes) (all_there fields.now)) }
{
    for field in fields {
        match field {
            None => return Ok(false),
            Some(node) => names.push(plain(*node))?,
        }
    }
    Ok(true)
}

// Whether the structs are one, and the terms entailed equal.
fn is_there(state: &State, at: &Term, own: NodeId, shape: StructId, other: StructId) -> bool
    ensures { (know : Test) → Tells know state.now → result ≡ (other.0 == shape.0 && equal_terms know at.now (plain own)) }
{
    other.0 == shape.0 && are_equal(state, at, &plain(own))
}

// The fields of a block of the struct at an equal node. None where the edge is no such block.
fn fields_of<'a>(
    state: &State,
    at: &Term,
    shape: StructId,
    edge: &'a Edge,
) -> Option<&'a [Option<NodeId>]>
    ensures { (know : Test) → Tells know state.now → option_and_then (λ fields. all_there fields.now) result
        ≡ whole_block know at.now shape edge.now }
{
    match edge {
        Edge::Block {
            at: own,
            shape: other,
            fields,
        } => {
            if !is_there(state, at, *own, shape, *other) {
                return None;
            }
            Some(fields.as_slice())
        }
        Edge::Ind { .. } => None,
        Edge::Seg { .. } => None,
    }
}

/// The fields of the block of a rule, none where no block is asked for. None where it is not there.
pub fn fields_by<'a>(
    state: &'a State,
    used: &[EdgeId],
    at: &Term,
    block: Option<StructId>,
    id: Option<EdgeId>,
) -> Option<&'a [Option<NodeId>]>
    ensures { (know : Test) → Tells know state.now → option_and_then (λ fields. all_there fields.now) result
        ≡ contents_by know (free_edges state.now used.now) at.now block id }
{
    match block {
        None => {
            if id.is_some() {
                return None;
            }
            Some(&[])
        }
        Some(shape) => match id {
            None => None,
            Some(id) => match free_edge(state, used, id) {
                None => None,
                Some(edge) => fields_of(state, at, shape, edge),
            },
        },
    }
}
