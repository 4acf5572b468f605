// Edges of a side that steps have not used.
ghost use Rattle.std.specs.Prelude.{◌≡◌, ◌==◌, ◌&&◌, not, ◌++◌, ◌∷◌, [], Some, None, IfOk, find, filter};
ghost use Rattle.std.specs.Option.{option_copied};
ghost use Rattle.mc_state.specs.Named.{is_among};
ghost use Rattle.mc_cover.specs.Marks.{ids_of};
ghost use Rattle.mc_cover.specs.Search.Setting.{free_edges};
ghost use Rattle.mc_replay.specs.Seen.{starts_there, is_here, may_fold, folded_edges};

use crate::pairs::{Pair, is_alone};
use mc_base::{EdgeId, NoMemory, NodeId};
use mc_state::Side;
use mc_state::graph::Edge;
use mc_symbolic::State;
use std::alloc::Global;

/// Whether the edge is one of the used ones.
pub fn is_used(used: &[EdgeId], id: EdgeId) -> bool
    ensures { result ≡ is_among id used.now }
{
    for other in used {
        if other.0 == id.0 {
            return true;
        }
    }
    false
}

/// Whether an edge is not used, and starts at a node.
fn is_here(used: &[EdgeId], node: NodeId, entry: &(EdgeId, Edge)) -> bool
    ensures { result ≡ is_here used.now node entry.now }
{
    !is_used(used, entry.0) && entry.1.start().0 == node.0
}

/// The first of the edges that is not used and starts at a node.
fn first_here<'a>(
    edges: &'a [(EdgeId, Edge)],
    used: &[EdgeId],
    node: NodeId,
) -> Option<&'a (EdgeId, Edge)>
    ensures { option_copied result ≡ find (is_here used.now node) edges.now }
{
    for entry in edges {
        if is_here(used, node, entry) {
            return Some(entry);
        }
    }
    None
}

/// The least edge that is not used and starts at a node.
pub fn edge_from<'a>(state: &'a State, used: &[EdgeId], node: NodeId) -> Option<&'a (EdgeId, Edge)>
    ensures { option_copied result ≡ find (starts_there node) (free_edges state.now used.now) }
{
    state.is_bounded();
    first_here(state.edges(), used, node)
}

/// Whether an edge is not used, and a fold at the pair may use it.
fn may_fold(
    used: &[EdgeId],
    pairs: &[Pair],
    side: Side,
    pair: &Pair,
    entry: &(EdgeId, Edge),
) -> bool
    ensures { result ≡ may_fold used.now pairs.now side pair.now entry.now }
{
    !is_used(used, entry.0) && is_alone(pairs, side, pair, entry.1.start())
}

/// The ids of those of the edges that are used or that a fold at the pair may not use.
fn ids_without(
    alloc: Global,
    edges: &[(EdgeId, Edge)],
    used: &[EdgeId],
    pairs: &[Pair],
    side: Side,
    pair: &Pair,
) -> Result<Vec<EdgeId>, NoMemory>
    ensures { IfOk result (λ ids. ids.items ≡ ids_of (filter (λ e. not (may_fold used.now pairs.now side pair.now e)) edges.now)) }
{
    let mut ids = Vec::new(alloc);
    for entry in edges {
        if !may_fold(used, pairs, side, pair, entry) {
            ids.push(entry.0)?;
        }
    }
    Ok(ids)
}

/// The edges that are used or that a fold at the pair may not use.
pub fn not_foldable(
    alloc: Global,
    state: &State,
    used: &[EdgeId],
    pairs: &[Pair],
    side: Side,
    pair: &Pair,
) -> Result<Vec<EdgeId>, NoMemory>
    ensures { IfOk result (λ ids. free_edges state.now ids.items
        ≡ folded_edges (free_edges state.now used.now) pairs.now side pair.now) }
{
    state.is_bounded();
    let ids = ids_without(alloc, state.edges(), used, pairs, side, pair)?;
    Ok(ids)
}
