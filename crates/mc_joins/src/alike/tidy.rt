// States in which nothing can be dropped or merged.
ghost use Rattle.std.specs.Prelude.{◌↔◌, IfOk, IsTrue};
ghost use Rattle.mc_pure.specs.Pure.{AreOfOneKind};
ghost use Rattle.mc_state.specs.Facts.{CanMerge, IsTidy};
ghost use Rattle.mc_joins.specs.Alike.Tidy.{CanBeMerged, NoneMergesWith, NoneMerges, AllReached};

use mc_base::{Kind, NoMemory, NodeId};
use mc_symbolic::{State, is_reached};
use std::alloc::Global;

/// Whether two nodes are of one kind, or one of them is node 0.
fn are_of_one_kind(state: &State, a: NodeId, b: NodeId) -> bool
    ensures { IsTrue result ↔ AreOfOneKind state.now.kinds a b }
{
    // for the proof alone
    mc_state::tests_tell();
    if state.has_kind(Kind::Int, a) && state.has_kind(Kind::Int, b) {
        return true;
    }
    state.has_kind(Kind::Ptr, a) && state.has_kind(Kind::Ptr, b)
}

/// Whether one node may stand in place of another.
fn can_merge(state: &State, keep: NodeId, gone: NodeId) -> bool
    ensures { IsTrue result ↔ CanMerge state.now.kinds keep gone }
{
    if !state.is_there(keep) || !state.is_there(gone) {
        return false;
    }
    if keep.0 == gone.0 || gone.0 == 0 {
        return false;
    }
    are_of_one_kind(state, keep, gone)
}

/// Whether one node may stand in place of another and equals it.
fn can_be_merged(state: &State, keep: NodeId, gone: NodeId) -> bool
    ensures { IsTrue result ↔ CanBeMerged state.now keep gone }
{
    if !can_merge(state, keep, gone) {
        return false;
    }
    state.are_equal(keep, gone)
}

/// Whether no node can be merged with this one.
fn none_merges_with(state: &State, keep: NodeId) -> bool
    ensures { IsTrue result ↔ NoneMergesWith state.now keep }
{
    for gone in state.nodes() {
        if can_be_merged(state, keep, *gone) {
            return false;
        }
    }
    true
}

/// Whether no two nodes can be merged.
fn none_merges(state: &State) -> bool
    ensures { IsTrue result ↔ NoneMerges state.now }
{
    for keep in state.nodes() {
        if !none_merges_with(state, *keep) {
            return false;
        }
    }
    true
}

/// Whether each edge starts at a node that is reached.
fn all_reached(alloc: Global, state: &State) -> Result<bool, NoMemory>
    ensures { IfOk result (λ reached. IsTrue reached ↔ AllReached state.now) }
{
    for edge in state.edges() {
        if !is_reached(alloc, state, edge.1.start())? {
            return Ok(false);
        }
    }
    Ok(true)
}

/// Whether a state is tidy: it is not false, each edge starts at a node that is reached, and no two nodes are equal
/// that could be merged.
pub fn is_tidy(alloc: Global, state: &State) -> Result<bool, NoMemory>
    ensures { IfOk result (λ tidy. IsTrue tidy ↔ IsTidy state.now) }
{
    if state.is_false() {
        return Ok(false);
    }
    if !none_merges(state) {
        return Ok(false);
    }
    all_reached(alloc, state)
}
