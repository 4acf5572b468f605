// Edges that may be taken.
ghost use Rattle.std.specs.Prelude.{◌≡◌, ◌&&◌, not, ◌++◌, ◌∷◌, [], IfOk};
ghost use Rattle.std.specs.List.{filter};
ghost use Rattle.std.specs.Option.{option_copied};
ghost use Rattle.mc_state.specs.Graph.Graph.{edge_with};
ghost use Rattle.mc_state.specs.Known.{Test, Tells};
ghost use Rattle.mc_state.specs.Named.{is_among};
ghost use Rattle.mc_cover.specs.Marks.{ids_of};
ghost use Rattle.mc_cover.specs.Near.{near};
ghost use Rattle.mc_cover.specs.Terms.{equal_terms};
ghost use Rattle.mc_state.specs.Graph.Edges.{start_of};
ghost use Rattle.mc_state.specs.Terms.{plain};
ghost use Rattle.mc_cover.specs.Search.Setting.{free_edges, is_unused};

use crate::search::terms::{are_equal, plain};
use mc_base::{EdgeId, NoMemory};
use mc_state::Term;
use mc_state::graph::Edge;
use mc_symbolic::State;
use std::alloc::Global;

// Whether the edge is one of the used ones.
fn is_used(used: &[EdgeId], id: EdgeId) -> bool
    ensures { result ≡ is_among id used.now }
{
    for other in used {
        if other.0 == id.0 {
            return true;
        }
    }
    false
}

/// The edge with an id, if it may be taken.
pub fn free_edge<'a>(state: &'a State, used: &[EdgeId], id: EdgeId) -> Option<&'a Edge>
    ensures { option_copied result ≡ edge_with (free_edges state.now used.now) id }
{
    state.is_bounded();
    if is_used(used, id) {
        return None;
    }
    state.edge(id)
}

// Whether an edge starts at a node that equals the term, and may be taken.
fn is_near(state: &State, used: &[EdgeId], at: &Term, id: EdgeId, edge: &Edge) -> bool
    ensures { (know : Test) → Tells know state.now → result
        ≡ (equal_terms know at.now (plain (start_of edge.now)) && not (is_among id used.now)) }
{
    are_equal(state, at, &plain(edge.start())) && !is_used(used, id)
}

// Adds the id of an edge that starts at a node which equals the term and may be taken.
fn push_near(
    ids: &mut Vec<EdgeId>,
    state: &State,
    used: &[EdgeId],
    at: &Term,
    e: &(EdgeId, Edge),
) -> Result<(), NoMemory>
    ensures { IfOk result (λ _. (know : Test) → Tells know state.now → ids.new.items ≡ ids.old.items
        ++ ids_of (near know at.now (filter (is_unused used.now) (e.now ∷ [])))) }
{
    if is_near(state, used, at, e.0, &e.1) {
        ids.push(e.0)?;
    }
    Ok(())
}

/// The ids of the edges that start at nodes which equal the term and may be taken.
pub fn near_ids(
    alloc: Global,
    state: &State,
    used: &[EdgeId],
    at: &Term,
) -> Result<Vec<EdgeId>, NoMemory>
    ensures { IfOk result (λ ids. (know : Test) → Tells know state.now → ids.items
        ≡ ids_of (near know at.now (free_edges state.now used.now))) }
{
    state.is_bounded();
    let mut ids = Vec::new(alloc);
    for e in state.edges() {
        push_near(&mut ids, state, used, at, e)?;
    }
    Ok(ids)
}
