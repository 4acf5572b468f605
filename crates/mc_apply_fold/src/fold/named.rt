// Edges that a line names.
ghost use Rattle.std.specs.Prelude.{◌≡◌};
ghost use Rattle.mc_state.specs.Named.{are_distinct, are_named, are_there, is_among, is_apart};

use mc_base::EdgeId;
use mc_symbolic::State;

/// Whether each edge is there.
fn are_there(s: &State, ids: &[EdgeId]) -> bool
    ensures { result ≡ are_there s.now.graph.edges ids.now }
{
    for id in ids {
        if s.edge(*id).is_none() {
            return false;
        }
    }
    true
}

/// Whether an id is one of a list.
fn is_among(id: EdgeId, ids: &[EdgeId]) -> bool
    ensures { result ≡ is_among id ids.now }
{
    ids.iter().any(|other| other.0 == id.0)
}

/// Whether no id stands twice.
pub fn are_distinct(ids: &[EdgeId]) -> bool
    ensures { result ≡ are_distinct ids.now }
{
    for (i, id) in ids.iter().enumerate() {
        if is_among(*id, &ids[i + 1..]) {
            return false;
        }
    }
    true
}

/// Whether the block's edge, if one is named, is there and none of the others.
fn is_apart(s: &State, block: Option<EdgeId>, ids: &[EdgeId]) -> bool
    ensures { result ≡ is_apart s.now.graph.edges block ids.now }
{
    match block {
        None => true,
        Some(id) => s.edge(id).is_some() && !is_among(id, ids),
    }
}

/// Whether all named edges are there and distinct.
pub fn are_named(s: &State, block: Option<EdgeId>, ids: &[EdgeId]) -> bool
    ensures { result ≡ are_named s.now.graph.edges block ids.now }
{
    is_apart(s, block, ids) && are_there(s, ids) && are_distinct(ids)
}
