// What was seen of a state.
use mc_base::{EdgeId, NodeId, VarId};
use mc_state::RawState;
use mc_state::graph::Edge;

/// What was seen of a state: the shape of a head without atoms; the node of the state for each node of the head, and the
/// edge for each edge; the values of variables that hold constants alone; and the places of the edges that were seen.
#[derive(Drop)]
pub struct Seen {
    pub raw: RawState,
    pub images: Vec<NodeId>,
    pub edges: Vec<EdgeId>,
    pub flags: Vec<(VarId, i64)>,
    pub used: Vec<bool>,
}

/// Whether two edges are the same.
fn are_same(one: &Edge, other: &Edge) -> bool {
    match (one, other) {
        (
            Edge::Block { at, shape, fields },
            Edge::Block {
                at: at2,
                shape: shape2,
                fields: fields2,
            },
        ) => *at == *at2 && *shape == *shape2 && fields.as_slice() == fields2.as_slice(),
        (
            Edge::Ind { at, pred, args },
            Edge::Ind {
                at: at2,
                pred: pred2,
                args: args2,
            },
        ) => *at == *at2 && *pred == *pred2 && args.as_slice() == args2.as_slice(),
        (
            Edge::Seg {
                at,
                args,
                pred,
                end,
                end_args,
            },
            Edge::Seg {
                at: at2,
                args: args2,
                pred: pred2,
                end: end2,
                end_args: ends2,
            },
        ) => {
            *at == *at2
                && *pred == *pred2
                && *end == *end2
                && args.as_slice() == args2.as_slice()
                && end_args.as_slice() == ends2.as_slice()
        }
        _ => false,
    }
}

/// Whether two lists of edges are the same.
fn are_all_same(one: &[Edge], other: &[Edge]) -> bool {
    if one.len() != other.len() {
        return false;
    }
    for (place, edge) in one.iter().enumerate() {
        match other.get(place) {
            Some(own) => {
                if !are_same(edge, own) {
                    return false;
                }
            }
            None => return false,
        }
    }
    true
}

/// Whether two shapes are the same, atoms aside.
pub fn are_alike(one: &RawState, other: &RawState) -> bool {
    one.whole == other.whole
        && one.vars.as_slice() == other.vars.as_slice()
        && one.kinds.as_slice() == other.kinds.as_slice()
        && are_all_same(one.edges.as_slice(), other.edges.as_slice())
}
