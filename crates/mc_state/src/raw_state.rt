// States as documents write them.
use crate::graph::Edge;
use mc_base::{Atom, Items, NodeId};

/// The kind of a node as documents write it; node 0 alone is `Zero`.
#[derive(Clone, Copy, Debug, PartialEq, Eq)]
pub enum NodeKind {
    Zero,
    Int,
    Ptr,
}

/// A state as documents write it: the node of each variable where it is known, the kind of each node from
/// node 0 on, the edges, whose ids are their places, atoms, and whether the edges are all that is allocated.
/// Its numbers may be out of range.
#[derive(Drop)]
pub struct RawState {
    pub vars: Items<Option<NodeId>>,
    pub kinds: Items<NodeKind>,
    pub edges: Items<Edge>,
    pub atoms: Items<Atom>,
    pub whole: bool,
}
