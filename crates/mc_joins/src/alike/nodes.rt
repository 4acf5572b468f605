// Renamings that are bijections of nodes.
ghost use Rattle.std.specs.Prelude.{◌≡◌, ◌↔◌, IsTrue};
ghost use Rattle.mc_base.specs.Nodes.{moved};
ghost use Rattle.mc_pure_ops.specs.Renaming.Images.{image};
ghost use Rattle.mc_joins.specs.Alike.Alike.{origin, way_back, GoesThere, ComesFrom, AllGoThere, AllComeFrom, IsBijection};

use mc_base::{Kind, NULL, NodeId};
use mc_pure_ops::renaming::Renaming;
use mc_symbolic::State;

/// The first of the nodes that has this image; node 0 where there is none.
fn origin(renaming: &Renaming, nodes: &[NodeId], to: NodeId) -> NodeId
    ensures { result ≡ moved (origin (image renaming.now) nodes.now) to }
{
    for node in nodes {
        if renaming.image(*node).0 == to.0 {
            return *node;
        }
    }
    NULL
}

/// The first of the state's nodes that has this image; node 0 where there is none.
pub fn back(state: &State, renaming: &Renaming, to: NodeId) -> NodeId
    ensures { result ≡ moved (way_back (image renaming.now) state.now) to }
{
    origin(renaming, state.nodes(), to)
}

/// Whether two kinds are the same, or both are missing.
fn same_kind(a: Option<Kind>, b: Option<Kind>) -> bool
    ensures { IsTrue result ↔ (a ≡ b) }
{
    match (a, b) {
        (Some(Kind::Int), Some(Kind::Int)) => true,
        (Some(Kind::Int), Some(Kind::Ptr)) => false,
        (Some(Kind::Ptr), Some(Kind::Int)) => false,
        (Some(Kind::Ptr), Some(Kind::Ptr)) => true,
        (Some(_), None) => false,
        (None, Some(_)) => false,
        (None, None) => true,
    }
}

/// Whether a node's image is of its kind, and the way back leads to the node.
fn goes(state: &State, other: &State, renaming: &Renaming, node: NodeId) -> bool
    ensures { IsTrue result ↔ GoesThere (image renaming.now) state.now other.now node }
{
    let there = renaming.image(node);
    same_kind(other.kind(there), state.kind(node)) && back(state, renaming, there).0 == node.0
}

/// Whether the node from which the way leads to this one is of its kind, and goes to it.
fn comes(state: &State, other: &State, renaming: &Renaming, node: NodeId) -> bool
    ensures { IsTrue result ↔ ComesFrom (image renaming.now) state.now other.now node }
{
    let from = back(state, renaming, node);
    same_kind(state.kind(from), other.kind(node)) && renaming.image(from).0 == node.0
}

/// Whether each node of the state goes to a node of the other of its kind, and comes back.
fn all_go(state: &State, other: &State, renaming: &Renaming) -> bool
    ensures { IsTrue result ↔ AllGoThere (image renaming.now) state.now other.now }
{
    for node in state.nodes() {
        if !goes(state, other, renaming, *node) {
            return false;
        }
    }
    true
}

/// Whether each node of the other comes from a node of the state of its kind.
fn all_come(state: &State, other: &State, renaming: &Renaming) -> bool
    ensures { IsTrue result ↔ AllComeFrom (image renaming.now) state.now other.now }
{
    for node in other.nodes() {
        if !comes(state, other, renaming, *node) {
            return false;
        }
    }
    true
}

/// Whether the renaming is a bijection of the states' nodes that keeps node 0 and each kind.
pub fn is_bijection(state: &State, other: &State, renaming: &Renaming) -> bool
    ensures { IsTrue result ↔ IsBijection (image renaming.now) state.now other.now }
{
    if renaming.image(NULL).0 != 0 {
        return false;
    }
    if !all_go(state, other, renaming) {
        return false;
    }
    all_come(state, other, renaming)
}
