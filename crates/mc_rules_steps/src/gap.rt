// Why an instruction is unmet.
use mc_base::{NodeId, PredId, VarId};

/// What an instruction lacks at a state.
#[derive(Clone, Copy, Debug, PartialEq, Eq)]
pub enum Gap {
    /// A variable that is taken is not known.
    Uninit(VarId),
    /// No block is known at the node that is accessed.
    NoBlock(NodeId),
    /// A failing instruction is reached.
    Reached,
    /// No edges make the predicate at the node.
    NoShape(PredId, NodeId),
    /// The field of the block at the node is not known.
    UninitField(NodeId, u64),
    /// Something may be allocated; the flag tells whether the edges are all that is.
    NotEmpty(bool),
}
