// Goals of side branches.
use mc_base::{Args, NodeId, PredId};

/// What a side branch has to show: that the predicate holds at the node with the arguments on some memory.
#[derive(Drop)]
pub struct Goal {
    pub pred: PredId,
    pub at: NodeId,
    pub args: Args<NodeId>,
}
