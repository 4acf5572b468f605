// Terms.
use mc_base::NodeId;

/// A node and a number more.
#[derive(Clone, Copy, Debug, PartialEq, Eq)]
pub struct Term {
    pub node: NodeId,
    pub add: i64,
}
