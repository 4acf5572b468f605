// A node for each pair.
ghost use Rattle.std.specs.Prelude.{◌≡◌, IfOk};
ghost use Rattle.mc_pure_ops.specs.Join.Joint.{HaveOneKind, AreJoinable};
ghost use Rattle.mc_pure_ops.specs.Join.Parts.{node, MayBeKind, HasFirst, HasAll};

use mc_base::{Kind, NoMemory, NodeId};
use mc_pure::Pure;
use std::alloc::Global;

/// The node of a place.
pub fn node_at(place: usize) -> NodeId
    ensures { result ≡ node place }
{
    NodeId(place as u64)
}

/// The kind of a node of the pair other than 0.
pub fn kind_of_pair(left: &Pure, right: &Pure, pair: &(NodeId, NodeId)) -> Option<Kind>
    requires { HaveOneKind left.now right.now pair.now.0 pair.now.1 }
    ensures { MayBeKind left.now right.now pair.now.0 pair.now.1 result }
{
    if pair.0.0 != 0 {
        return left.kind(pair.0);
    }
    if pair.1.0 != 0 {
        return right.kind(pair.1);
    }
    None
}

/// The pairs but the first, numbered by their places, each with its kind.
pub fn numbered(
    alloc: Global,
    left: &Pure,
    right: &Pure,
    pairs: &[(NodeId, NodeId)],
) -> Result<Pure, NoMemory>
    requires { AreJoinable left.now right.now pairs.now }
    ensures { IfOk result (λ joint. HasAll left.now right.now pairs.now joint) }
{
    let mut joint = Pure::new(alloc)?;
    for i in 1..pairs.len() {
        let Some(kind) = kind_of_pair(left, right, &pairs[i]) else {
            continue;
        };
        joint.node(node_at(i), kind)?;
    }
    Ok(joint)
}
