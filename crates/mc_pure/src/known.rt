// What is known from the beginning.
ghost use Rattle.std.specs.Prelude.{◌≡◌, ◌<◌, IfOk, MatchOption, length};
ghost use Rattle.std.specs.List.{remove};
ghost use Rattle.mc_pure.specs.Firsts.{without_first};

use crate::atoms::Atoms;
use crate::nodes::Nodes;
use mc_base::{NoMemory, NodeId};

/// Nodes with their kinds, the written atoms in order, and the nodes at which blocks start, each as often.
#[derive(Drop)]
pub struct Known {
    pub nodes: Nodes,
    pub written: Atoms,
    pub starts: Vec<NodeId>,
}

impl Known {
    ghost use Rattle.mc_pure.specs.Known.{pure_of};

    /// The same again.
    pub fn copy(&self) -> Result<Known, NoMemory>
        ensures { IfOk result (λ known. pure_of known ≡ pure_of self.now) }
    {
        let alloc = *self.starts.allocator();
        Ok(Known {
            nodes: self.nodes.copy()?,
            written: self.written.copy()?,
            starts: Vec::from_slice(alloc, self.starts.as_slice())?,
        })
    }
}

/// The place of the first such node.
fn first_place(starts: &[NodeId], at: NodeId) -> Option<usize>
    ensures { MatchOption result (without_first starts.now at ≡ starts.now)
        (λ i. (i < length starts.now) × (without_first starts.now at ≡ remove starts.now i)) }
{
    for i in 0..starts.len() {
        if starts[i].0 == at.0 {
            return Some(i);
        }
    }
    None
}

/// Takes the first such node away.
pub fn remove_first(starts: &mut Vec<NodeId>, at: NodeId)
    ensures { starts.new.items ≡ without_first starts.old.items at }
{
    if let Some(place) = first_place(starts.as_slice(), at) {
        starts.remove(place);
    }
}
