// What a look at a state goes by.
use crate::live::{Rows, StoredFields};
use mc_base::{NodeId, PointId, VarId};
use mc_flow::Flow;
use mc_flow::defs::Defs;
use mc_symbolic::State;

/// What a look at a state goes by: the program, what it still needs, and whether all edges count, since it is asked later that
/// nothing is allocated.
#[derive(Clone, Copy)]
pub struct Sight<'a> {
    pub flow: &'a Flow,
    pub defs: &'a Defs,
    pub live: &'a Rows,
    pub stored: &'a StoredFields,
    pub constants: &'a [bool],
    pub all: bool,
}

impl Sight<'_> {
    /// Whether a variable counts at a point.
    pub fn is_live(&self, point: PointId, x: VarId) -> bool {
        self.live.has(point.0 as usize, x.0 as usize)
    }

    /// The node of a variable that counts at a point, where it is known.
    pub fn live_node(&self, state: &State, point: PointId, x: VarId) -> Option<NodeId> {
        if self.is_live(point, x) {
            state.var(x)
        } else {
            None
        }
    }

    /// Whether a variable is one that holds constants alone.
    pub fn is_constant(&self, x: VarId) -> bool {
        self.constants.get(x.0 as usize).copied().unwrap_or(false)
    }
}
