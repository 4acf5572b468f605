// Which nodes an edge names, as far as they still count.
use crate::sight::Sight;
use mc_base::{NodeId, PointId, StructId};
use mc_state::graph::Edge;
use mc_symbolic::State;

/// Whether a field of a block at a node is stored through a live variable before it can be read.
pub fn is_dead_field(
    sight: &Sight<'_>,
    state: &State,
    point: PointId,
    at: NodeId,
    shape: StructId,
    field: usize,
) -> bool {
    for (place, stored) in sight.stored.fields().iter().enumerate() {
        let is_own = stored.shape == shape && stored.field == field as u64;
        if is_own && sight.stored.is_dead(point.0 as usize, place) {
            if let Some(node) = sight.live_node(state, point, stored.base) {
                if state.are_equal(node, at) {
                    return true;
                }
            }
        }
    }
    false
}

/// What is asked for among the nodes that an edge names.
#[derive(Clone, Copy)]
pub struct Nodes<'a> {
    pub sight: &'a Sight<'a>,
    pub state: &'a State,
    pub point: PointId,
}

impl Nodes<'_> {
    /// Whether a node is equal to one of these.
    fn is_among(&self, node: NodeId, list: &[NodeId]) -> bool {
        for each in list {
            if self.state.are_equal(node, *each) {
                return true;
            }
        }
        false
    }

    /// Whether a field that counts holds a node.
    fn is_content(
        &self,
        node: NodeId,
        at: NodeId,
        shape: StructId,
        fields: &[Option<NodeId>],
    ) -> bool {
        for (place, field) in fields.iter().enumerate() {
            if let Some(own) = field {
                if self.state.are_equal(node, *own)
                    && !is_dead_field(self.sight, self.state, self.point, at, shape, place)
                {
                    return true;
                }
            }
        }
        false
    }

    /// Whether an edge names a node after its start.
    pub fn names(&self, edge: &Edge, node: NodeId) -> bool {
        match edge {
            Edge::Block { at, shape, fields } => {
                self.is_content(node, *at, *shape, fields.as_slice())
            }
            Edge::Ind { args, .. } => self.is_among(node, args.as_slice()),
            Edge::Seg {
                args,
                end,
                end_args,
                ..
            } => {
                self.state.are_equal(node, *end)
                    || self.is_among(node, args.as_slice())
                    || self.is_among(node, end_args.as_slice())
            }
        }
    }
}

/// Whether an edge names a node, its start among them.
pub fn edge_names(nodes: &Nodes<'_>, edge: &Edge, node: NodeId) -> bool {
    nodes.state.are_equal(edge.start(), node) || nodes.names(edge, node)
}
