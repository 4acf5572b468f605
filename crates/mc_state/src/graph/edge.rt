// Edges.
ghost use Rattle.std.specs.Prelude.{◌≡◌, IfOk, slice_get};
ghost use Rattle.mc_state.specs.Graph.Edges.{start_of, fields_of, has_shape, with_field_node};

use mc_base::{Args, Items, NoMemory, NodeId, PredId, StructId};
use std::alloc::Global;

/// An edge. Each describes memory of its own, which no other edge describes.
#[derive(Drop)]
pub enum Edge {
    /// One block of a struct at a node, with the node of each field that is known.
    Block {
        at: NodeId,
        shape: StructId,
        fields: Items<Option<NodeId>>,
    },
    /// Memory on which a predicate holds, at a node with arguments.
    Ind {
        at: NodeId,
        pred: PredId,
        args: Args<NodeId>,
    },
    /// Memory that is a segment of a predicate, from a node with arguments to another with others.
    Seg {
        at: NodeId,
        args: Args<NodeId>,
        pred: PredId,
        end: NodeId,
        end_args: Args<NodeId>,
    },
}

impl Edge {
    /// The node at which the edge starts.
    pub fn start(&self) -> NodeId
        ensures { result ≡ start_of self.now }
    {
        match self {
            Edge::Block { at, .. } => *at,
            Edge::Ind { at, .. } => *at,
            Edge::Seg { at, .. } => *at,
        }
    }

    /// The node of a block's field, if it is known; None where the edge has no such field.
    pub fn field(&self, f: u64) -> Option<Option<NodeId>>
        ensures { result ≡ slice_get (fields_of self.now) f }
    {
        match self {
            Edge::Block { fields, .. } => fields.as_slice().get(f as usize).copied(),
            Edge::Ind { .. } => None,
            Edge::Seg { .. } => None,
        }
    }

    /// Whether the edge is a block of this struct.
    pub fn has_shape(&self, shape: StructId) -> bool
        ensures { result ≡ has_shape shape self.now }
    {
        match self {
            Edge::Block { shape: own, .. } => shape.0 == own.0,
            Edge::Ind { .. } => false,
            Edge::Seg { .. } => false,
        }
    }

    /// Gives a block's field a node, if there is such a field.
    pub fn set_field(&mut self, f: u64, node: NodeId)
        ensures { self.new ≡ with_field_node f node self.old }
    {
        match self {
            Edge::Block { fields, .. } => fields.set(f as usize, Some(node)),
            Edge::Ind { .. } => {}
            Edge::Seg { .. } => {}
        }
    }

    /// The same edge again.
    pub fn copy(&self, alloc: Global) -> Result<Edge, NoMemory>
        ensures { IfOk result (λ e. e ≡ self.now) }
    {
        match self {
            Edge::Block { at, shape, fields } => {
                let fields = fields.copy(alloc)?;
                Ok(Edge::Block {
                    at: *at,
                    shape: *shape,
                    fields,
                })
            }
            Edge::Ind { at, pred, args } => {
                let args = args.copy(alloc)?;
                Ok(Edge::Ind {
                    at: *at,
                    pred: *pred,
                    args,
                })
            }
            Edge::Seg {
                at,
                args,
                pred,
                end,
                end_args,
            } => {
                let args = args.copy(alloc)?;
                let end_args = end_args.copy(alloc)?;
                Ok(Edge::Seg {
                    at: *at,
                    args,
                    pred: *pred,
                    end: *end,
                    end_args,
                })
            }
        }
    }
}
