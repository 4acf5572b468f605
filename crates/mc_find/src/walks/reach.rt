// What the variables of a state that is written lead to.
use mc_base::{NULL, NoMemory, NodeId};
use mc_state::RawState;
use mc_state::graph::Edge;
use std::alloc::Global;

/// Marks of nodes and edges that variables lead to.
#[derive(Drop)]
pub struct Reach {
    nodes: Vec<bool>,
    edges: Vec<bool>,
}

impl Reach {
    /// Marks a node.
    fn mark(&mut self, node: NodeId) {
        if let Some(slot) = self.nodes.get_mut(node.0 as usize) {
            *slot = true;
        }
    }

    /// Marks nodes.
    fn mark_all(&mut self, nodes: &[NodeId]) {
        for node in nodes {
            self.mark(*node);
        }
    }

    /// Marks nodes that are known.
    fn mark_known(&mut self, nodes: &[Option<NodeId>]) {
        for node in nodes {
            if let Some(known) = *node {
                self.mark(known);
            }
        }
    }

    /// Whether a node is marked.
    fn has(&self, node: NodeId) -> bool {
        self.nodes
            .as_slice()
            .get(node.0 as usize)
            .copied()
            .unwrap_or(false)
    }

    /// Whether an edge starts or ends at a marked node other than null.
    fn finds(&self, edge: &Edge) -> bool {
        if edge.start() != NULL && self.has(edge.start()) {
            return true;
        }
        if let Edge::Seg { end_args, .. } = edge {
            for node in end_args.as_slice() {
                if *node != NULL && self.has(*node) {
                    return true;
                }
            }
        }
        false
    }

    /// Marks an edge's nodes.
    fn mark_edge(&mut self, edge: &Edge) {
        self.mark(edge.start());
        match edge {
            Edge::Block { fields, .. } => self.mark_known(fields.as_slice()),
            Edge::Ind { args, .. } => self.mark_all(args.as_slice()),
            Edge::Seg {
                args,
                end,
                end_args,
                ..
            } => {
                self.mark_all(args.as_slice());
                self.mark(*end);
                self.mark_all(end_args.as_slice());
            }
        }
    }

    /// Marks the edges that are found from what is marked; whether there was one.
    fn grow(&mut self, edges: &[Edge]) -> bool {
        let mut changed = false;
        for (place, edge) in edges.iter().enumerate() {
            if self.is_reached(place) || !self.finds(edge) {
                continue;
            }
            if let Some(slot) = self.edges.get_mut(place) {
                *slot = true;
                changed = true;
            }
            self.mark_edge(edge);
        }
        changed
    }

    /// Whether the edge at a place is marked.
    pub fn is_reached(&self, place: usize) -> bool {
        self.edges.as_slice().get(place).copied().unwrap_or(true)
    }
}

/// What variables lead to.
pub fn reach_of(alloc: Global, raw: &RawState) -> Result<Reach, NoMemory> {
    let edges = raw.edges.as_slice();
    let mut reach = Reach {
        nodes: vec![in alloc; false; raw.kinds.len()]?,
        edges: vec![in alloc; false; edges.len()]?,
    };
    reach.mark_known(raw.vars.as_slice());
    for _ in edges {
        if !reach.grow(edges) {
            break;
        }
    }
    Ok(reach)
}
