// A number for the shape of a state, by which heads are compared first.
use mc_base::NodeId;
use mc_state::RawState;
use mc_state::graph::Edge;

/// A hash with a number more.
fn mixed(hash: u64, number: u64) -> u64 {
    (hash ^ number).wrapping_mul(0x0000_0100_0000_01b3)
}

/// A hash with nodes more.
fn with_nodes(hash: u64, nodes: &[NodeId]) -> u64 {
    let mut sum = hash;
    for node in nodes {
        sum = mixed(sum, node.0);
    }
    sum
}

/// A hash with what is known of nodes more.
fn with_known(hash: u64, nodes: &[Option<NodeId>]) -> u64 {
    let mut sum = hash;
    for node in nodes {
        let number = match node {
            Some(own) => own.0,
            None => u64::MAX,
        };
        sum = mixed(sum, number);
    }
    sum
}

/// A hash with an edge more.
fn with_edge(hash: u64, edge: &Edge) -> u64 {
    let start = mixed(hash, edge.start().0);
    match edge {
        Edge::Block { shape, fields, .. } => {
            with_known(mixed(mixed(start, 1), shape.0), fields.as_slice())
        }
        Edge::Ind { pred, args, .. } => with_nodes(mixed(mixed(start, 2), pred.0), args.as_slice()),
        Edge::Seg {
            pred,
            args,
            end,
            end_args,
            ..
        } => {
            let own = with_nodes(mixed(mixed(start, 3), pred.0), args.as_slice());
            with_nodes(mixed(own, end.0), end_args.as_slice())
        }
    }
}

/// A number for a shape, the same for equal ones.
pub fn hash_of(raw: &RawState) -> u64 {
    let mut sum = with_known(0xcbf2_9ce4_8422_2325, raw.vars.as_slice());
    for edge in raw.edges.as_slice() {
        sum = with_edge(sum, edge);
    }
    mixed(sum, raw.kinds.len() as u64)
}
