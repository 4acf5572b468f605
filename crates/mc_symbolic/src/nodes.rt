// Lists of nodes: of variables or fields, and of edges.
ghost use Rattle.std.specs.Prelude.{◌≡◌, ◌++◌, OnOk};
ghost use Rattle.mc_state.specs.Graph.Edges.{known_nodes, nodes_of};

use mc_base::{NoMemory, NodeId};
use mc_state::graph::Edge;

/// Adds the nodes of variables or fields that are known.
pub fn push_known(list: &mut Vec<NodeId>, fields: &[Option<NodeId>]) -> Result<(), NoMemory>
    ensures { OnOk result (list.new.items ≡ list.old.items ++ known_nodes fields.now) }
{
    for field in fields {
        if let Some(node) = *field {
            list.push(node)?;
        }
    }
    Ok(())
}

/// Adds the nodes of an edge.
pub fn push_nodes(list: &mut Vec<NodeId>, edge: &Edge) -> Result<(), NoMemory>
    ensures { OnOk result (list.new.items ≡ list.old.items ++ nodes_of edge.now) }
{
    list.push(edge.start())?;
    match edge {
        Edge::Block { fields, .. } => push_known(list, fields.as_slice()),
        Edge::Ind { args, .. } => list.extend_from_slice(args.as_slice()),
        Edge::Seg {
            args,
            end,
            end_args,
            ..
        } => {
            list.extend_from_slice(args.as_slice())?;
            list.push(*end)?;
            list.extend_from_slice(end_args.as_slice())
        }
    }
}
