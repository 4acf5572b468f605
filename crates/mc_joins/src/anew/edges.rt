// Edges with the images of their nodes.
ghost use Rattle.std.specs.Prelude.{◌≡◌, map, option_map, IfOk};
ghost use Rattle.mc_base.specs.Nodes.{moved};
ghost use Rattle.mc_state.specs.Graph.Edges.{moved_edge};
ghost use Rattle.mc_pure_ops.specs.Renaming.Images.{image};

use mc_base::{Args, Items, NoMemory, NodeId};
use mc_pure_ops::renaming::Renaming;
use mc_state::graph::Edge;
use std::alloc::Global;

/// The images of nodes.
fn moved_nodes(
    alloc: Global,
    renaming: &Renaming,
    nodes: &[NodeId],
) -> Result<Args<NodeId>, NoMemory>
    ensures { IfOk result (λ list. list ≡ map (moved (image renaming.now)) nodes.now) }
{
    let mut list = Args::new(alloc);
    for node in nodes {
        list.push(renaming.image(*node))?;
    }
    Ok(list)
}

/// The image of a node that is known.
pub fn moved_field(renaming: &Renaming, field: Option<NodeId>) -> Option<NodeId>
    ensures { result ≡ option_map (moved (image renaming.now)) field }
{
    match field {
        Some(node) => Some(renaming.image(node)),
        None => None,
    }
}

/// The images of the nodes of fields.
fn moved_fields(
    alloc: Global,
    renaming: &Renaming,
    fields: &[Option<NodeId>],
) -> Result<Items<Option<NodeId>>, NoMemory>
    ensures { IfOk result (λ list. list ≡ map (option_map (moved (image renaming.now))) fields.now) }
{
    let mut list = Vec::with_capacity(alloc, fields.len())?;
    for field in fields {
        list.push(moved_field(renaming, *field))?;
    }
    Ok(Items::of(list))
}

/// The edge with the images of its nodes.
pub fn edge_of(alloc: Global, renaming: &Renaming, edge: &Edge) -> Result<Edge, NoMemory>
    ensures { IfOk result (λ e. e ≡ moved_edge (image renaming.now) edge.now) }
{
    match edge {
        Edge::Block { at, shape, fields } => {
            let fields = moved_fields(alloc, renaming, fields.as_slice())?;
            Ok(Edge::Block {
                at: renaming.image(*at),
                shape: *shape,
                fields,
            })
        }
        Edge::Ind { at, pred, args } => {
            let args = moved_nodes(alloc, renaming, args.as_slice())?;
            Ok(Edge::Ind {
                at: renaming.image(*at),
                pred: *pred,
                args,
            })
        }
        Edge::Seg {
            at,
            args,
            pred,
            end,
            end_args,
        } => {
            let args = moved_nodes(alloc, renaming, args.as_slice())?;
            let end_args = moved_nodes(alloc, renaming, end_args.as_slice())?;
            Ok(Edge::Seg {
                at: renaming.image(*at),
                args,
                pred: *pred,
                end: renaming.image(*end),
                end_args,
            })
        }
    }
}
