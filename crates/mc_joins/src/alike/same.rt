// Whether two states are the same under some renaming.
ghost use Rattle.std.specs.Prelude.{◌≡◌, ◌↔◌, ◌++◌, IfOk, IsTrue, OnOk};
ghost use Rattle.mc_joins.specs.Alike.Named.{edge_nodes, named_nodes, AllNamed, AreLinks, AreSameBySome};

use crate::alike::equal_under;
use mc_base::{EdgeId, NoMemory, NodeId};
use mc_pure_ops::renaming::Renaming;
use mc_state::graph::Edge;
use mc_symbolic::State;
use mc_symbolic::nodes::{push_known, push_nodes};
use std::alloc::Global;

/// Adds the nodes of edges.
fn add_edges(list: &mut Vec<NodeId>, edges: &[(EdgeId, Edge)]) -> Result<(), NoMemory>
    ensures { OnOk result (list.new.items ≡ list.old.items ++ edge_nodes edges.now) }
{
    for entry in edges {
        push_nodes(list, &entry.1)?;
    }
    Ok(())
}

/// The nodes of the state's variables and then those of its edges, each as often as it stands there.
fn named_nodes(alloc: Global, state: &State) -> Result<Vec<NodeId>, NoMemory>
    ensures { IfOk result (λ list. list.items ≡ named_nodes state.now) }
{
    let mut list = Vec::new(alloc);
    push_known(&mut list, state.env())?;
    add_edges(&mut list, state.edges())?;
    Ok(list)
}

/// The images by every renaming that leads from the nodes to the others, one by one: of each node the first that it gets.
fn linked(alloc: Global, from: &[NodeId], to: &[NodeId]) -> Result<Renaming, NoMemory>
    ensures { IfOk result (λ links. AreLinks from.now to.now links) }
{
    let mut links = Renaming::new(alloc);
    if from.len() != to.len() {
        return Ok(links);
    }
    for (i, node) in from.iter().enumerate() {
        links.add(*node, to[i])?;
    }
    Ok(links)
}

/// Whether two states are the same under some renaming, where each node of the first stands in a variable or in an edge: then
/// no more than one renaming is in question.
pub fn are_same(alloc: Global, state: &State, other: &State) -> Result<bool, NoMemory>
    requires { AllNamed state.now }
    ensures { IfOk result (λ same. IsTrue same ↔ AreSameBySome state.now other.now) }
{
    // for the proof alone
    state.is_bounded();
    let from = named_nodes(alloc, state)?;
    let to = named_nodes(alloc, other)?;
    let links = linked(alloc, from.as_slice(), to.as_slice())?;
    Ok(equal_under(state, other, &links))
}
