// States whose nodes and edges are numbered anew.
ghost use Rattle.std.specs.Prelude.{◌≡◌, map, option_map, length, true, IfOk, OnOk};
ghost use Rattle.std.specs.List.{AllByRecursion};
ghost use Rattle.mc_base.specs.Nodes.{moved};
ghost use Rattle.mc_base.specs.Atoms.{moved_atom};
ghost use Rattle.mc_state.specs.Graph.Edges.{known_nodes, nodes_of, moved_edge};
ghost use Rattle.mc_pure.specs.Pure.{IsWellFormed};
ghost use Rattle.mc_pure.specs.Nodes.{RiseFrom};
ghost use Rattle.mc_pure_ops.specs.Renaming.Images.{image};
ghost use Rattle.mc_state.specs.State.{with_atoms, with_edges};
ghost use Rattle.mc_state.specs.Fits.{AreNodes};
ghost use Rattle.mc_joins.specs.Same.Same.{anew};
ghost use Rattle.mc_joins.specs.Anew.Numbers.{AreNumbers, numbered_nodes};

use crate::anew::edges::{edge_of, moved_field};
use mc_base::{Atom, EdgeId, NoMemory, NodeId, VarId};
use mc_pure_ops::renaming::Renaming;
use mc_state::graph::Edge;
use mc_symbolic::State;
use std::alloc::Global;

/// A state that is numbered anew, and the new number of each node.
#[derive(Drop)]
pub struct Renewed {
    pub state: State,
    pub renaming: Renaming,
}

/// The nodes alone, numbered anew.
fn nodes_anew(alloc: Global, state: &State) -> Result<Renewed, NoMemory>
    ensures nodes { IfOk result (λ new. new.state ≡ numbered_nodes (length state.now.env) state.now.kinds) }
    ensures renaming { IfOk result (λ new. AreNumbers state.now.kinds new.renaming) }
{
    state.known().is_kept();
    let mut fresh = State::unknown(alloc, state.env().len())?;
    let mut renaming = Renaming::new(alloc);
    for node in state.nodes() {
        let Some(kind) = state.kind(*node) else {
            continue;
        };
        let number = fresh.add_node(kind)?;
        renaming.add(*node, number)?;
    }
    Ok(Renewed {
        state: fresh,
        renaming,
    })
}

/// Gives the variables the images of nodes.
fn put_vars(fresh: &mut State, env: &[Option<NodeId>], renaming: &Renaming)
    requires long { length fresh.old.env ≡ length env.now }
    requires there { AreNodes fresh.old.kinds (map (moved (image renaming.now)) (known_nodes env.now)) }
    ensures { fresh.new ≡ record fresh.old { env = map (option_map (moved (image renaming.now))) env.now } }
{
    for place in 0..env.len() {
        fresh.set_var(VarId(place as u64), moved_field(renaming, env[place]));
    }
}

/// The atom with the images of its nodes.
fn atom_of(renaming: &Renaming, atom: &Atom) -> Atom
    ensures { result ≡ moved_atom (image renaming.now) atom.now }
{
    match atom {
        Atom::Eq(a, b, c) => Atom::Eq(renaming.image(*a), renaming.image(*b), *c),
        Atom::Ne(a, b, c) => Atom::Ne(renaming.image(*a), renaming.image(*b), *c),
        Atom::In(a, lo, hi) => Atom::In(renaming.image(*a), *lo, *hi),
    }
}

/// Assumes atoms, of the images of their nodes.
fn put_atoms(fresh: &mut State, atoms: &[Atom], renaming: &Renaming) -> Result<(), NoMemory>
    requires { AllByRecursion (λ a. IsWellFormed fresh.old.kinds (moved_atom (image renaming.now) a)) atoms.now }
    ensures { OnOk result (fresh.new ≡ with_atoms fresh.old (map (moved_atom (image renaming.now)) atoms.now)) }
{
    for atom in atoms {
        fresh.assume(&atom_of(renaming, atom))?;
    }
    Ok(())
}

/// Adds edges, of the images of their nodes.
fn put_edges(
    alloc: Global,
    fresh: &mut State,
    edges: &[(EdgeId, Edge)],
    renaming: &Renaming,
) -> Result<(), NoMemory>
    requires { AllByRecursion (λ e. AreNodes fresh.old.kinds (nodes_of (moved_edge (image renaming.now) e.1))) edges.now }
    ensures { OnOk result (fresh.new ≡ with_edges fresh.old (map (λ e. moved_edge (image renaming.now) e.1) edges.now)) }
{
    for entry in edges {
        let edge = edge_of(alloc, renaming, &entry.1)?;
        fresh.add_edge(edge)?;
    }
    Ok(())
}

/// Says whether the edges are all that is allocated.
pub fn put_whole(fresh: &mut State, whole: bool)
    requires { fresh.old.whole ≡ true }
    ensures { fresh.new ≡ record fresh.old { whole = whole } }
{
    if whole {
        return;
    }
    fresh.clear_whole();
}

/// The state with its nodes numbered from 1 on and its edges from 0 on, in order, and the new number of each node.
pub fn anew(alloc: Global, state: &State) -> Result<Renewed, NoMemory>
    ensures state { IfOk result (λ new. new.state ≡ anew state.now) }
    ensures renaming { IfOk result (λ new. AreNumbers state.now.kinds new.renaming) }
{
    state.is_bounded();
    state.known().is_kept();
    let nodes = nodes_anew(alloc, state)?;
    let renaming = nodes.renaming;
    let mut fresh = nodes.state;
    put_vars(&mut fresh, state.env(), &renaming);
    put_atoms(&mut fresh, state.atoms(), &renaming)?;
    put_edges(alloc, &mut fresh, state.edges(), &renaming)?;
    put_whole(&mut fresh, state.is_whole());
    Ok(Renewed {
        state: fresh,
        renaming,
    })
}
