// Building a state from what a document writes.
ghost use Rattle.std.specs.Prelude.{◌≡◌, ◌↔◌, IfOk, OnOk, IsTrue, true, length};
ghost use Rattle.mc_state.specs.Graph.Edges.{known_nodes};
ghost use Rattle.mc_state.specs.Fits.{AreNodes};
ghost use Rattle.mc_state.specs.RawStates.{BeginsWithZero};
ghost use Rattle.mc_state.specs.State.{with_atoms, with_edges};
ghost use Rattle.mc_state.specs.declared.raw_state.NodeKind.TheVariants.{Zero};
ghost use Rattle.mc_state_io.specs.Raw.Raw.{begun, filled, AddsKind, AllAtomsFit, AllAreThere};

use mc_base::{Atom, Kind, NoMemory, NodeId, VarId};
use mc_state::graph::Edge;
use mc_state::{NodeKind, RawState};
use mc_symbolic::State;
use std::alloc::Global;

/// Whether it is the kind of node 0.
fn is_zero(kind: NodeKind) -> bool
    ensures { IsTrue result ↔ (kind ≡ Zero) }
{
    match kind {
        NodeKind::Zero => true,
        NodeKind::Int => false,
        NodeKind::Ptr => false,
    }
}

/// Adds a node of the kind; nothing where it is that of node 0.
fn add_kind(state: &mut State, kind: NodeKind) -> Result<(), NoMemory>
    ensures { OnOk result (AddsKind kind state.old state.new) }
{
    match kind {
        NodeKind::Zero => Ok(()),
        NodeKind::Int => {
            state.add_node(Kind::Int)?;
            Ok(())
        }
        NodeKind::Ptr => {
            state.add_node(Kind::Ptr)?;
            Ok(())
        }
    }
}

/// Whether the first kind and no other is that of node 0.
pub fn begins_with_zero(kinds: &[NodeKind]) -> bool
    ensures { IsTrue result ↔ BeginsWithZero kinds.now }
{
    if kinds.is_empty() {
        return false;
    }
    if !is_zero(kinds[0]) {
        return false;
    }
    for i in 1..kinds.len() {
        if is_zero(kinds[i]) {
            return false;
        }
    }
    true
}

/// A state with nodes of these kinds and so many variables, of which none is known.
pub fn with_kinds(alloc: Global, vars: usize, kinds: &[NodeKind]) -> Result<State, NoMemory>
    requires { BeginsWithZero kinds.now }
    ensures { IfOk result (λ s. s ≡ begun vars kinds.now) }
{
    let mut state = State::unknown(alloc, vars)?;
    for i in 1..kinds.len() {
        add_kind(&mut state, kinds[i])?;
    }
    Ok(state)
}

/// Gives each variable its node, where it is known.
fn put_vars(state: &mut State, nodes: &[Option<NodeId>])
    requires there { AreNodes state.old.kinds (known_nodes nodes.now) }
    requires long { length state.old.env ≡ length nodes.now }
    ensures { state.new ≡ record state.old { env = nodes.now } }
{
    for i in 0..nodes.len() {
        state.set_var(VarId(i as u64), nodes[i]);
    }
}

/// Adds edges.
fn put_edges(alloc: Global, state: &mut State, edges: &[Edge]) -> Result<(), NoMemory>
    requires { AllAreThere state.old.kinds edges.now }
    ensures { OnOk result (state.new ≡ with_edges state.old edges.now) }
{
    for edge in edges {
        state.add_edge(edge.copy(alloc)?)?;
    }
    Ok(())
}

/// Writes atoms down.
fn put_atoms(state: &mut State, atoms: &[Atom]) -> Result<(), NoMemory>
    requires { AllAtomsFit state.old.kinds atoms.now }
    ensures { OnOk result (state.new ≡ with_atoms state.old atoms.now) }
{
    for atom in atoms {
        state.assume(atom)?;
    }
    Ok(())
}

/// Says whether the edges are all that is allocated.
fn put_flag(state: &mut State, whole: bool)
    requires { state.old.whole ≡ true }
    ensures { state.new ≡ record state.old { whole = whole } }
{
    if !whole {
        state.clear_whole();
    }
}

/// Gives a state its variables, edges, atoms and flag.
pub fn fill(alloc: Global, state: &mut State, raw: &RawState) -> Result<(), NoMemory>
    requires vars { AreNodes state.old.kinds (known_nodes raw.now.vars) }
    requires long { length state.old.env ≡ length raw.now.vars }
    requires edges { AllAreThere state.old.kinds raw.now.edges }
    requires atoms { AllAtomsFit state.old.kinds raw.now.atoms }
    requires whole { state.old.whole ≡ true }
    ensures { OnOk result (state.new ≡ filled state.old raw.now) }
{
    put_vars(state, raw.vars.as_slice());
    put_edges(alloc, state, raw.edges.as_slice())?;
    put_atoms(state, raw.atoms.as_slice())?;
    put_flag(state, raw.whole);
    Ok(())
}
