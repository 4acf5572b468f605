// Loads, stores, new blocks and freed ones.
ghost use Rattle.std.specs.Prelude.{◌≡◌, ◌∷◌, ◌++◌, [], pos, Some, None, IfOk, OnOk, map, option_and_then, option_map, replicate};
ghost use Rattle.std.specs.List.{AllByRecursion, find};
ghost use Rattle.mc_base.specs.declared.plain.Atom.TheVariants.{Ne};
ghost use Rattle.mc_base.specs.Nodes.{null};
ghost use Rattle.mc_flow.specs.declared.instr.Instr.TheVariants.{Load, Store, Malloc, Free};
ghost use Rattle.mc_flow.specs.Steps.{field_count};
ghost use Rattle.mc_state.specs.declared.graph.edge.Edge.TheVariants.{Block};
ghost use Rattle.mc_state.specs.Graph.Edges.{start_of, with_field_node};
ghost use Rattle.mc_state.specs.Graph.Graph.{block_starts, edge_with, without};
ghost use Rattle.mc_state.specs.Known.{Test, Tells};
ghost use Rattle.mc_pure.specs.Pure.{IsNode, IsWellFormed};
ghost use Rattle.mc_state.specs.State.{next_node, with_atoms, with_block, with_only_edges, with_var};
ghost use Rattle.mc_rules_steps.specs.Judges.{allocating, freeing, freeing_null, is_block, is_block_at, is_shaped_at, known_field, loading, storing, with_replaced};
ghost use Rattle.mc_rules_steps.specs.Steps.{freed_atoms, moved_to};
ghost use Rattle.mc_rules_steps.specs.Fitting.{FitsAt};
ghost use Rattle.mc_apply_steps.specs.Step.Stepped.{Steps, successors};
ghost use Rattle.mc_apply_steps.specs.Step.Values.{CanPut, value_node, with_value};

use crate::step::moves::{branched, moved_to};
use crate::step::operands::{Value, node_of, put, read};
use crate::step::{Refused, Stepped};
use mc_base::{Atom, EdgeId, Items, Kind, NULL, NoMemory, NodeId, PointId, StructId, VarId};
use mc_flow::{Flow, Operand, Structs};
use mc_rules_steps::{blocks_are_there, operands_fit};
use mc_state::graph::Edge;
use mc_state::nodes_are_there;
use mc_symbolic::changes::{State, assume_all};
use std::alloc::Global;

/// Whether the edge is a block of the struct at a node that is equal.
fn is_shaped_at(s: &State, n: NodeId, shape: StructId, e: &(EdgeId, Edge)) -> bool
    ensures { (know : Test) → Tells know s.now → result ≡ is_shaped_at know n shape e.now }
{
    e.1.has_shape(shape) && s.are_equal(n, e.1.start())
}

/// The id of the first block of the struct at a node that is equal.
fn shaped_block(s: &State, n: NodeId, shape: StructId) -> Option<EdgeId>
    ensures { (know : Test) → Tells know s.now
        → result ≡ option_map (λ e. e.0) (find (is_shaped_at know n shape) s.now.graph.edges) }
{
    for e in s.edges() {
        if is_shaped_at(s, n, shape, e) {
            return Some(e.0);
        }
    }
    None
}

/// Whether the edge is a block.
fn is_block(e: &Edge) -> bool
    ensures { result ≡ is_block e.now }
{
    match e {
        Edge::Block { .. } => true,
        Edge::Ind { .. } => false,
        Edge::Seg { .. } => false,
    }
}

/// Whether the edge is a block at a node that is equal.
fn is_block_at(s: &State, n: NodeId, e: &(EdgeId, Edge)) -> bool
    ensures { (know : Test) → Tells know s.now → result ≡ is_block_at know n e.now }
{
    is_block(&e.1) && s.are_equal(n, e.1.start())
}

/// The id of the first block at a node that is equal.
fn block(s: &State, n: NodeId) -> Option<EdgeId>
    ensures { (know : Test) → Tells know s.now
        → result ≡ option_map (λ e. e.0) (find (is_block_at know n) s.now.graph.edges) }
{
    for e in s.edges() {
        if is_block_at(s, n, e) {
            return Some(e.0);
        }
    }
    None
}

/// The node of a field of an edge, where it is known.
fn known_field(s: &State, id: EdgeId, f: u64) -> Option<NodeId>
    ensures { result ≡ option_and_then (λ e. known_field e f) (edge_with s.now.graph.edges id) }
{
    match s.edge(id) {
        Some(e) => e.field(f).flatten(),
        None => None,
    }
}

/// S8: a Load gives the variable the node of a field that is known, of a block of the struct where the base points.
pub fn load(
    mut s: State,
    x: VarId,
    y: VarId,
    shape: StructId,
    f: u64,
    q: PointId,
) -> Result<Stepped, Refused>
    ensures { (know : Test) → Tells know s → Steps (loading know (Some (Load x y shape f q)) s) s result }
{
    // For the proof alone: the block that is found is there.
    blocks_are_there();
    s.is_bounded();
    if s.is_false() {
        return Err(Refused::Premise(2, s));
    }
    let Some(base) = s.var(y) else {
        return Err(Refused::Premise(3, s));
    };
    let Some(id) = shaped_block(&s, base, shape) else {
        return Err(Refused::Premise(4, s));
    };
    let Some(node) = known_field(&s, id, f) else {
        return Err(Refused::Premise(5, s));
    };
    s.set_var(x, Some(node));
    Ok(moved_to(q, s))
}

/// Gives a field of a block the node of a value. Without memory the state is lost.
fn store_in(s: &mut State, id: EdgeId, f: u64, value: &Value) -> Result<(), NoMemory>
    requires put { CanPut value.now }
    requires there { IsNode (with_value s.old value.now).kinds (value_node s.old value.now) }
    ensures { (e : _) → edge_with s.old.graph.edges id ≡ Some e → OnOk result (s.new
        ≡ with_replaced (with_value s.old value.now) id (with_field_node f (value_node s.old value.now) e)) }
{
    let node = put(s, value)?;
    s.set_field(id, f, node);
    Ok(())
}

/// S9: a Store gives a field of a block of the struct where the base points the operand's node.
pub fn store(
    mut s: State,
    y: VarId,
    shape: StructId,
    f: u64,
    from: Operand,
    q: PointId,
) -> Result<Stepped, Refused>
    requires { FitsAt (Store y shape f from q) s }
    ensures { (know : Test) → Tells know s → Steps (storing know (Some (Store y shape f from q)) s) s result }
{
    // For the proof alone: the operand's node and the block are there.
    operands_fit();
    blocks_are_there();
    s.is_bounded();
    if s.is_false() {
        return Err(Refused::Premise(2, s));
    }
    let Some(value) = read(&s, from) else {
        return Err(Refused::Premise(3, s));
    };
    let Some(base) = s.var(y) else {
        return Err(Refused::Premise(4, s));
    };
    let Some(id) = shaped_block(&s, base, shape) else {
        return Err(Refused::Premise(5, s));
    };
    match store_in(&mut s, id, f, &value) {
        Ok(()) => Ok(moved_to(q, s)),
        Err(_) => Err(Refused::NoMemory),
    }
}

/// The number of fields of a struct.
fn field_count(structs: &Structs, shape: StructId) -> usize
    ensures { result ≡ field_count structs.now shape }
{
    match structs.list.get(shape.0 as usize) {
        Some(info) => info.fields.len(),
        None => 0,
    }
}

/// A block of the struct at a node, of whose fields nothing is known.
fn new_block(alloc: Global, at: NodeId, shape: StructId, fields: usize) -> Result<Edge, NoMemory>
    ensures { IfOk result (λ e. e ≡ Block at shape (replicate fields None)) }
{
    Ok(Edge::Block {
        at,
        shape,
        fields: Items::of(vec![in alloc; None; fields]?),
    })
}

/// The state in which the variable points to a new block. Without memory the state is lost.
fn allocated(
    alloc: Global,
    s: &mut State,
    x: VarId,
    shape: StructId,
    fields: usize,
) -> Result<(), NoMemory>
    ensures { OnOk result (s.new ≡ with_var (with_block s.old shape fields) x (Some (next_node s.old))) }
{
    // For the proof alone: the new node is there.
    nodes_are_there();
    s.is_bounded();
    let at = s.add_node(Kind::Ptr)?;
    let edge = new_block(alloc, at, shape, fields)?;
    s.add_edge(edge)?;
    s.set_var(x, Some(at));
    Ok(())
}

/// The variable is null, or points to a new block.
fn null_or_block(q: PointId, x: VarId, mut s: State, full: State) -> Stepped
    ensures { successors result ≡ moved_to q (with_var s x (Some null)) ∷ moved_to q full ∷ [] }
{
    s.set_var(x, Some(NULL));
    branched(q, s, q, full)
}

/// S10: a Malloc gives the variable null, or a new block of whose fields nothing is known.
pub fn malloc(
    alloc: Global,
    flow: &Flow,
    s: State,
    x: VarId,
    shape: StructId,
    q: PointId,
) -> Result<Stepped, Refused>
    ensures { (know : Test) → Tells know s → Steps (allocating know flow.now (Some (Malloc x shape q)) s) s result }
{
    if s.is_false() {
        return Err(Refused::Premise(2, s));
    }
    let Ok(mut full) = s.copy(alloc) else {
        return Err(Refused::NoMemory);
    };
    let fields = field_count(&flow.structs, shape);
    match allocated(alloc, &mut full, x, shape, fields) {
        Ok(()) => Ok(null_or_block(q, x, s, full)),
        Err(_) => Err(Refused::NoMemory),
    }
}

/// S11: a Free of an operand that is known to be null goes on.
pub fn free_null(mut s: State, from: Operand, q: PointId) -> Result<Stepped, Refused>
    requires { FitsAt (Free from q) s }
    ensures { (know : Test) → Tells know s → Steps (freeing_null know (Some (Free from q)) s) s result }
{
    // For the proof alone: the operand's node can be put.
    operands_fit();
    if s.is_false() {
        return Err(Refused::Premise(2, s));
    }
    let Some(value) = read(&s, from) else {
        return Err(Refused::Premise(3, s));
    };
    if !s.are_equal(node_of(&s, &value), NULL) {
        return Err(Refused::Premise(4, s));
    }
    match put(&mut s, &value) {
        Ok(_) => Ok(moved_to(q, s)),
        Err(_) => Err(Refused::NoMemory),
    }
}

/// The start of an edge.
fn start_with(s: &State, id: EdgeId) -> Option<NodeId>
    ensures { result ≡ option_map start_of (edge_with s.now.graph.edges id) }
{
    s.edge(id).map(|e| e.start())
}

/// Adds for each block of some edges that the node is not its start.
fn push_apart(atoms: &mut Vec<Atom>, at: NodeId, edges: &[(EdgeId, Edge)]) -> Result<(), NoMemory>
    ensures { OnOk result (atoms.new.items ≡ atoms.old.items ++ map (λ b. Ne at b (pos 0)) (block_starts edges.now)) }
{
    for e in edges {
        if let Edge::Block { at: start, .. } = &e.1 {
            atoms.push(Atom::Ne(at, *start, 0))?;
        }
    }
    Ok(())
}

/// What is known of the start of a block that is freed, where these edges are left.
fn freed_atoms(alloc: Global, at: NodeId, edges: &[(EdgeId, Edge)]) -> Result<Vec<Atom>, NoMemory>
    ensures { IfOk result (λ atoms. atoms.items ≡ freed_atoms at (block_starts edges.now)) }
{
    let mut atoms = vec![in alloc; Atom::In(at, 1, 4_611_686_018_427_387_903)]?;
    push_apart(&mut atoms, at, edges)?;
    Ok(atoms)
}

/// Takes a block out, and writes what is known of its start. Without memory the state is lost.
fn remove_block(alloc: Global, s: &mut State, id: EdgeId, at: NodeId) -> Result<(), NoMemory>
    requires { AllByRecursion (IsWellFormed s.old.kinds) (freed_atoms at (block_starts (without s.old.graph.edges id))) }
    ensures { OnOk result (s.new ≡ with_atoms (with_only_edges s.old (without s.old.graph.edges id))
        (freed_atoms at (block_starts (without s.old.graph.edges id)))) }
{
    s.take_edge(id)?;
    let atoms = freed_atoms(alloc, at, s.edges())?;
    assume_all(s, atoms.as_slice())
}

/// The state without a block that starts at a node, with a value's node. Without memory the state is lost.
fn free_in(
    alloc: Global,
    s: &mut State,
    id: EdgeId,
    at: NodeId,
    value: &Value,
) -> Result<(), NoMemory>
    requires put { CanPut value.now }
    requires freed { AllByRecursion (IsWellFormed (with_value s.old value.now).kinds)
        (freed_atoms at (block_starts (without (with_value s.old value.now).graph.edges id))) }
    ensures { OnOk result (s.new ≡ with_atoms (with_only_edges (with_value s.old value.now)
        (without (with_value s.old value.now).graph.edges id))
        (freed_atoms at (block_starts (without (with_value s.old value.now).graph.edges id)))) }
{
    put(s, value)?;
    remove_block(alloc, s, id, at)
}

/// S12: a Free of a block takes it out; its start is an address, and no other block's.
pub fn free(alloc: Global, mut s: State, from: Operand, q: PointId) -> Result<Stepped, Refused>
    requires { FitsAt (Free from q) s }
    ensures { (know : Test) → Tells know s → Steps (freeing know (Some (Free from q)) s) s result }
{
    // For the proof alone: the operand's node can be put, and the block is there.
    operands_fit();
    blocks_are_there();
    if s.is_false() {
        return Err(Refused::Premise(2, s));
    }
    let Some(value) = read(&s, from) else {
        return Err(Refused::Premise(3, s));
    };
    let Some(id) = block(&s, node_of(&s, &value)) else {
        return Err(Refused::Premise(4, s));
    };
    let Some(at) = start_with(&s, id) else {
        return Err(Refused::Premise(4, s));
    };
    match free_in(alloc, &mut s, id, at, &value) {
        Ok(()) => Ok(moved_to(q, s)),
        Err(_) => Err(Refused::NoMemory),
    }
}
