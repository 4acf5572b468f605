// States in which an edge is opened: the body of a rule stands in its place, at new nodes, and the rule's atoms are known.
ghost use Rattle.std.specs.Prelude.{◌≡◌, ◌<◌, ◌+◌, ◌∷◌, ◌++◌, [], IfOk, OnOk, Some, None, drop, length, map, slice_get, suc};
ghost use Rattle.std.specs.List.{AllByRecursion};
ghost use Rattle.std.specs.Option.{option_copied};
ghost use Rattle.mc_base.specs.declared.ids.NodeId.{NodeId as Node};
ghost use Rattle.mc_flow.specs.Defs.Instances.{node_of, atom_of};
ghost use Rattle.mc_state.specs.declared.graph.edge.Edge.TheVariants.{Block};
ghost use Rattle.mc_state.specs.Graph.Graph.{without};
ghost use Rattle.mc_pure.specs.Pure.{IsWellFormed};
ghost use Rattle.mc_state.specs.Bodies.{block_edges, body_edges, body_to, call_edge, call_segment, calls_to};
ghost use Rattle.mc_state.specs.Fits.{AreNodes};
ghost use Rattle.mc_state.specs.State.{with_atoms, with_edges, with_nodes, with_only_edges, numbered_nodes};
ghost use Rattle.mc_rules_logic.specs.Unfold.Unfolded.{emptied, equal_atoms, own_places, new_kinds, rule_nodes};

use mc_base::{Args, Atom, EdgeId, Items, Kind, NoMemory, NodeId, PredId, StructId};
use mc_flow::defs::{Call, Rule, instantiate};
use mc_rules_logic::unfold::rules_stand_at_nodes;
use mc_state::graph::Edge;
use mc_symbolic::changes::{State, add_nodes, assume_all};
use std::alloc::Global;

/// A Seg, part by part.
#[derive(Clone, Copy)]
pub struct Segment<'a> {
    pub at: NodeId,
    pub args: &'a [NodeId],
    pub pred: PredId,
    pub stop: NodeId,
    pub ends: &'a [NodeId],
}

/// The node of a name.
pub fn node_of(nodes: &[NodeId], name: u64) -> NodeId
    ensures { result ≡ node_of nodes.now name }
{
    match nodes.get(name as usize) {
        Some(node) => *node,
        None => NodeId(0),
    }
}

/// A list of these nodes.
pub fn args_of(alloc: Global, nodes: &[NodeId]) -> Result<Args<NodeId>, NoMemory>
    ensures { IfOk result (λ args. args ≡ nodes.now) }
{
    let mut args = Args::new(alloc);
    for node in nodes {
        args.push(*node)?;
    }
    Ok(args)
}

/// The nodes of names.
pub fn nodes_of_names(
    alloc: Global,
    nodes: &[NodeId],
    names: &[u64],
) -> Result<Args<NodeId>, NoMemory>
    ensures { IfOk result (λ args. args ≡ map (node_of nodes.now) names.now) }
{
    let mut args = Args::new(alloc);
    for name in names {
        args.push(node_of(nodes, *name))?;
    }
    Ok(args)
}

/// A call as an edge.
fn call_edge(alloc: Global, nodes: &[NodeId], call: &Call) -> Result<Edge, NoMemory>
    ensures { IfOk result (λ e. e ≡ call_edge nodes.now call.now) }
{
    let args = nodes_of_names(alloc, nodes, call.args.as_slice())?;
    Ok(Edge::Ind {
        at: node_of(nodes, call.at),
        pred: call.pred,
        args,
    })
}

/// A call as a segment to an end.
fn call_segment(
    alloc: Global,
    nodes: &[NodeId],
    end: NodeId,
    ends: &[NodeId],
    call: &Call,
) -> Result<Edge, NoMemory>
    ensures { IfOk result (λ e. e ≡ call_segment nodes.now end ends.now call.now) }
{
    let args = nodes_of_names(alloc, nodes, call.args.as_slice())?;
    let end_args = args_of(alloc, ends)?;
    Ok(Edge::Seg {
        at: node_of(nodes, call.at),
        args,
        pred: call.pred,
        end,
        end_args,
    })
}

/// A block with the nodes of a rule's contents.
fn block_edge(
    alloc: Global,
    nodes: &[NodeId],
    shape: StructId,
    rule: &Rule,
) -> Result<Edge, NoMemory>
    ensures { IfOk result (λ e. e ≡ Block (node_of nodes.now 0) shape (map
        (λ name. Some (node_of nodes.now name)) rule.now.contents)) }
{
    let mut fields = Items::new(alloc);
    for name in rule.contents.as_slice() {
        fields.push(Some(node_of(nodes, *name)))?;
    }
    Ok(Edge::Block {
        at: node_of(nodes, 0),
        shape,
        fields,
    })
}

/// Adds a rule's block, where it has one. Without memory the state is lost.
pub fn add_block(
    alloc: Global,
    s: &mut State,
    nodes: &[NodeId],
    rule: &Rule,
) -> Result<(), NoMemory>
    requires { AreNodes s.old.kinds nodes.now }
    ensures { OnOk result (s.new ≡ with_edges s.old (block_edges nodes.now rule.now.block rule.now.contents)) }
{
    rules_stand_at_nodes();
    let Some(shape) = rule.block else {
        return Ok(());
    };
    let edge = block_edge(alloc, nodes, shape, rule)?;
    s.add_edge(edge)?;
    Ok(())
}

/// Adds calls as edges. Without memory the state is lost.
#[tactic(auto, using(crate::proofs::After::after_edge))]
pub fn add_calls(
    alloc: Global,
    s: &mut State,
    nodes: &[NodeId],
    calls: &[Call],
) -> Result<(), NoMemory>
    requires { AreNodes s.old.kinds nodes.now }
    ensures { OnOk result (s.new ≡ with_edges s.old (map (call_edge nodes.now) calls.now)) }
{
    rules_stand_at_nodes();
    for call in calls {
        let edge = call_edge(alloc, nodes, call)?;
        s.add_edge(edge)?;
    }
    Ok(())
}

/// The call at a place.
pub fn call_at(calls: &[Call], place: usize) -> Option<&Call>
    ensures { option_copied result ≡ slice_get calls.now place }
{
    calls.get(place)
}

/// The calls after the one at a place.
pub fn calls_behind(calls: &[Call], place: usize) -> &[Call]
    requires { place < length calls.now }
    ensures { result.now ≡ drop (place + 1) calls.now }
{
    &calls[place + 1..]
}

/// Adds calls as edges, of which the one at a place goes on as a segment to an end. Without memory the state is lost.
fn add_calls_to(
    alloc: Global,
    s: &mut State,
    nodes: &[NodeId],
    end: NodeId,
    ends: &[NodeId],
    place: usize,
    calls: &[Call],
) -> Result<(), NoMemory>
    requires nodes { AreNodes s.old.kinds nodes.now }
    requires ends { AreNodes s.old.kinds (end ∷ ends.now) }
    ensures { OnOk result (s.new ≡ with_edges s.old (calls_to nodes.now end ends.now place calls.now)) }
{
    rules_stand_at_nodes();
    match call_at(calls, place) {
        Some(call) => {
            add_calls(alloc, s, nodes, &calls[..place])?;
            let edge = call_segment(alloc, nodes, end, ends, call)?;
            s.add_edge(edge)?;
            add_calls(alloc, s, nodes, calls_behind(calls, place))?;
            Ok(())
        }
        None => {
            add_calls(alloc, s, nodes, calls)?;
            Ok(())
        }
    }
}

/// Adds the body of a rule. Without memory the state is lost.
#[tactic(auto, using(crate::proofs::After::after_edges))]
pub fn add_body(alloc: Global, s: &mut State, nodes: &[NodeId], rule: &Rule) -> Result<(), NoMemory>
    requires { AreNodes s.old.kinds nodes.now }
    ensures { OnOk result (s.new ≡ with_edges s.old (body_edges nodes.now rule.now.block rule.now.contents
        rule.now.calls)) }
{
    add_block(alloc, s, nodes, rule)?;
    add_calls(alloc, s, nodes, rule.calls.as_slice())
}

/// Adds the body of a rule, where the call at a place goes on as a segment to an end. Without memory the state is lost.
#[tactic(auto, using(crate::proofs::After::after_edges))]
pub fn add_body_to(
    alloc: Global,
    s: &mut State,
    nodes: &[NodeId],
    end: NodeId,
    ends: &[NodeId],
    place: usize,
    rule: &Rule,
) -> Result<(), NoMemory>
    requires nodes { AreNodes s.old.kinds nodes.now }
    requires ends { AreNodes s.old.kinds (end ∷ ends.now) }
    ensures { OnOk result (s.new ≡ with_edges s.old (body_to nodes.now end ends.now place rule.now.block
        rule.now.contents rule.now.calls)) }
{
    add_block(alloc, s, nodes, rule)?;
    add_calls_to(alloc, s, nodes, end, ends, place, rule.calls.as_slice())
}

/// Writes the atoms of a rule. Without memory the state is lost.
pub fn add_atoms(
    alloc: Global,
    s: &mut State,
    nodes: &[NodeId],
    rule: &Rule,
) -> Result<(), NoMemory>
    requires { AllByRecursion (IsWellFormed s.old.kinds) (map (atom_of nodes.now) rule.now.atoms) }
    ensures { OnOk result (s.new ≡ with_atoms s.old (map (atom_of nodes.now) rule.now.atoms)) }
{
    let instance = instantiate(alloc, rule, nodes)?;
    assume_all(s, instance.atoms.as_slice())
}

/// Opens an edge in a copy of a state: new nodes of some kinds, which are put after those that are given, and the edge
/// is gone.
pub fn opened(
    alloc: Global,
    s: &State,
    edge: EdgeId,
    kinds: &[Kind],
    nodes: &mut Vec<NodeId>,
) -> Result<State, NoMemory>
    ensures state { IfOk result (λ t. t ≡ with_only_edges (with_nodes s.now kinds.now)
        (without s.now.graph.edges edge)) }
    ensures nodes { OnOk result (nodes.new.items ≡ nodes.old.items ++ numbered_nodes s.now.next (length kinds.now)) }
{
    let mut next = s.copy(alloc)?;
    add_nodes(&mut next, kinds, nodes)?;
    next.take_edge(edge)?;
    Ok(next)
}

/// Opens an edge in a copy of a state for a rule at a start and arguments, and gives the nodes of the rule's names.
#[tactic(auto, using(std::proofs::lemmas::List::append_assoc))]
pub fn opened_at(
    alloc: Global,
    s: &State,
    edge: EdgeId,
    at: NodeId,
    args: &[NodeId],
    rule: &Rule,
    nodes: &mut Vec<NodeId>,
) -> Result<State, NoMemory>
    ensures state { IfOk result (λ t. t ≡ with_only_edges (with_nodes s.now (new_kinds args.now rule.now))
        (without s.now.graph.edges edge)) }
    ensures nodes { OnOk result (nodes.new.items ≡ nodes.old.items ++ rule_nodes s.now at args.now rule.now) }
{
    nodes.push(at)?;
    nodes.extend_from_slice(args)?;
    opened(alloc, s, edge, new_kinds(args, rule), nodes)
}

/// The kinds of the names after `this` and the arguments.
pub fn new_kinds<'a>(args: &[NodeId], rule: &'a Rule) -> &'a [Kind]
    ensures { result.now ≡ new_kinds args.now rule.now }
{
    match rule.names.as_slice().get(args.len() + 1..) {
        Some(kinds) => kinds,
        None => &[],
    }
}

/// A node is equal to the one at a place of a list, if there is one, put after other atoms.
fn put_equal_at(
    a: NodeId,
    right: &[NodeId],
    place: usize,
    atoms: &mut Vec<Atom>,
) -> Result<(), NoMemory>
    ensures { OnOk result (atoms.new.items ≡ atoms.old.items ++ equal_atoms (a ∷ []) (drop place right.now)) }
{
    match right.get(place) {
        Some(b) => {
            atoms.push(Atom::Eq(a, *b, 0))?;
            Ok(())
        }
        None => Ok(()),
    }
}

/// The nodes of two lists are equal, one by one, put after other atoms.
fn put_equal(left: &[NodeId], right: &[NodeId], atoms: &mut Vec<Atom>) -> Result<(), NoMemory>
    ensures { OnOk result (atoms.new.items ≡ atoms.old.items ++ equal_atoms left.now right.now) }
{
    for (i, a) in left.iter().enumerate() {
        put_equal_at(*a, right, i, atoms)?;
    }
    Ok(())
}

/// A node and those of a list are equal to another node and those of another list, one by one.
#[tactic(auto, using(std::proofs::lemmas::List::append_assoc))]
fn equal_atoms(
    alloc: Global,
    at: NodeId,
    args: &[NodeId],
    stop: NodeId,
    ends: &[NodeId],
) -> Result<Vec<Atom>, NoMemory>
    ensures { IfOk result (λ atoms. atoms.items ≡ equal_atoms (at ∷ args.now) (stop ∷ ends.now)) }
{
    let mut atoms = Vec::new(alloc);
    atoms.push(Atom::Eq(at, stop, 0))?;
    put_equal(args, ends, &mut atoms)?;
    Ok(atoms)
}

/// Writes that a node and arguments are equal to an end, one by one. Without memory the state is lost.
pub fn assume_equal(
    alloc: Global,
    s: &mut State,
    at: NodeId,
    args: &[NodeId],
    stop: NodeId,
    ends: &[NodeId],
) -> Result<(), NoMemory>
    requires { AllByRecursion (IsWellFormed s.old.kinds) (equal_atoms (at ∷ args.now) (stop ∷ ends.now)) }
    ensures { OnOk result (s.new ≡ with_atoms s.old (equal_atoms (at ∷ args.now) (stop ∷ ends.now))) }
{
    let atoms = equal_atoms(alloc, at, args, stop, ends)?;
    assume_all(s, atoms.as_slice())
}

/// A copy of a state without an edge.
fn without_edge(alloc: Global, s: &State, edge: EdgeId) -> Result<State, NoMemory>
    ensures { IfOk result (λ t. t ≡ with_only_edges s.now (without s.now.graph.edges edge)) }
{
    let mut next = s.copy(alloc)?;
    next.take_edge(edge)?;
    Ok(next)
}

/// A copy of a state in which a Seg is empty: it ends where it begins.
pub fn emptied(alloc: Global, s: &State, edge: EdgeId, seg: &Segment<'_>) -> Result<State, NoMemory>
    requires { AllByRecursion (IsWellFormed s.now.kinds) (equal_atoms (seg.now.at ∷ seg.now.args.now)
        (seg.now.stop ∷ seg.now.ends.now)) }
    ensures { IfOk result (λ t. t ≡ emptied s.now edge seg.now.at seg.now.args.now seg.now.stop seg.now.ends.now) }
{
    let mut next = without_edge(alloc, s, edge)?;
    assume_equal(alloc, &mut next, seg.at, seg.args, seg.stop, seg.ends)?;
    Ok(next)
}
