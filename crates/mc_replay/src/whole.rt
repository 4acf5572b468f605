// What a whole join gives.
ghost use Rattle.std.specs.Prelude.{◌≡◌, ◌==◌, ◌<◌, ◌&&◌, None, [], ◌∷◌, All, IfOk, OnOk, drop, length};
ghost use Rattle.std.specs.List.{AllByRecursion};
ghost use Rattle.mc_base.specs.Ranges.Ends.{IsInt};
ghost use Rattle.mc_pure.specs.Derived.{IsFalse as IsFalsePure};
ghost use Rattle.mc_pure.specs.Pure.{IsNode, IsWellFormed};
ghost use Rattle.mc_pure_ops.specs.Join.Joint.{AreJoinable, IsJoin};
ghost use Rattle.mc_state.specs.Facts.{IsFalse};
ghost use Rattle.mc_state.specs.Fits.{AreNodes};
ghost use Rattle.mc_state.specs.Graph.Edges.{known_nodes, nodes_of};
ghost use Rattle.mc_state.specs.State.{pure_of, with_atoms, with_edges};
ghost use Rattle.mc_cover.specs.Search.Setting.{free_edges};
ghost use Rattle.mc_joins.specs.Joinings.{next_pair};
ghost use Rattle.mc_joins.specs.Whole.{AreJointAtoms, all_used, kind_of_pair, result_of};
ghost use Rattle.mc_replay.specs.Joined.{seen};
ghost use Rattle.mc_replay.specs.Whole.{HasPairKind, IsReached, MayBeMade, ReachedMayBeMade, SaysAll, bare_result, with_pair_nodes};

use crate::edges::is_used;
use crate::joining::{Half, Joining};
use crate::made::known_for;
use crate::pairs::Pair;
use mc_base::{Atom, Kind, NoMemory, NodeId, VarId};
use mc_joins::anew::put_whole;
use mc_joins::same::derived_is_renamed;
use mc_pure::Pure;
use mc_pure_ops::canon::forget;
use mc_rules_logic::fold::{naming_is_judged, naming_makes_well};
use mc_state::graph::Edge;
use mc_state::{nodes_are_there, tests_tell};
use mc_symbolic::State;
use std::alloc::Global;

/// Where steps come to the end of a join of well-made states that are not false, what it gives may be put together.
fn reached_may_be_made()
    ensures { ReachedMayBeMade }
{
    mc_pure::normal_forms_say_all();
    mc_pure::derived_grows();
    mc_pure::each_is_decided();
    naming_is_judged();
    naming_makes_well();
    nodes_are_there();
    tests_tell();
    derived_is_renamed();
}

/// What is known on both sides, as written atoms.
fn joint(alloc: Global, join: &Joining, round: u64, thresholds: &[i64]) -> Result<Pure, NoMemory>
    requires left_true { IsFalse join.now.left.state → ⊥ }
    requires right_true { IsFalse join.now.right.state → ⊥ }
    requires joinable { AreJoinable (pure_of join.now.left.state) (pure_of join.now.right.state)
        join.now.pairs.items }
    requires ints { All IsInt thresholds.now }
    ensures { IfOk result (λ joint. IsJoin (pure_of join.now.left.state) (pure_of join.now.right.state)
        join.now.pairs.items round thresholds.now joint) }
{
    mc_pure::derived_grows();
    let left = join.left.state.known();
    let right = join.right.state.known();
    let pairs = join.pairs.as_slice();
    let both = mc_pure_ops::join::join(alloc, left, right, pairs, round, thresholds)?;
    Ok(both)
}

/// The list of all that is known of the nodes, also inside one class: what is written where a further node, of which nothing is
/// known, is forgotten.
fn whole_list(alloc: Global, known: &Pure, further: NodeId) -> Result<Vec<Atom>, NoMemory>
    requires bare { known.now.starts ≡ [] }
    requires consistent { IsFalsePure known.now → ⊥ }
    requires new { IsNode known.now.kinds further → ⊥ }
    ensures { IfOk result (λ list. SaysAll known.now list.items) }
{
    mc_pure::normal_forms_say_all();
    mc_pure::derived_grows();
    derived_is_renamed();
    known.is_kept();
    known.has_normal_form();
    let mut more = known.copy()?;
    more.node(further, Kind::Int)?;
    more.is_kept();
    let list = forget(alloc, &more, further)?;
    Ok(list)
}

/// The kind of a pair: that of a node of it other than 0.
fn kind_of_pair(join: &Joining, pair: &Pair) -> Option<Kind>
    ensures { result ≡ kind_of_pair (seen join.now) pair.now }
{
    match join.left.state.kind(pair.0) {
        Some(kind) => Some(kind),
        None => join.right.state.kind(pair.1),
    }
}

/// Adds a node for a pair.
fn put_node(out: &mut State, join: &Joining, pair: &Pair) -> Result<(), NoMemory>
    requires { HasPairKind (seen join.now) pair.now }
    ensures { OnOk result (out.new ≡ with_pair_nodes (seen join.now) out.old (pair.now ∷ [])) }
{
    match kind_of_pair(join, pair) {
        Some(kind) => {
            out.add_node(kind)?;
            Ok(())
        }
        None => unreachable!(),
    }
}

/// Adds a node for each pair but the first.
fn put_nodes(out: &mut State, join: &Joining) -> Result<(), NoMemory>
    requires first { 0 < length join.now.pairs.items }
    requires others { AllByRecursion (HasPairKind (seen join.now)) (drop 1 join.now.pairs.items) }
    ensures { OnOk result (out.new ≡ with_pair_nodes (seen join.now) out.old (drop 1 join.now.pairs.items)) }
{
    let pairs = join.pairs.as_slice();
    for place in 1..pairs.len() {
        put_node(out, join, &pairs[place])?;
    }
    Ok(())
}

/// Gives the variables their nodes, where they are known.
fn put_vars(out: &mut State, env: &[Option<NodeId>])
    requires long { length out.old.env ≡ length env.now }
    requires there { AreNodes out.old.kinds (known_nodes env.now) }
    ensures { out.new ≡ record out.old { env = env.now } }
{
    for place in 0..env.len() {
        out.set_var(VarId(place as u64), env[place]);
    }
}

/// Adds edges in order.
fn put_edges(alloc: Global, out: &mut State, edges: &[Edge]) -> Result<(), NoMemory>
    requires { AllByRecursion (λ e. AreNodes out.old.kinds (nodes_of e)) edges.now }
    ensures { OnOk result (out.new ≡ with_edges out.old edges.now) }
{
    for edge in edges {
        let copy = edge.copy(alloc)?;
        out.add_edge(copy)?;
    }
    Ok(())
}

/// Writes atoms down.
fn put_atoms(out: &mut State, atoms: &[Atom]) -> Result<(), NoMemory>
    requires { AllByRecursion (IsWellFormed out.old.kinds) atoms.now }
    ensures { OnOk result (out.new ≡ with_atoms out.old atoms.now) }
{
    for atom in atoms {
        out.assume(atom)?;
    }
    Ok(())
}

/// Whether no edge of a side is left out.
fn is_all_used(half: &Half) -> bool
    ensures { result ≡ (length (free_edges half.now.state half.now.used.items) == 0) }
{
    half.state.is_bounded();
    for entry in half.state.edges() {
        if !is_used(half.used.as_slice(), entry.0) {
            return false;
        }
    }
    true
}

/// Whether both states are whole, and none of their edges is left out.
fn is_whole(left: &State, right: &State, join: &Joining) -> bool
    ensures { result ≡ (left.now.whole && right.now.whole && all_used (seen join.now)) }
{
    left.is_whole() && right.is_whole() && is_all_used(&join.left) && is_all_used(&join.right)
}

/// The nodes, edges and variables of what a join gives, without atoms.
fn bare(alloc: Global, left: &State, right: &State, join: &Joining) -> Result<State, NoMemory>
    requires { MayBeMade left.now right.now (seen join.now) }
    ensures { IfOk result (λ out. out ≡ bare_result left.now right.now (seen join.now)) }
{
    let env = known_for(alloc, join.pairs.as_slice(), left.env(), right.env())?;
    let mut out = State::unknown(alloc, env.len())?;
    put_nodes(&mut out, join)?;
    put_vars(&mut out, env.as_slice());
    put_edges(alloc, &mut out, join.edges.as_slice())?;
    Ok(out)
}

/// What a join of two states gives in a pass, where steps have led to its end.
pub fn joined_state(
    alloc: Global,
    left: &State,
    right: &State,
    join: &Joining,
    round: u64,
    thresholds: &[i64],
) -> Result<State, NoMemory>
    requires reached { IsReached left.now right.now (seen join.now) }
    requires done { next_pair (seen join.now) ≡ None }
    requires ints { All IsInt thresholds.now }
    ensures gives { IfOk result (λ t. t ≡ result_of left.now right.now (seen join.now) t.atoms) }
    ensures atoms { IfOk result (λ t. AreJointAtoms round thresholds.now (seen join.now) t) }
{
    reached_may_be_made();
    nodes_are_there();
    derived_is_renamed();
    let mut out = bare(alloc, left, right, join)?;
    let known = joint(alloc, join, round, thresholds)?;
    let atoms = whole_list(alloc, &known, out.next_node())?;
    put_atoms(&mut out, atoms.as_slice())?;
    put_whole(&mut out, is_whole(left, right, join));
    Ok(out)
}
