// Edges of a side that make a predicate or a segment of it, and arguments for it.
ghost use Rattle.std.specs.Prelude.{◌≡◌, ◌==◌, ◌&&◌, List, ◌++◌, ◌∷◌, [], Some, None, IfOk, OnOk, map, option_map, option_to_list, replicate, unwrap_or, length};
ghost use Rattle.std.specs.List.{flat_map};
ghost use Rattle.std.specs.Option.{option_copied};
ghost use Rattle.mc_base.specs.declared.ids.EdgeId.{EdgeId as Id};
ghost use Rattle.mc_base.specs.declared.ids.NodeId.{NodeId as Node};
ghost use Rattle.mc_base.specs.Nodes.{null};
ghost use Rattle.mc_state.specs.Facts.{IsFalse};
ghost use Rattle.mc_state.specs.Known.{Test, Tells};
ghost use Rattle.mc_state.specs.Terms.{plain};
ghost use Rattle.mc_cover.specs.First.{first_cover, first_seg_cover, taken};
ghost use Rattle.mc_cover.specs.Guessed.{first_edge, summary_of};
ghost use Rattle.mc_cover.specs.Terms.{equal_terms};
ghost use Rattle.mc_cover.specs.Marks.{edge_of};
ghost use Rattle.mc_cover.specs.Search.Setting.{free_edges};
ghost use Rattle.mc_joins.specs.Parts.{with_partners};
ghost use Rattle.mc_replay.specs.Covers.{edges_of, zeros_of};

use crate::edges::is_used;
use crate::pairs::{Pair, partner};
use mc_base::{EdgeId, Items, NULL, NoMemory, NodeId, PredId};
use mc_cover::Mark;
use mc_cover::search::{cover, plain, seg_cover};
use mc_flow::defs::Defs;
use mc_state::graph::Edge;
use mc_state::{Side, Term};
use mc_symbolic::State;
use std::alloc::Global;

/// The edge that a mark takes.
fn edge_of(mark: &Mark) -> Option<EdgeId>
    ensures { result ≡ edge_of mark.now }
{
    match mark {
        Mark::AtEnd => None,
        Mark::ByInd(edge) => Some(*edge),
        Mark::BySeg(edge) => Some(*edge),
        Mark::ByRule { block, .. } => *block,
        Mark::ByCall { block, .. } => *block,
    }
}

/// Adds the edge that a mark takes.
fn push_taken(list: &mut Vec<EdgeId>, mark: &Mark) -> Result<(), NoMemory>
    ensures { OnOk result (list.new.items ≡ list.old.items ++ option_to_list (edge_of mark.now)) }
{
    match edge_of(mark) {
        Some(edge) => list.push(edge)?,
        None => {}
    }
    Ok(())
}

/// The edges that marks take, in the order of the marks.
fn taken(alloc: Global, marks: &[Mark]) -> Result<Vec<EdgeId>, NoMemory>
    ensures { IfOk result (λ list. list.items ≡ taken marks.now) }
{
    let mut list = Vec::new(alloc);
    for mark in marks {
        push_taken(&mut list, mark)?;
    }
    Ok(list)
}

/// The edges that the first cover of a predicate at a node takes, of those that are not blocked.
pub fn cover_edges(
    alloc: Global,
    state: &State,
    defs: &Defs,
    blocked: &[EdgeId],
    pred: PredId,
    at: NodeId,
    args: &[Term],
) -> Result<Option<Vec<EdgeId>>, NoMemory>
    requires { IsFalse state.now → ⊥ }
    ensures { IfOk result (λ found. (know : Test) → Tells know state.now → option_map (λ ids. ids.items) found
        ≡ edges_of (first_cover know defs.now pred (plain at) args.now (free_edges state.now blocked.now))) }
{
    match cover(alloc, state, defs, blocked, pred, plain(at), args)? {
        Some(marks) => Ok(Some(taken(alloc, marks.as_slice())?)),
        None => Ok(None),
    }
}

/// The edges that the first segment cover of a predicate from a node to another takes, of those that are not blocked.
pub fn seg_edges(
    alloc: Global,
    state: &State,
    defs: &Defs,
    blocked: &[EdgeId],
    pred: PredId,
    at: NodeId,
    args: &[Term],
    end: NodeId,
    ends: &[Term],
) -> Result<Option<Vec<EdgeId>>, NoMemory>
    requires { IsFalse state.now → ⊥ }
    ensures { IfOk result (λ found. (know : Test) → Tells know state.now → option_map (λ ids. ids.items) found
        ≡ edges_of (first_seg_cover know defs.now pred (plain at) args.now (plain end) ends.now (free_edges state.now blocked.now))) }
{
    match seg_cover(
        alloc,
        state,
        defs,
        blocked,
        pred,
        plain(at),
        args,
        plain(end),
        ends,
    )? {
        Some(marks) => Ok(Some(taken(alloc, marks.as_slice())?)),
        None => Ok(None),
    }
}

/// The terms of nodes.
pub fn plain_all(alloc: Global, nodes: &[NodeId]) -> Result<Vec<Term>, NoMemory>
    ensures { IfOk result (λ terms. terms.items ≡ map plain nodes.now) }
{
    let mut terms = Vec::with_capacity(alloc, nodes.len())?;
    for node in nodes {
        terms.push(plain(*node))?;
    }
    Ok(terms)
}

/// Where a side's argument is in a pair already, its first partner in place of a term of the other side.
pub fn partner_or_terms(
    alloc: Global,
    pairs: &[Pair],
    side: Side,
    nodes: &[NodeId],
    terms: &[Term],
) -> Result<Vec<Term>, NoMemory>
    ensures { IfOk result (λ all. all.items ≡ with_partners pairs.now side nodes.now terms.now) }
{
    let mut all = Vec::new(alloc);
    for (place, node) in nodes.iter().enumerate() {
        match terms.get(place) {
            Some(term) => all.push(partner_or(pairs, side, *node, *term))?,
            None => return Ok(all),
        }
    }
    Ok(all)
}

/// A node's first partner, or a term where it is in no pair.
fn partner_or(pairs: &[Pair], side: Side, node: NodeId, term: Term) -> Term
    ensures { result ∷ [] ≡ with_partners pairs.now side (node ∷ []) (term ∷ []) }
{
    match partner(pairs, side, node) {
        Some(other) => plain(other),
        None => term,
    }
}

/// Whether two predicates are one, and two nodes entailed equal.
fn is_there(state: &State, node: NodeId, start: NodeId, pred: PredId, own: PredId) -> bool
    ensures { (know : Test) → Tells know state.now → result ≡ (own.0 == pred.0 && equal_terms know (plain node) (plain start)) }
{
    own.0 == pred.0 && state.are_equal(node, start)
}

/// The arguments of an edge that is an Ind or a Seg of a predicate at a node that equals another.
fn args_at<'a>(state: &State, pred: PredId, node: NodeId, edge: &'a Edge) -> Option<&'a [NodeId]>
    ensures { (know : Test) → Tells know state.now → option_copied result ≡ summary_of know pred (plain node) edge.now }
{
    match edge {
        Edge::Block { .. } => None,
        Edge::Ind {
            at: start,
            pred: own,
            args,
        } => {
            if is_there(state, node, *start, pred, *own) {
                Some(args.as_slice())
            } else {
                None
            }
        }
        Edge::Seg {
            at: start,
            pred: own,
            args,
            ..
        } => {
            if is_there(state, node, *start, pred, *own) {
                Some(args.as_slice())
            } else {
                None
            }
        }
    }
}

/// The arguments of the least Ind or Seg of a predicate at an equal node that is not used.
fn first_args<'a>(
    state: &'a State,
    used: &[EdgeId],
    pred: PredId,
    node: NodeId,
) -> Option<&'a [NodeId]>
    ensures { (know : Test) → Tells know state.now → option_copied result
        ≡ option_map (λ (found : Id × List Node). found.1) (first_edge (summary_of know pred (plain node)) (free_edges state.now used.now)) }
{
    state.is_bounded();
    for entry in state.edges() {
        if is_used(used, entry.0) {
            continue;
        }
        match args_at(state, pred, node, &entry.1) {
            Some(args) => return Some(args),
            None => {}
        }
    }
    None
}

/// Zero for each parameter of a predicate.
fn zeros(alloc: Global, defs: &Defs, pred: PredId) -> Result<Vec<NodeId>, NoMemory>
    ensures { IfOk result (λ nodes. nodes.items ≡ zeros_of defs.now pred) }
{
    match defs.as_slice().get(pred.0 as usize) {
        Some(def) => vec![in alloc; NULL; def.params.len()],
        None => Ok(Vec::new(alloc)),
    }
}

/// The arguments of a side's least unused Ind or Seg of a predicate at a node, else zeros.
pub fn standing_args(
    alloc: Global,
    state: &State,
    defs: &Defs,
    used: &[EdgeId],
    pred: PredId,
    node: NodeId,
) -> Result<Vec<NodeId>, NoMemory>
    ensures { IfOk result (λ nodes. (know : Test) → Tells know state.now → nodes.items
        ≡ unwrap_or (option_map (λ (found : Id × List Node). found.1) (first_edge (summary_of know pred (plain node)) (free_edges state.now used.now)))
        (zeros_of defs.now pred)) }
{
    match first_args(state, used, pred, node) {
        Some(args) => Vec::from_slice(alloc, args),
        None => zeros(alloc, defs, pred),
    }
}
