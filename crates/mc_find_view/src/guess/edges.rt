// What lies at a term: edges of a state that are not used.
ghost use Rattle.std.specs.Prelude.{◌≡◌, ◌==◌, ◌&&◌, List, Some, None, IfOk, map, option_map, if◌then◌else◌};
ghost use Rattle.mc_base.specs.declared.ids.NodeId.{NodeId as Node};
ghost use Rattle.mc_state.specs.Terms.{plain};
ghost use Rattle.mc_state.specs.Known.{Test, Tells};
ghost use Rattle.mc_state.specs.Named.{is_among};
ghost use Rattle.mc_cover.specs.Terms.{equal_terms};
ghost use Rattle.mc_cover.specs.Guessed.{summary_of, by_summary};
ghost use Rattle.mc_cover.specs.Search.Setting.{free_edges};

use mc_base::{EdgeId, NoMemory, NodeId, PredId};
use mc_cover::search::plain;
use mc_state::Term;
use mc_state::graph::Edge;
use mc_symbolic::State;
use std::alloc::Global;

/// Whether the edge is one of the used ones.
pub fn is_used(used: &[EdgeId], id: EdgeId) -> bool
    ensures { result ≡ is_among id used.now }
{
    for other in used {
        if other.0 == id.0 {
            return true;
        }
    }
    false
}

/// The term as `mc_pure` has it.
fn as_asked(term: &Term) -> mc_pure::Term
    ensures node { result.node ≡ term.now.node }
    ensures add { result.add ≡ term.now.add }
{
    mc_pure::Term {
        node: term.node,
        add: term.add,
    }
}

/// Whether the terms are entailed to be equal.
pub fn are_equal(state: &State, left: &Term, right: &Term) -> bool
    ensures { (know : Test) → Tells know state.now → result ≡ equal_terms know left.now right.now }
{
    let first = as_asked(left);
    let second = as_asked(right);
    let pure = state.known();
    pure.are_equal(&first, &second)
}

/// Whether the predicates are one, and the terms entailed equal.
fn is_there(state: &State, at: &Term, start: NodeId, pred: PredId, own: PredId) -> bool
    ensures { (know : Test) → Tells know state.now → result ≡ (own.0 == pred.0 && equal_terms know at.now (plain start)) }
{
    own.0 == pred.0 && are_equal(state, at, &plain(start))
}

/// The terms of nodes.
fn terms_of(alloc: Global, nodes: &[NodeId]) -> Result<Vec<Term>, NoMemory>
    ensures { IfOk result (λ terms. terms.items ≡ map plain nodes.now) }
{
    let mut terms = Vec::with_capacity(alloc, nodes.len())?;
    for node in nodes {
        terms.push(plain(*node))?;
    }
    Ok(terms)
}

/// The arguments of an Ind or Seg of the predicate at an equal node.
fn summary_at(
    alloc: Global,
    state: &State,
    pred: PredId,
    at: &Term,
    edge: &Edge,
) -> Result<Option<Vec<Term>>, NoMemory>
    ensures { IfOk result (λ found. (know : Test) → Tells know state.now → option_map (λ terms. terms.items) found
        ≡ option_map (λ (args : List Node). map plain args) (summary_of know pred at.now edge.now)) }
{
    match edge {
        Edge::Block { .. } => Ok(None),
        Edge::Ind {
            at: start,
            pred: own,
            args,
        } => {
            if !is_there(state, at, *start, pred, *own) {
                return Ok(None);
            }
            Ok(Some(terms_of(alloc, args.as_slice())?))
        }
        Edge::Seg {
            at: start,
            pred: own,
            args,
            ..
        } => {
            if !is_there(state, at, *start, pred, *own) {
                return Ok(None);
            }
            Ok(Some(terms_of(alloc, args.as_slice())?))
        }
    }
}

/// The arguments of the least Ind or Seg of the predicate at an equal node that is not used.
pub fn summary(
    alloc: Global,
    state: &State,
    used: &[EdgeId],
    pred: PredId,
    at: &Term,
) -> Result<Option<Vec<Term>>, NoMemory>
    ensures { IfOk result (λ found. (know : Test) → Tells know state.now → option_map (λ terms. terms.items) found
        ≡ by_summary know pred at.now (free_edges state.now used.now)) }
{
    state.is_bounded();
    for entry in state.edges() {
        if is_used(used, entry.0) {
            continue;
        }
        match summary_at(alloc, state, pred, at, &entry.1)? {
            Some(terms) => return Ok(Some(terms)),
            None => {}
        }
    }
    Ok(None)
}
