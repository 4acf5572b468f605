// The guess of a predicate's arguments.
ghost use Rattle.std.specs.Prelude.{◌≡◌, ◌++◌, ◌∷◌, [], suc, length, replicate, IfOk, option_map, Some, None};
ghost use Rattle.mc_state.specs.Terms.{zero_term};
ghost use Rattle.mc_state.specs.Known.{Test, Tells};
ghost use Rattle.mc_cover.specs.Guessed.{by_stop, guess, guess_at, given_by_rule};
ghost use Rattle.mc_cover.specs.Search.Setting.{free_edges};

use crate::guess::edges::{are_equal, is_used, summary};
use crate::guess::names::{begin, given, settle, take_guess, taken_by_parameters};
use crate::guess::rules::{first_block, first_empty};
use mc_base::{EdgeId, Items, NoMemory, NodeId, PredId};
use mc_cover::search::plain;
use mc_flow::defs::{Def, Defs, Rule};
use mc_state::Term;
use mc_symbolic::State;
use std::alloc::{AllocError, Global};

/// The stop's arguments, where it is reached.
fn by_stop(
    alloc: Global,
    state: &State,
    at: &Term,
    stop: &Option<(Term, Items<Term>)>,
) -> Result<Option<Vec<Term>>, NoMemory>
    ensures { IfOk result (λ found. (know : Test) → Tells know state.now → option_map (λ terms. terms.items) found
        ≡ by_stop know at.now stop.now) }
{
    match stop {
        None => Ok(None),
        Some(end) => {
            if !are_equal(state, at, &end.0) {
                return Ok(None);
            }
            Ok(Some(Vec::from_slice(alloc, end.1.as_slice())?))
        }
    }
}

/// The used edges, and one more.
fn with_used(alloc: Global, used: &[EdgeId], id: EdgeId) -> Result<Vec<EdgeId>, NoMemory>
    ensures { IfOk result (λ ids. ids.items ≡ used.now ++ id ∷ []) }
{
    let mut ids = Vec::from_slice(alloc, used)?;
    ids.push(id)?;
    Ok(ids)
}

/// So many zeros.
fn zeros(alloc: Global, count: usize) -> Result<Vec<Term>, NoMemory>
    ensures { IfOk result (λ terms. terms.items ≡ replicate count zero_term) }
{
    vec![in alloc; plain(NodeId(0)); count]
}

/// What a rule gives, with at most so many guesses one within the other.
#[cycle(guess)]
fn given_by_rule(
    alloc: Global,
    state: &State,
    defs: &[Def],
    stop: &Option<(Term, Items<Term>)>,
    left: u64,
    used: &[EdgeId],
    pred: PredId,
    def: &Def,
    rule: &Rule,
    at: Term,
    contents: &[NodeId],
) -> Result<Vec<Term>, NoMemory>
    ensures { IfOk result (λ terms. (know : Test) → Tells know state.now → terms.items
        ≡ given_by_rule (guess_at know defs.now stop.now left) pred def.now rule.now at contents.now
        (free_edges state.now used.now)) }
{
    let mut names = begin(alloc, rule, def.params.len(), at, contents)?;
    for call in rule.calls.as_slice() {
        if call.pred.0 != pred.0 {
            continue;
        }
        match given(names.as_slice(), call.at) {
            None => {}
            Some(place) => {
                let guess = guess_at(alloc, state, defs, stop, left, used, pred, place)?;
                take_guess(&mut names, call.args.as_slice(), guess.as_slice());
            }
        }
    }
    settle(&mut names, rule.atoms.as_slice());
    let terms = taken_by_parameters(alloc, names.as_slice(), def.params.len())?;
    Ok(terms)
}

/// The guess, with at most so many guesses one within the other.
#[cycle(guess)]
#[tactic(auto, using(crate::proofs::GuessLemmas::Firsts::others_push))]
fn guess_at(
    alloc: Global,
    state: &State,
    defs: &[Def],
    stop: &Option<(Term, Items<Term>)>,
    left: u64,
    used: &[EdgeId],
    pred: PredId,
    at: Term,
) -> Result<Vec<Term>, NoMemory>
    ensures { IfOk result (λ terms. (know : Test) → Tells know state.now → terms.items
        ≡ guess_at know defs.now stop.now left pred at (free_edges state.now used.now)) }
{
    if left == 0 {
        return Ok(Vec::new(alloc));
    }
    let left = left - 1;
    let Some(def) = defs.get(pred.0 as usize) else {
        return Ok(Vec::new(alloc));
    };
    if let Some(terms) = by_stop(alloc, state, &at, stop)? {
        return Ok(terms);
    }
    if let Some(terms) = summary(alloc, state, used, pred, &at)? {
        return Ok(terms);
    }
    let rules = def.rules.as_slice();
    if let Some(found) = first_block(alloc, state, used, &at, rules)? {
        let taken = with_used(alloc, used, found.id)?;
        let contents = found.contents.as_slice();
        let terms = given_by_rule(
            alloc, state, defs, stop, left, &taken, pred, def, found.rule, at, contents,
        )?;
        return Ok(terms);
    }
    match first_empty(rules) {
        Some(rule) => {
            let contents = &[];
            let terms = given_by_rule(
                alloc, state, defs, stop, left, used, pred, def, rule, at, contents,
            )?;
            Ok(terms)
        }
        None => {
            let terms = zeros(alloc, def.params.len())?;
            Ok(terms)
        }
    }
}

/// How many edges are not used.
fn depth(state: &State, used: &[EdgeId]) -> u64
    ensures { result ≡ length (free_edges state.now used.now) }
{
    state.is_bounded();
    let mut count = 0;
    for entry in state.edges() {
        if !is_used(used, entry.0) {
            count += 1;
        }
    }
    count
}

/// The arguments with which the predicate may hold at a term, from the edges of a state that are not used: those of the
/// stop where it is reached, else those of an edge there, else what a rule with a block there gives, else what a rule
/// without a block gives, else zeros. Empty where the predicate is not defined.
pub fn guess(
    alloc: Global,
    state: &State,
    defs: &Defs,
    used: &[EdgeId],
    pred: PredId,
    at: Term,
    stop: &Option<(Term, Items<Term>)>,
) -> Result<Vec<Term>, NoMemory>
    ensures { IfOk result (λ terms. (know : Test) → Tells know state.now → terms.items
        ≡ guess know defs.now pred at stop.now (free_edges state.now used.now)) }
{
    let Some(left) = depth(state, used).checked_add(1) else {
        return Err(AllocError);
    };
    let terms = guess_at(alloc, state, defs.as_slice(), stop, left, used, pred, at)?;
    Ok(terms)
}
