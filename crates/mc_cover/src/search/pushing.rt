// The goals that a mark leaves.
ghost use Rattle.std.specs.Prelude.{◌≡◌, ◌≤◌, ◌<◌, ◌+◌, ◌==◌, ◌&&◌, ◌∷◌, [], List, Some, None, IfOk, is_some, drop, length, map, option_map, reverse, slice_get, take};
ghost use Rattle.std.specs.List.{AllByRecursion};
ghost use Rattle.std.specs.Option.{option_copied};
ghost use Rattle.mc_cover.specs.Goals.{is_ind, is_seg, behind_seg};
ghost use Rattle.mc_cover.specs.Marks.{ends_here, goal_of, goals_to, named_by, has_call, calls_of_rule, calls_of_rule_to};
ghost use Rattle.mc_cover.specs.Terms.{equal_terms, all_equal_terms, all_lie_in};
ghost use Rattle.mc_flow.specs.declared.defs.rules.Call.{Call as Called};
ghost use Rattle.mc_flow.specs.declared.defs.rules.Def.{Def as Definition};
ghost use Rattle.mc_cover.specs.Search.Pushing.{IsPushed};
ghost use Rattle.mc_cover.specs.Search.Setting.{setting};
ghost use Rattle.mc_cover.specs.Search.Terms.{AddsSmall};
ghost use Rattle.mc_state.specs.Known.{Test, Tells};
ghost use Rattle.mc_state.specs.Lists.{on_some};
ghost use Rattle.mc_state.specs.Facts.{IsFalse};
ghost use Rattle.mc_state.specs.Terms.{plain, term_of};
ghost use Rattle.mc_shape_search.specs.Tries.Stack.{IsArena, Pushes};

use crate::Goal;
use crate::search::contents::{fields_by, push_fields};
use crate::search::laws::is_told;
use crate::search::names::{front_names, names_with, term_at};
use crate::search::terms::{all_lie_in, are_all_equal, are_equal, plain};
use mc_base::{EdgeId, Items, NoMemory, NodeId, PredId};
use mc_flow::defs::{Call, Def, Rule};
use mc_shape_search::tries::{Cell, push_goal};
use mc_state::Term;
use mc_state::graph::Edge;
use mc_symbolic::State;
use std::alloc::Global;

/// A stop again.
pub fn copied_stop(
    alloc: Global,
    stop: &Option<(Term, Items<Term>)>,
) -> Result<Option<(Term, Items<Term>)>, NoMemory>
    ensures { IfOk result (λ made. made ≡ stop.now) }
{
    match stop {
        None => Ok(None),
        Some((at, args)) => Ok(Some((*at, args.copy(alloc)?))),
    }
}

/// Nodes as terms.
pub fn plain_terms(alloc: Global, nodes: &[NodeId]) -> Result<Vec<Term>, NoMemory>
    ensures { IfOk result (λ terms. terms.items ≡ map plain nodes.now) }
{
    let mut terms = Vec::new(alloc);
    for node in nodes {
        terms.push(plain(*node))?;
    }
    Ok(terms)
}

// The terms of names.
fn terms_at(alloc: Global, names: &[Term], args: &[u64]) -> Result<Vec<Term>, NoMemory>
    ensures { IfOk result (λ terms. terms.items ≡ map (term_of names.now) args.now) }
{
    let mut terms = Vec::new(alloc);
    for name in args {
        terms.push(term_at(names, *name))?;
    }
    Ok(terms)
}

/// What a call asks for.
pub fn goal_of(
    alloc: Global,
    names: &[Term],
    stop: Option<(Term, Items<Term>)>,
    call: &Call,
) -> Result<Goal, NoMemory>
    ensures { IfOk result (λ made. made ≡ goal_of names.now stop call.now) }
{
    let args = terms_at(alloc, names, call.args.as_slice())?;
    Ok(Goal {
        pred: call.pred,
        at: term_at(names, call.at),
        args: Items::of(args),
        stop,
    })
}

// The calls before a place.
fn calls_before(calls: &[Call], place: usize) -> &[Call]
    requires { place < length calls.now }
    ensures { result.now ≡ take place calls.now }
{
    &calls[..place]
}

// The calls after a place.
fn calls_behind(calls: &[Call], place: usize) -> &[Call]
    requires { place < length calls.now }
    ensures { result.now ≡ drop (place + 1) calls.now }
{
    &calls[place + 1..]
}

// Pushes what calls ask for.
fn push_goals(
    alloc: Global,
    cells: &mut Vec<Cell<Goal>>,
    names: &[Term],
    calls: &[Call],
    rest: usize,
) -> Result<usize, NoMemory>
    requires arena { IsArena (reverse cells.old.items) }
    requires within { rest ≤ length (reverse cells.old.items) }
    ensures { IfOk result (λ top. Pushes (map (goal_of names.now None) calls.now) (reverse cells.old.items)
        (reverse cells.new.items) rest top) }
{
    let mut top = rest;
    let mut i = calls.len();
    while i > 0 {
        i -= 1;
        let goal = goal_of(alloc, names, None, &calls[i])?;
        top = push_goal(cells, goal, top)?;
    }
    Ok(top)
}

// Pushes what calls ask for, where the one at a place goes on to the stop.
fn push_goals_to(
    alloc: Global,
    cells: &mut Vec<Cell<Goal>>,
    names: &[Term],
    stop: &Option<(Term, Items<Term>)>,
    place: usize,
    calls: &[Call],
    rest: usize,
) -> Result<usize, NoMemory>
    requires arena { IsArena (reverse cells.old.items) }
    requires within { rest ≤ length (reverse cells.old.items) }
    requires inside { place < length calls.now }
    ensures { IfOk result (λ top. Pushes (goals_to names.now stop.now place calls.now) (reverse cells.old.items)
        (reverse cells.new.items) rest top) }
{
    let last = calls_behind(calls, place);
    let first = calls_before(calls, place);
    let behind = push_goals(alloc, cells, names, last, rest)?;
    let own = goal_of(alloc, names, copied_stop(alloc, stop)?, &calls[place])?;
    let here = push_goal(cells, own, behind)?;
    let top = push_goals(alloc, cells, names, first, here)?;
    Ok(top)
}

/// The terms of a rule's names at a goal, with the block that it asks for. None where they do not fit.
pub fn names_by(
    alloc: Global,
    state: &State,
    used: &[EdgeId],
    goal: &Goal,
    block: Option<EdgeId>,
    def: &Def,
    rule: &Rule,
) -> Result<Option<Vec<Term>>, NoMemory>
    requires sound { IsFalse state.now → ⊥ }
    requires small { AllByRecursion AddsSmall rule.now.atoms }
    ensures { IfOk result (λ made. (know : Test) (defs : List Definition) → Tells know state.now
        → option_map (λ v. record { rule = rule.now; names = v.items }) made
        ≡ named_by (setting know defs state.now used.now) goal.now block def.now rule.now) }
{
    is_told(state);
    let Some(fields) = fields_by(state, used, &goal.at, rule.block, block) else {
        return Ok(None);
    };
    let mut names = front_names(alloc, goal)?;
    let front = names.len();
    if !push_fields(&mut names, fields)? {
        return Ok(None);
    }
    let held = names.len() - front;
    let made = names_with(state, names, held, goal, def, rule)?;
    Ok(made)
}

// Whether a rule's call at a place is of the predicate.
fn has_call(pred: PredId, place: usize, rule: &Rule) -> bool
    ensures { result ≡ on_some (λ (c : Called). c.pred.0 == pred.0) (slice_get rule.now.calls place) }
{
    match rule.calls.get(place) {
        Some(call) => call.pred.0 == pred.0,
        None => false,
    }
}

// Whether the segment that a goal asks for ends where it begins.
fn ends_at(state: &State, def: &Def, goal: &Goal, at: &Term, args: &[Term]) -> bool
    ensures { (know : Test) → Tells know state.now → result
        ≡ (equal_terms know goal.now.at at.now
        && (all_equal_terms know goal.now.args args.now && all_lie_in know def.now.params goal.now.args)) }
{
    are_equal(state, &goal.at, at)
        && (are_all_equal(state, goal.args.as_slice(), args)
            && all_lie_in(state, def.params.as_slice(), goal.args.as_slice()))
}

/// The same, where the goal may ask for no segment.
pub fn ends_here(state: &State, def: Option<&Def>, goal: &Goal) -> bool
    ensures { (know : Test) → Tells know state.now → result ≡ ends_here know (option_copied def.entry) goal.now goal.now.stop }
{
    match def {
        None => false,
        Some(def) => match &goal.stop {
            None => false,
            Some((at, args)) => ends_at(state, def, goal, at, args.as_slice()),
        },
    }
}

// Whether an edge of a predicate, at a node with arguments, is of the goal's and starts where the goal stands.
fn is_summary(
    alloc: Global,
    state: &State,
    goal: &Goal,
    pred: PredId,
    at: NodeId,
    args: &[NodeId],
) -> Result<bool, NoMemory>
    ensures { IfOk result (λ is. (know : Test) → Tells know state.now → is
        ≡ (pred.0 == goal.now.pred.0 &&
        (equal_terms know goal.now.at (plain at) && all_equal_terms know goal.now.args (map plain args.now)))) }
{
    if pred.0 != goal.pred.0 || !are_equal(state, &goal.at, &plain(at)) {
        return Ok(false);
    }
    let terms = plain_terms(alloc, args)?;
    Ok(are_all_equal(state, goal.args.as_slice(), &terms))
}

/// Whether an edge is an Ind that meets the goal.
pub fn is_ind(
    alloc: Global,
    state: &State,
    goal: &Goal,
    edge: Option<&Edge>,
) -> Result<bool, NoMemory>
    ensures { IfOk result (λ is. (know : Test) → Tells know state.now → is ≡ is_ind know goal.now (option_copied edge.entry)) }
{
    match edge {
        None => Ok(false),
        Some(Edge::Block { .. }) => Ok(false),
        Some(Edge::Ind { at, pred, args }) => {
            is_summary(alloc, state, goal, *pred, *at, args.as_slice())
        }
        Some(Edge::Seg { .. }) => Ok(false),
    }
}

// Pushes what is left after a Seg to a node with arguments.
fn push_behind(
    alloc: Global,
    cells: &mut Vec<Cell<Goal>>,
    goal: &Goal,
    end: NodeId,
    ends: &[NodeId],
    rest: usize,
) -> Result<usize, NoMemory>
    requires arena { IsArena (reverse cells.old.items) }
    requires within { rest ≤ length (reverse cells.old.items) }
    ensures { IfOk result
        (λ top. Pushes
        (record { pred = goal.now.pred; at = plain end; args = map plain ends.now; stop = goal.now.stop } ∷ [])
        (reverse cells.old.items) (reverse cells.new.items) rest top) }
{
    let args = plain_terms(alloc, ends)?;
    let stop = copied_stop(alloc, &goal.stop)?;
    let behind = Goal {
        pred: goal.pred,
        at: plain(end),
        args: Items::of(args),
        stop,
    };
    push_goal(cells, behind, rest)
}

/// Pushes what is left after an edge that is a Seg of the goal. None where it is no such edge.
pub fn push_seg(
    alloc: Global,
    state: &State,
    cells: &mut Vec<Cell<Goal>>,
    goal: &Goal,
    edge: Option<&Edge>,
    rest: usize,
) -> Result<Option<usize>, NoMemory>
    requires arena { IsArena (reverse cells.old.items) }
    requires within { rest ≤ length (reverse cells.old.items) }
    ensures { IfOk result (λ top. (know : Test) → Tells know state.now
        → IsPushed (is_seg know goal.now (option_copied edge.entry))
        (behind_seg goal.now (option_copied edge.entry)) cells.old.items cells.new.items rest top) }
{
    match edge {
        None => Ok(None),
        Some(Edge::Block { .. }) => Ok(None),
        Some(Edge::Ind { .. }) => Ok(None),
        Some(
            Edge::Seg {
                at,
                args,
                pred,
                end,
                end_args,
            },
        ) => {
            if !is_summary(alloc, state, goal, *pred, *at, args.as_slice())? {
                return Ok(None);
            }
            let top = push_behind(alloc, cells, goal, *end, end_args.as_slice(), rest)?;
            Ok(Some(top))
        }
    }
}

/// Pushes the goals of a rule's calls. None where its names do not fit.
pub fn push_rule(
    alloc: Global,
    state: &State,
    used: &[EdgeId],
    cells: &mut Vec<Cell<Goal>>,
    goal: &Goal,
    block: Option<EdgeId>,
    def: &Def,
    rule: &Rule,
    rest: usize,
) -> Result<Option<usize>, NoMemory>
    requires sound { IsFalse state.now → ⊥ }
    requires small { AllByRecursion AddsSmall rule.now.atoms }
    requires arena { IsArena (reverse cells.old.items) }
    requires within { rest ≤ length (reverse cells.old.items) }
    ensures { IfOk result (λ top. (know : Test) (defs : List Definition) → Tells know state.now
        → IsPushed (is_some (named_by (setting know defs state.now used.now) goal.now block def.now rule.now))
        (calls_of_rule
        (named_by
        (setting know defs state.now used.now) goal.now block def.now rule.now)) cells.old.items cells.new.items rest top) }
{
    match names_by(alloc, state, used, goal, block, def, rule)? {
        None => Ok(None),
        Some(names) => {
            let top = push_goals(alloc, cells, &names, rule.calls.as_slice(), rest)?;
            Ok(Some(top))
        }
    }
}

/// The same where the call at a place goes on to the goal's stop. None also where that is no call of the predicate.
pub fn push_call(
    alloc: Global,
    state: &State,
    used: &[EdgeId],
    cells: &mut Vec<Cell<Goal>>,
    goal: &Goal,
    block: Option<EdgeId>,
    place: usize,
    def: &Def,
    rule: &Rule,
    rest: usize,
) -> Result<Option<usize>, NoMemory>
    requires sound { IsFalse state.now → ⊥ }
    requires small { AllByRecursion AddsSmall rule.now.atoms }
    requires arena { IsArena (reverse cells.old.items) }
    requires within { rest ≤ length (reverse cells.old.items) }
    ensures { IfOk result (λ top. (know : Test) (defs : List Definition) → Tells know state.now
        → IsPushed (on_some (has_call goal.now.pred place)
        (named_by (setting know defs state.now used.now) goal.now block def.now rule.now))
        (calls_of_rule_to goal.now.stop place
        (named_by
        (setting know defs state.now used.now) goal.now block def.now rule.now)) cells.old.items cells.new.items rest top) }
{
    match names_by(alloc, state, used, goal, block, def, rule)? {
        None => Ok(None),
        Some(names) => {
            if !has_call(goal.pred, place, rule) {
                return Ok(None);
            }
            let calls = rule.calls.as_slice();
            let top = push_goals_to(alloc, cells, &names, &goal.stop, place, calls, rest)?;
            Ok(Some(top))
        }
    }
}
