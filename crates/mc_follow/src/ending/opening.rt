// The goals that the marks of a cover meet, each with its mark.
ghost use Rattle.std.specs.Prelude.{◌≡◌, ◌++◌, ◌∷◌, [], List, None, Some, IfOk, MatchOption, OnOk, map, reverse, slice_get, true};
ghost use Rattle.std.specs.Option.{option_copied};
ghost use Rattle.mc_cover.specs.First.{first_marks};
ghost use Rattle.mc_cover.specs.Goals.{behind_seg, is_seg};
ghost use Rattle.mc_cover.specs.Marks.{fits, goal_of};
ghost use Rattle.mc_cover.specs.declared.goals.Mark.TheVariants as mark;
ghost use Rattle.mc_follow.specs.Ending.Making.{IsOpenedBy, Opened, setting_in};
ghost use Rattle.mc_state.specs.Graph.Graph.{edge_with};
ghost use Rattle.mc_state.specs.Known.{Test, Tells};
ghost use Rattle.mc_state.specs.Terms.{plain, term_of};

use crate::ending::met::Met;
use crate::ending::names::rule_names;
use mc_base::{EdgeId, Items, NoMemory, NodeId, PredId};
use mc_cover::search::{goal_of, plain, plain_terms};
use mc_cover::{Goal, Mark};
use mc_flow::defs::{Call, Defs, Rule};
use mc_pure::each_is_decided;
use mc_state::Term;
use mc_state::graph::Edge;
use mc_symbolic::State;
use std::alloc::Global;

/// The rule of a predicate at a place.
pub fn rule_of(defs: &Defs, pred: PredId, place: usize) -> Option<&Rule>
    ensures there { (rule : _) → result ≡ Some rule → (def : _) × (slice_get defs.now pred.0 ≡ Some def)
        × (slice_get def.rules place ≡ Some rule.now) }
    ensures none { result ≡ None → (def : _) → slice_get defs.now pred.0 ≡ Some def → slice_get def.rules place ≡ None }
{
    match defs.as_slice().get(pred.0 as usize) {
        Some(def) => def.rules.get(place),
        None => None,
    }
}

// Puts what calls ask for on a stack, the first one at the top.
fn push_calls(
    alloc: Global,
    left: &mut Vec<Goal>,
    names: &[Term],
    calls: &[Call],
) -> Result<(), NoMemory>
    ensures { OnOk result (reverse left.new.items ≡ map (goal_of names.now None) calls.now ++ reverse left.old.items) }
{
    let mut i = calls.len();
    while i > 0 {
        i -= 1;
        let goal = goal_of(alloc, names, None, &calls[i])?;
        left.push(goal)?;
    }
    Ok(())
}

// What is left to be made after a segment.
fn behind(alloc: Global, goal: &Goal, edge: Option<&Edge>) -> Result<Goal, NoMemory>
    requires { (know : Test) × (is_seg know goal.now (option_copied edge) ≡ true) }
    ensures { IfOk result (λ next. behind_seg (record goal.now { stop = None }) (option_copied edge.entry) ≡ next ∷ []) }
{
    match edge {
        Some(Edge::Seg { end, end_args, .. }) => {
            let args = plain_terms(alloc, end_args.as_slice())?;
            Ok(Goal {
                pred: goal.pred,
                at: plain(*end),
                args: Items::of(args),
                stop: None,
            })
        }
        Some(Edge::Block { .. }) => unreachable!(),
        Some(Edge::Ind { .. }) => unreachable!(),
        None => unreachable!(),
    }
}

// Takes the goal on top of the stack.
fn take_goal(left: &mut Vec<Goal>) -> Option<Goal>
    ensures { MatchOption result (reverse left.old.items ≡ []) (λ goal. reverse left.old.items ≡ goal ∷ reverse left.new.items) }
{
    left.pop()
}

// Puts what a segment leaves on the stack.
fn open_seg(
    alloc: Global,
    state: &State,
    goal: &Goal,
    seg: EdgeId,
    left: &mut Vec<Goal>,
) -> Result<(), NoMemory>
    requires { (know : Test) × (is_seg know goal.now (edge_with state.now.graph.edges seg) ≡ true) }
    ensures { OnOk result ((next : _) ×
        (behind_seg (record goal.now { stop = None }) (edge_with state.now.graph.edges seg) ≡ next ∷ [])
        × (reverse left.new.items ≡ next ∷ reverse left.old.items)) }
{
    let next = behind(alloc, goal, state.edge(seg))?;
    left.push(next)?;
    Ok(())
}

// Puts what a rule leaves on the stack: the terms of its names.
fn open_rule(
    alloc: Global,
    state: &State,
    defs: &Defs,
    goal: &Goal,
    place: usize,
    block: Option<EdgeId>,
    left: &mut Vec<Goal>,
) -> Result<Vec<Term>, NoMemory>
    requires { (know : Test) × (fits (setting_in know defs.now state.now) goal.now (mark.ByRule place block) ≡ true) }
    ensures { IfOk result (λ names. (know : Test)
        → fits (setting_in know defs.now state.now) goal.now (mark.ByRule place block) ≡ true
        → IsOpenedBy (setting_in know defs.now state.now) goal.now (mark.ByRule place block) names.items
        (reverse left.new.items) (reverse left.old.items)) }
{
    let rule = match rule_of(defs, goal.pred, place) {
        Some(rule) => rule,
        None => unreachable!(),
    };
    let names = match rule_names(alloc, state, goal, rule, block)? {
        Some(names) => names,
        None => unreachable!(),
    };
    push_calls(alloc, left, &names, rule.calls.as_slice())?;
    Ok(names)
}

// Puts what a mark leaves on the stack: the terms of the names of its rule.
fn open_mark(
    alloc: Global,
    state: &State,
    defs: &Defs,
    goal: &Goal,
    mark: Mark,
    left: &mut Vec<Goal>,
) -> Result<Vec<Term>, NoMemory>
    requires fits { (know : Test) × (fits (setting_in know defs.now state.now) goal.now mark ≡ true) }
    requires plain { goal.now.stop ≡ None }
    ensures { IfOk result (λ names. (know : Test) → fits (setting_in know defs.now state.now) goal.now mark ≡ true
        → goal.now.stop ≡ None → IsOpenedBy (setting_in know defs.now state.now) goal.now mark names.items
        (reverse left.new.items) (reverse left.old.items)) }
{
    match mark {
        Mark::ByInd(_) => Ok(Vec::new(alloc)),
        Mark::BySeg(seg) => {
            open_seg(alloc, state, goal, seg, left)?;
            Ok(Vec::new(alloc))
        }
        Mark::ByRule { place, block } => open_rule(alloc, state, defs, goal, place, block, left),
        Mark::AtEnd => unreachable!(),
        Mark::ByCall { .. } => unreachable!(),
    }
}

/// The goals that the marks of the first cover meet, in order, each with its mark and the terms of its rule's names.
pub fn all_met(
    alloc: Global,
    state: &State,
    defs: &Defs,
    first: Goal,
    marks: &[Mark],
) -> Result<Vec<Met>, NoMemory>
    requires plain { first.stop ≡ None }
    requires marks { (know : Test) → Tells know state.now → first_marks (setting_in know defs.now state.now) first ≡ Some marks.now }
    ensures { IfOk result (λ mets. (know : Test) → Tells know state.now
        → Opened (setting_in know defs.now state.now) first (reverse mets.items) []) }
{
    // For the proof alone: a test tells what is entailed in the state.
    each_is_decided();
    state.is_bounded();
    let mut left = Vec::new(alloc);
    left.push(first)?;
    let mut mets = Vec::new(alloc);
    for mark in marks {
        let goal = match take_goal(&mut left) {
            Some(goal) => goal,
            None => unreachable!(),
        };
        let names = open_mark(alloc, state, defs, &goal, *mark, &mut left)?;
        mets.push(Met {
            goal,
            mark: *mark,
            names,
        })?;
    }
    Ok(mets)
}
