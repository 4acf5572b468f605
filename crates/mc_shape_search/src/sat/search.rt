// How goals are met on a heap.
ghost use Rattle.std.specs.Prelude.{◌≡◌, ◌≤◌, ◌∷◌, None, IfOk, IsSome, MatchOption, length, map, reverse};
ghost use Rattle.mc_shape_search.specs.Tries.Stack.{IsArena, Pushes};
ghost use Rattle.mc_shape_search.specs.Sat.Marks.{block_for, same_block, named_by, calls_of, goal_of, marks, marks_from, taken, ends, space};

use crate::sat::names::{address_of, names_for, value};
use crate::sat::{Goal, Mark};
use crate::tries::{Cell, Problem, push_goal};
use mc_base::{Args, PredId, StructId};
use mc_flow::defs::{Call, Def, Rule};
use mc_flow::heap::{Heap, NoMemory};
use std::alloc::Global;

/// A goal with these arguments.
pub fn goal(alloc: Global, pred: PredId, at: i64, args: &[i64]) -> Result<Goal, NoMemory>
    ensures { IfOk result (λ made. made ≡ record { pred = pred; at = at; args = args.now }) }
{
    let mut own = Args::new(alloc);
    for arg in args {
        own.push(*arg)?;
    }
    Ok(Goal {
        pred,
        at,
        args: own,
    })
}

// The goal of a call.
fn call_goal(alloc: Global, names: &[i64], call: &Call) -> Result<Goal, NoMemory>
    ensures { IfOk result (λ made. made ≡ goal_of names.now call.now) }
{
    let mut args = Args::new(alloc);
    for name in call.args.as_slice() {
        args.push(value(names, *name))?;
    }
    Ok(Goal {
        pred: call.pred,
        at: value(names, call.at),
        args,
    })
}

// Pushes the goals of calls.
fn push_goals(
    alloc: Global,
    cells: &mut Vec<Cell<Goal>>,
    names: &[i64],
    calls: &[Call],
    rest: usize,
) -> Result<usize, NoMemory>
    requires arena { IsArena (reverse cells.old.items) }
    requires within { rest ≤ length (reverse cells.old.items) }
    ensures { IfOk result (λ top. Pushes (map (goal_of names.now) calls.now) (reverse cells.old.items) (reverse cells.new.items) rest top) }
{
    let mut top = rest;
    let mut i = calls.len();
    while i > 0 {
        i -= 1;
        top = push_goal(cells, call_goal(alloc, names, &calls[i])?, top)?;
    }
    Ok(top)
}

// The address of a rule's block at a value.
fn block_for(block: Option<StructId>, value: i64) -> Option<u64>
    ensures { result ≡ block_for block value }
{
    match block {
        None => None,
        Some(_) => address_of(value),
    }
}

fn same_block(left: Option<u64>, right: Option<u64>) -> bool
    ensures { result ≡ same_block left right }
{
    match (left, right) {
        (None, None) => true,
        (Some(left), Some(right)) => left == right,
        _ => false,
    }
}

// Pushes the goals of a rule's calls. None where its block is another, or its names do not fit.
fn push_rule(
    alloc: Global,
    heap: &Heap,
    cells: &mut Vec<Cell<Goal>>,
    goal: &Goal,
    block: Option<u64>,
    def: &Def,
    rule: &Rule,
    rest: usize,
) -> Result<Option<usize>, NoMemory>
    requires arena { IsArena (reverse cells.old.items) }
    requires within { rest ≤ length (reverse cells.old.items) }
    ensures fits { IfOk result (λ top. MatchOption top (named_by heap.now goal.now block def.now rule.now ≡ None)
        (λ _. IsSome (named_by heap.now goal.now block def.now rule.now))) }
    ensures kept { IfOk result (λ top. top ≡ None → cells.new.items ≡ cells.old.items) }
    ensures pushed { IfOk result (λ top. MatchOption top (Unit {0})
        (λ p. Pushes (calls_of (named_by heap.now goal.now block def.now rule.now)) (reverse cells.old.items)
        (reverse cells.new.items) rest p)) }
{
    if !same_block(block_for(rule.block, goal.at), block) {
        return Ok(None);
    }
    match names_for(alloc, heap, goal, def, rule)? {
        None => Ok(None),
        Some(names) => {
            let top = push_goals(alloc, cells, &names, rule.calls.as_slice(), rest)?;
            Ok(Some(top))
        }
    }
}

// The mark of a rule at a goal.
fn mark_of(place: usize, rule: &Rule, goal: &Goal) -> Mark
    ensures { result ≡ record { rule = place; block = block_for rule.now.block goal.now.at } }
{
    Mark {
        rule: place,
        block: block_for(rule.block, goal.at),
    }
}

// The marks of rules at a goal.
#[tactic(auto, using(crate::proofs::SatLemmas::Listed::marks_more))]
fn marks_of(alloc: Global, rules: &[Rule], goal: &Goal) -> Result<Vec<Mark>, NoMemory>
    ensures { IfOk result (λ all. all.items ≡ marks_from goal.now.at 0 rules.now) }
{
    let mut all = Vec::new(alloc);
    for (place, rule) in rules.iter().enumerate() {
        all.push(mark_of(place, rule, goal))?;
    }
    Ok(all)
}

/// The addresses that marks take, in their order.
pub fn taken(alloc: Global, log: &[Mark]) -> Result<Vec<u64>, NoMemory>
    ensures { IfOk result (λ all. all.items ≡ taken log.now) }
{
    let mut all = Vec::new(alloc);
    for mark in log {
        if let Some(at) = mark.block {
            all.push(at)?;
        }
    }
    Ok(all)
}

// How many addresses marks take.
fn count_taken(log: &[Mark]) -> u64
    ensures { result ≡ length (taken log.now) }
{
    let mut count = 0;
    for mark in log {
        if mark.block.is_some() {
            count += 1;
        }
    }
    count
}

/// A search for a part of a heap, or for the whole of it.
#[derive(Clone, Copy)]
pub struct HeapSearch<'a> {
    pub heap: &'a Heap,
    pub defs: &'a [Def],
    pub whole: bool,
}

impl<'a> Problem for HeapSearch<'a> {
    type Goal = Goal;

    type Mark = Mark;

    ghost space = { λ search. space search.whole search.heap.now search.defs.now };

    fn copy(&self, alloc: Global, goal: &Goal) -> Result<Goal, NoMemory> {
        Ok(Goal {
            pred: goal.pred,
            at: goal.at,
            args: goal.args.copy(alloc)?,
        })
    }

    fn marks(&self, alloc: Global, goal: &Goal) -> Result<Vec<Mark>, NoMemory> {
        match self.defs.get(goal.pred.0 as usize) {
            None => Ok(Vec::new(alloc)),
            Some(def) => marks_of(alloc, def.rules.as_slice(), goal),
        }
    }

    fn taken(&self, mark: Mark) -> Option<u64> {
        mark.block
    }

    fn stands_for(&self, one: Mark, other: Mark) -> bool {
        false
    }

    fn push_calls(
        &self,
        alloc: Global,
        cells: &mut Vec<Cell<Goal>>,
        goal: &Goal,
        mark: Mark,
        rest: usize,
    ) -> Result<Option<usize>, NoMemory> {
        let Some(def) = self.defs.get(goal.pred.0 as usize) else {
            return Ok(None);
        };
        let Some(rule) = def.rules.get(mark.rule) else {
            return Ok(None);
        };
        push_rule(alloc, self.heap, cells, goal, mark.block, def, rule, rest)
    }

    fn may_end(&self, log: &[Mark]) -> bool {
        !self.whole || count_taken(log) == self.heap.len()
    }
}
