//! The first way to meet a goal, found by a search in depth with a stack of its own: no nesting of goals uses the
//! machine's stack. What goals and marks are is said by a `Problem`.
//!
//! Lists of goals share an arena of cells. What is still to be tried is a stack of marks, each with the goals after it
//! and with how much of the log stands before it; going back is cutting the log.

ghost use Rattle.std.specs.Prelude.{◌≡◌, ◌∷◌, ◌++◌, ◌-◌, ◌≤◌, ◌<◌, ◌⊎◌, ℕ, List, Option, [], Some, None, true, false, IfOk, IsTrue, MatchOption, length, reverse, take, option_map, slice_get};
ghost use Rattle.std.specs.Option.{option_copied};
ghost use Rattle.std.specs.Ordering.{nat_cmp};
ghost use Rattle.std.specs.BTreeMap as tree;
ghost use Rattle.mc_shape_search.specs.Search.Search.{Space, uses, takes_this, is_unused, is_free, tries, first_try};
ghost use Rattle.mc_shape_search.specs.Tries.Stack.{enough, goals_at, IsArena, Pushes, IsStack, tries_of};
ghost use Rattle.mc_shape_search.specs.Tries.Thin.{StandsFor, IsSpare, Opens};
ghost use Rattle.mc_shape_search.specs.Tries.Times.{HasTimes, SetsPlace};

use std::alloc::{AllocError, Global};
use std::collections::BTreeMap;

/// A goal in the arena and the list after it: `next` is 0 for none, and else the number of a cell, from 1 on.
#[derive(Drop)]
pub struct Cell<G> {
    pub goal: G,
    pub next: usize,
}

/// A mark that is still to be tried: the goals after it, and how much of the log stands before it.
#[derive(Clone, Copy)]
pub struct Pending<M> {
    pub mark: M,
    pub goals: usize,
    pub height: usize,
}

/// How goals are met.
pub trait Problem {
    type Goal: Drop;

    type Mark: Copy;

    ghost space: { Self → Space Self.Goal Self.Mark };

    /// The goal again.
    fn copy(&self, alloc: Global, goal: &Self::Goal) -> Result<Self::Goal, AllocError>
        ensures { IfOk result (λ made. made ≡ goal.now) };

    /// The marks of a goal, in their order.
    fn marks(&self, alloc: Global, goal: &Self::Goal) -> Result<Vec<Self::Mark>, AllocError>
        ensures { IfOk result (λ all. all.items ≡ (space self.now).marks goal.now) };

    /// What the mark takes, if it takes anything.
    fn taken(&self, mark: Self::Mark) -> Option<u64>
        ensures { result ≡ (space self.now).takes mark };

    /// Whether the first mark stands for the second: what the second meets, the first meets where what it takes is
    /// unused. Such a second need not be tried after the first.
    fn stands_for(&self, one: Self::Mark, other: Self::Mark) -> bool
        ensures { IsTrue result → StandsFor (space self.now) one other };

    /// Pushes the goals that the mark leaves, and None exactly where the mark does not fit.
    fn push_calls(
        &self,
        alloc: Global,
        cells: &mut Vec<Cell<Self::Goal>>,
        goal: &Self::Goal,
        mark: Self::Mark,
        rest: usize,
    ) -> Result<Option<usize>, AllocError>
        requires arena { IsArena (reverse cells.old.items) }
        requires within { rest ≤ length (reverse cells.old.items) }
        ensures fits { IfOk result (λ top. MatchOption top ((space self.now).fits goal.now mark ≡ false)
            (λ _. (space self.now).fits goal.now mark ≡ true)) }
        ensures kept { IfOk result (λ top. top ≡ None → cells.new.items ≡ cells.old.items) }
        ensures pushed { IfOk result (λ top. MatchOption top (Unit {0})
            (λ p. Pushes ((space self.now).calls goal.now mark) (reverse cells.old.items)
            (reverse cells.new.items) rest p)) };

    /// Whether the search may end with these marks.
    fn may_end(&self, log: &[Self::Mark]) -> bool
        ensures { result ≡ (space self.now).ends log.now };
}

/// Pushes a goal before those of a pointer, and gives the new pointer.
#[tactic(auto, using(crate::proofs::TriesLemmas::Arena::Pushes_push))]
pub fn push_goal<G: Drop>(
    cells: &mut Vec<Cell<G>>,
    goal: G,
    rest: usize,
) -> Result<usize, AllocError>
    requires arena { IsArena (reverse cells.old.items) }
    requires within { rest ≤ length (reverse cells.old.items) }
    ensures { IfOk result (λ top. Pushes (goal ∷ []) (reverse cells.old.items) (reverse cells.new.items) rest top) }
{
    cells.push(Cell { goal, next: rest })?;
    Ok(cells.len())
}

// Takes what is on top of the stack.
fn take_next<M: Copy>(pending: &mut Vec<Pending<M>>) -> Option<Pending<M>>
    ensures { MatchOption result (reverse pending.old.items ≡ []) (λ p. reverse pending.old.items ≡ p ∷ reverse pending.new.items) }
{
    pending.pop()
}

// Whether the number is what is taken.
fn is_this(taken: Option<u64>, id: u64) -> bool
    ensures { result ≡ takes_this taken id }
{
    match taken {
        None => false,
        Some(own) => own == id,
    }
}

// The mark at a place of the log.
fn mark_at<M>(log: &[M], place: usize) -> Option<&M>
    ensures { option_copied result ≡ slice_get log.now place }
{
    log.get(place)
}

// Whether a mark of the log has taken the number.
fn is_used<P: Problem>(problem: &P, log: &[P::Mark], times: &BTreeMap<u64, usize>, id: u64) -> bool
    requires { HasTimes (P.space problem.now).takes log.now (tree.get nat_cmp times.now) }
    ensures { result ≡ uses (P.space problem.now).takes log.now id }
{
    match times.get(&id) {
        None => false,
        Some(place) => match mark_at(log, *place) {
            None => false,
            Some(mark) => is_this(problem.taken(*mark), id),
        },
    }
}

// Whether no mark of the log has taken what is to be taken.
fn is_unused<P: Problem>(
    problem: &P,
    log: &[P::Mark],
    times: &BTreeMap<u64, usize>,
    taken: Option<u64>,
) -> bool
    requires { HasTimes (P.space problem.now).takes log.now (tree.get nat_cmp times.now) }
    ensures { result ≡ is_unused (P.space problem.now).takes log.now taken }
{
    match taken {
        None => true,
        Some(id) => !is_used(problem, log, times, id),
    }
}

// Whether a mark stands for another, and takes nothing that was taken.
fn replaces<P: Problem>(
    problem: &P,
    log: &[P::Mark],
    times: &BTreeMap<u64, usize>,
    one: P::Mark,
    other: P::Mark,
) -> bool
    requires { HasTimes (P.space problem.now).takes log.now (tree.get nat_cmp times.now) }
    ensures stands { IsTrue result → StandsFor (P.space problem.now) one other }
    ensures free { IsTrue result → is_free (P.space problem.now).takes log.now one ≡ true }
{
    problem.stands_for(one, other) && is_unused(problem, log, times, problem.taken(one))
}

// Whether the mark at a place may be left out, since an earlier one stands for it.
fn is_spare<P: Problem>(
    problem: &P,
    log: &[P::Mark],
    times: &BTreeMap<u64, usize>,
    all: &[P::Mark],
    place: usize,
    mark: P::Mark,
) -> bool
    requires times { HasTimes (P.space problem.now).takes log.now (tree.get nat_cmp times.now) }
    requires within { place ≤ length all.now }
    ensures { IsTrue result → IsSpare (P.space problem.now) (take place all.now) log.now mark }
{
    for j in 0..place {
        if replaces(problem, log, times, all[j], mark) {
            return true;
        }
    }
    false
}

// Whether the mark at a place is to be tried: what it takes is unused, and no earlier one stands for it.
fn is_wanted<P: Problem>(
    problem: &P,
    log: &[P::Mark],
    times: &BTreeMap<u64, usize>,
    all: &[P::Mark],
    place: usize,
    mark: P::Mark,
) -> bool
    requires times { HasTimes (P.space problem.now).takes log.now (tree.get nat_cmp times.now) }
    requires within { place ≤ length all.now }
    ensures free { IsTrue result → is_free (P.space problem.now).takes log.now mark ≡ true }
    ensures spare { result ≡ false → (is_free (P.space problem.now).takes log.now mark ≡ false)
        ⊎ IsSpare (P.space problem.now) (take place all.now) log.now mark }
{
    is_unused(problem, log, times, problem.taken(mark))
        && !is_spare(problem, log, times, all, place, mark)
}

// Pushes the marks of a goal that are to be tried and apply, the first of them on top.
fn push_marks<P: Problem>(
    alloc: Global,
    problem: &P,
    goal: &P::Goal,
    next: usize,
    log: &[P::Mark],
    times: &BTreeMap<u64, usize>,
    cells: &mut Vec<Cell<P::Goal>>,
    pending: &mut Vec<Pending<P::Mark>>,
) -> Result<(), AllocError>
    requires times { HasTimes (P.space problem.now).takes log.now (tree.get nat_cmp times.now) }
    requires arena { IsArena (reverse cells.old.items) }
    requires within { next ≤ length (reverse cells.old.items) }
    requires stack { IsStack (P.space problem.now).takes log.now (length (reverse cells.old.items)) (length log.now)
        (reverse pending.old.items) }
    ensures arena { IfOk result (λ _. IsArena (reverse cells.new.items)) }
    ensures stack { IfOk result (λ _. IsStack (P.space problem.now).takes log.now (length (reverse cells.new.items))
        (length log.now) (reverse pending.new.items)) }
    ensures tried { IfOk result (λ _. Opens (P.space problem.now)
        (goal.now ∷ goals_at (reverse cells.old.items) next) log.now (reverse cells.old.items)
        (reverse pending.old.items) (reverse cells.new.items) (reverse pending.new.items)) }
{
    let all = problem.marks(alloc, goal)?;
    let height = log.len();
    let mut i = all.len();
    while i > 0 {
        i -= 1;
        let mark = all[i];
        if is_wanted(problem, log, times, &all, i, mark) {
            if let Some(goals) = problem.push_calls(alloc, cells, goal, mark, next)? {
                pending.push(Pending {
                    mark,
                    goals,
                    height,
                })?;
            }
        }
    }
    Ok(())
}

// The same for the first goal of a pointer.
fn expand<P: Problem>(
    alloc: Global,
    problem: &P,
    log: &[P::Mark],
    times: &BTreeMap<u64, usize>,
    cells: &mut Vec<Cell<P::Goal>>,
    pending: &mut Vec<Pending<P::Mark>>,
    top: usize,
) -> Result<(), AllocError>
    requires times { HasTimes (P.space problem.now).takes log.now (tree.get nat_cmp times.now) }
    requires arena { IsArena (reverse cells.old.items) }
    requires some { 0 < top }
    requires within { top ≤ length (reverse cells.old.items) }
    requires stack { IsStack (P.space problem.now).takes log.now (length (reverse cells.old.items)) (length log.now)
        (reverse pending.old.items) }
    ensures arena { IfOk result (λ _. IsArena (reverse cells.new.items)) }
    ensures stack { IfOk result (λ _. IsStack (P.space problem.now).takes log.now (length (reverse cells.new.items))
        (length log.now) (reverse pending.new.items)) }
    ensures tried { IfOk result (λ _. Opens (P.space problem.now) (goals_at (reverse cells.old.items) top) log.now
        (reverse cells.old.items) (reverse pending.old.items) (reverse cells.new.items)
        (reverse pending.new.items)) }
{
    let cell = &cells[top - 1];
    let next = cell.next;
    let goal = problem.copy(alloc, &cell.goal)?;
    push_marks(alloc, problem, &goal, next, log, times, cells, pending)
}

// Gives what is taken, if anything, its place in the log.
fn set_place(
    times: &mut BTreeMap<u64, usize>,
    taken: Option<u64>,
    place: usize,
) -> Result<(), AllocError>
    ensures { IfOk result (λ _. SetsPlace taken place (tree.get nat_cmp times.old) (tree.get nat_cmp times.new)) }
{
    if let Some(id) = taken {
        times.insert(id, place)?;
    }
    Ok(())
}

// Cuts the log to a height, and adds a mark.
fn cut_log<P: Problem>(
    problem: &P,
    log: &mut Vec<P::Mark>,
    times: &mut BTreeMap<u64, usize>,
    height: usize,
    mark: P::Mark,
) -> Result<(), AllocError>
    requires times { HasTimes (P.space problem.now).takes log.old.items (tree.get nat_cmp times.old) }
    requires free { is_free (P.space problem.now).takes (take height log.old.items) mark ≡ true }
    ensures log { IfOk result (λ _. log.new.items ≡ take height log.old.items ++ mark ∷ []) }
    ensures times { IfOk result (λ _. HasTimes (P.space problem.now).takes log.new.items (tree.get nat_cmp times.new)) }
{
    log.truncate(height);
    set_place(times, problem.taken(mark), log.len())?;
    log.push(mark)?;
    Ok(())
}

/// The marks of the first try that meets the goal and may end the search. They are those of every list of tries that
/// lets a log grow long enough.
pub fn find_first<P: Problem>(
    alloc: Global,
    problem: &P,
    goal: P::Goal,
) -> Result<Option<Vec<P::Mark>>, AllocError>
    ensures { IfOk result (λ found. (limit : ℕ) → enough ≤ limit → option_map (λ log. log.items) found
        ≡ first_try (P.space problem.now) limit goal) }
{
    let mut cells = Vec::new(alloc);
    let mut pending = Vec::new(alloc);
    let mut log = Vec::new(alloc);
    let mut times = BTreeMap::new(alloc);
    let top = push_goal(&mut cells, goal, 0)?;
    expand(alloc, problem, &log, &times, &mut cells, &mut pending, top)?;
    while let Some(next) = take_next(&mut pending) {
        cut_log(problem, &mut log, &mut times, next.height, next.mark)?;
        if next.goals == 0 {
            if problem.may_end(&log) {
                return Ok(Some(log));
            }
        } else {
            expand(
                alloc,
                problem,
                &log,
                &times,
                &mut cells,
                &mut pending,
                next.goals,
            )?;
        }
    }
    Ok(None)
}
