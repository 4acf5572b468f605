// Which functions reach which, by their numbers.
ghost use Rattle.std.specs.Prelude.{ℕ, ◌≡◌, ◌+◌, ◌<◌, ◌≤◌, ◌↔◌, IsTrue, IfOk, All, false, length};
ghost use Rattle.std.specs.Bool.{IsFalse};
ghost use Rattle.mc_c_check.specs.Graphs.{IsWithin, IsClosed, Leads, LeadsToMarked, Keeps, is_marked, unmarked};

use crate::links::Links;
use mc_base::text::Place;
use std::alloc::{AllocError, Global};

/// A call, by the numbers of the functions, with its place.
#[derive(Clone, Copy)]
pub struct Edge {
    pub caller: usize,
    pub callee: usize,
    pub place: Place,
}

/// Marks what is called by marked functions, and says whether something new was marked.
fn spread(edges: &[Edge], marks: &mut [bool]) -> bool
    requires { All (IsWithin (length marks.old)) edges.now }
    ensures sound { (from : ℕ) → LeadsToMarked edges.now from marks.old → LeadsToMarked edges.now from marks.new }
    ensures kept { Keeps marks.old marks.new }
    ensures closed { IsFalse result → IsClosed edges.now marks.new }
    ensures less { IsTrue result → unmarked marks.new < unmarked marks.old }
{
    let mut more = false;
    let mut left = edges.len();
    while left > 0 {
        left -= 1;
        let edge = edges[left];
        if marks[edge.caller] && !marks[edge.callee] {
            marks[edge.callee] = true;
            more = true;
        }
    }
    more
}

/// Marks all that the calls of marked functions lead to.
fn spread_all(edges: &[Edge], marks: &mut [bool])
    requires { All (IsWithin (length marks.old)) edges.now }
    ensures sound { (from : ℕ) → LeadsToMarked edges.now from marks.old → LeadsToMarked edges.now from marks.new }
    ensures kept { Keeps marks.old marks.new }
    ensures closed { IsClosed edges.now marks.new }
{
    while spread(edges, marks) {}
}

/// The calls by their places, in an order in which they are met on the way from a function.
fn calls_from(
    alloc: Global,
    edges: &[Edge],
    size: usize,
    from: usize,
) -> Result<Vec<usize>, AllocError> {
    let mut links = Links::new(alloc, edges, size)?;
    let mut calls = Vec::new(alloc);
    let mut path = vec![in alloc; from]?;
    let steps = edges.len().saturating_add(edges.len());
    for _ in 0..steps {
        let Some(function) = path.pop() else {
            return Ok(calls);
        };
        let Some(call) = links.next(function) else {
            continue;
        };
        path.push(function)?;
        calls.push(call)?;
        if let Some(edge) = edges.get(call) {
            path.push(edge.callee)?;
        }
    }
    Ok(calls)
}

/// Marks what this call calls, where its caller is marked.
fn spread_one(edges: &[Edge], call: usize, marks: &mut [bool])
    requires { All (IsWithin (length marks.old)) edges.now }
    ensures sound { (from : ℕ) → LeadsToMarked edges.now from marks.old → LeadsToMarked edges.now from marks.new }
    ensures kept { Keeps marks.old marks.new }
{
    if call >= edges.len() {
        return;
    }
    let edge = edges[call];
    if !marks[edge.caller] {
        return;
    }
    marks[edge.callee] = true;
}

/// Marks what marked functions call, along these calls.
fn spread_along(edges: &[Edge], calls: &[usize], marks: &mut [bool])
    requires { All (IsWithin (length marks.old)) edges.now }
    ensures sound { (from : ℕ) → LeadsToMarked edges.now from marks.old → LeadsToMarked edges.now from marks.new }
    ensures kept { Keeps marks.old marks.new }
{
    for call in calls {
        spread_one(edges, *call, marks);
    }
}

/// One more than so many numbers, of which none is marked.
fn no_marks(alloc: Global, count: usize) -> Result<Vec<bool>, AllocError>
    ensures long { IfOk result (λ marks. length marks.items ≡ count + 1) }
    ensures none { IfOk result (λ marks. (n : ℕ) → is_marked marks.items n ≡ false) }
{
    let mut marks = vec![in alloc; false; count]?;
    marks.push(false)?;
    Ok(marks)
}

/// Whether calls lead from one function to another.
pub fn leads(
    alloc: Global,
    edges: &[Edge],
    count: usize,
    from: usize,
    to: usize,
) -> Result<bool, AllocError>
    requires within { All (IsWithin (count + 1)) edges.now }
    requires start { from ≤ count }
    requires end { to ≤ count }
    ensures { IfOk result (λ found. IsTrue found ↔ Leads edges.now from to) }
{
    let mut list = no_marks(alloc, count)?;
    let marks = list.as_mut_slice();
    marks[from] = true;
    let calls = calls_from(alloc, edges, marks.len(), from)?;
    spread_along(edges, calls.as_slice(), marks);
    spread_all(edges, marks);
    Ok(marks[to])
}
