// The search for a certificate, or for alarms.
ghost use Rattle.std.specs.Prelude.{IfOk, IfSome};
ghost use Rattle.mc_flow.specs.Valid.{IsValid};
ghost use Rattle.mc_find.specs.Analysis.Findings.{IsFound, IsProposed};

use crate::alarming::{Known, first_faults, try_all};
use crate::analysis::Proposed;
use crate::finding::{all_steps, certified, new_attempt, other_certificate};
use crate::prepared::Prepared;
use crate::runs::Runs;
use crate::walks::{Attempt, Limits, Task, blocked_by_runs};
use crate::ways::count_ways;
use mc_base::NoMemory;
use mc_flow::{Defs, Flow};
use mc_lines::cert::Line;
use std::alloc::Global;

/// Of the steps of an attempt, this part is taken before runs are tried.
const FIRST_PART: u64 = 4;

/// A certificate of an attempt that is whole, or else chains of further ones.
fn settle(
    alloc: Global,
    task: Task<'_>,
    limits: Limits,
    attempt: Attempt<'_>,
) -> Result<Option<Proposed>, NoMemory>
    requires { IsValid task.sight.flow.now task.sight.defs.now }
    ensures { IfOk result
        (λ found. IfSome found
        (λ proposed. IsProposed task.entry.sight.flow.now task.entry.sight.defs.now limits.merge proposed)) }
{
    match certified(alloc, task, limits.merge, attempt)? {
        Some(lines) => Ok(Some(Proposed::Certificate(lines))),
        None => {
            let begun = new_attempt(alloc, task, limits, 0)?;
            try_all(alloc, task, limits, &Known::nothing(alloc), begun)
        }
    }
}

/// What is found where no fault is met soon: other plans are tried a while, then a few runs. Where one of them comes to a fault
/// there is no certificate; else the plans that are left are tried.
fn search_plans<R: Runs>(
    alloc: Global,
    task: Task<'_>,
    limits: Limits,
    runs: &R,
    begun: Attempt<'_>,
) -> Result<Option<Proposed>, NoMemory>
    requires { IsValid task.sight.flow.now task.sight.defs.now }
    ensures { IfOk result
        (λ found. IfSome found
        (λ proposed. IsProposed task.entry.sight.flow.now task.entry.sight.defs.now limits.merge proposed)) }
{
    let mut attempt = begun;
    attempt.blame_cuts();
    let rest = attempt.keep_back(all_steps(task) / FIRST_PART);
    if attempt.run()? {
        return settle(alloc, task, limits, attempt);
    }
    if attempt.left() == 0 {
        let faults = blocked_by_runs(alloc, runs.faults(alloc)?.as_slice())?;
        if !faults.is_empty() {
            return try_all(alloc, task, limits, &Known::far(faults), attempt);
        }
        attempt.give(rest);
        if attempt.run()? {
            return settle(alloc, task, limits, attempt);
        }
    }
    match other_certificate(alloc, task, limits, attempt.was_crowded())? {
        Some(lines) => Ok(Some(Proposed::Certificate(lines))),
        None => try_all(alloc, task, limits, &Known::nothing(alloc), attempt),
    }
}

/// What is found after an attempt that found nothing by the plan with which each cut begins. Where a fault is met before
/// anything is folded there is no certificate: folding only forgets, so each other plan would be blocked there.
fn search_on<R: Runs>(
    alloc: Global,
    task: Task<'_>,
    limits: Limits,
    runs: &R,
    begun: Attempt<'_>,
) -> Result<Option<Proposed>, NoMemory>
    requires { IsValid task.sight.flow.now task.sight.defs.now }
    ensures { IfOk result
        (λ found. IfSome found
        (λ proposed. IsProposed task.entry.sight.flow.now task.entry.sight.defs.now limits.merge proposed)) }
{
    let faults = first_faults(alloc, task)?;
    if faults.is_empty() {
        search_plans(alloc, task, limits, runs, begun)
    } else {
        try_all(alloc, task, limits, &Known::near(faults), begun)
    }
}

/// The attempts at a program: certificates first, then chains.
fn search_task<R: Runs>(
    alloc: Global,
    task: Task<'_>,
    limits: Limits,
    runs: &R,
) -> Result<Option<Proposed>, NoMemory>
    requires { IsValid task.sight.flow.now task.sight.defs.now }
    ensures { IfOk result
        (λ found. IfSome found
        (λ proposed. IsProposed task.entry.sight.flow.now task.entry.sight.defs.now limits.merge proposed)) }
{
    let mut attempt = new_attempt(alloc, task, limits, all_steps(task))?;
    if attempt.run()? {
        settle(alloc, task, limits, attempt)
    } else {
        search_on(alloc, task, limits, runs, attempt)
    }
}

/// A program without loops has many ways where it has more than this number.
const MANY: u64 = 256;

/// The lines of a valid certificate of a flow graph without loops, where many ways lead through it, and come together at cuts as
/// the first plan folds.
pub fn joined_ways(
    alloc: Global,
    flow: &Flow,
    defs: &Defs,
    limits: Limits,
) -> Result<Option<Vec<Line>>, NoMemory>
    requires { IsValid flow.now defs.now }
    ensures { IfOk result (λ found. IfSome found (λ lines. IsFound flow.now defs.now limits.merge lines.items)) }
{
    if count_ways(alloc, flow)? <= MANY {
        return Ok(None);
    }
    let prepared = Prepared::of(alloc, flow, defs, limits.merge)?;
    let task = prepared.task(flow, defs);
    let mut attempt = new_attempt(alloc, task, limits, all_steps(task))?;
    if attempt.run()? {
        certified(alloc, task, limits.merge, attempt)
    } else {
        Ok(None)
    }
}

/// The lines of a valid certificate of a flow graph, or else a chain of one pass that tells where it may fail, where one is
/// found within the limits of each attempt: of several chains the one that tells best what is met before anything is folded.
/// Its cuts are the loop heads, the points where the two ways of an `if` meet if that is asked for, and further ones where too
/// many branches would come together. It ends no more than 65,536 branches. A search may give up: None says only that nothing
/// was found.
pub fn search<R: Runs>(
    alloc: Global,
    flow: &Flow,
    defs: &Defs,
    limits: Limits,
    runs: &R,
) -> Result<Option<Proposed>, NoMemory>
    requires { IsValid flow.now defs.now }
    ensures { IfOk result (λ found. IfSome found (λ proposed. IsProposed flow.now defs.now limits.merge proposed)) }
{
    let prepared = Prepared::of(alloc, flow, defs, limits.merge)?;
    search_task(alloc, prepared.task(flow, defs), limits, runs)
}
