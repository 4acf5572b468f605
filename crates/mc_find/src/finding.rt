// The search for a certificate.
ghost use Rattle.std.specs.Prelude.{◌≡◌, IfOk, IfSome};
ghost use Rattle.mc_flow.specs.Valid.{IsValid};
ghost use Rattle.mc_find.specs.Analysis.Findings.{IsFound};

use crate::accepted::is_found;
use crate::orders::orders;
use crate::walks::{Aim, Attempt, Limits, Step, Style, Task, first_rung};
use mc_base::NoMemory;
use mc_lines::cert::{Form, Line};
use std::alloc::Global;

/// So many steps an attempt may take for each point of a program.
const EACH: u64 = 500;

/// So many steps it may take besides.
const BESIDES: u64 = 20_000;

/// A program of so many points has few cuts, whose plans are soon tried.
const SMALL: u64 = 100;

/// The number of heads of a cut with which a search is made again that was made with more.
const FEW_HEADS: usize = 16;

/// The number of heads of a cut with which a search is made again since there were too many: four cursors over one list lie in
/// 75 orders.
const MANY_HEADS: usize = 128;

/// How many steps that one may take.
const STEPS: u64 = 32_000;

/// How many steps an attempt at a certificate may take.
pub fn all_steps(task: Task<'_>) -> u64 {
    let points = task.graph.size() as u64;
    points.saturating_mul(EACH).saturating_add(BESIDES)
}

/// How many steps an attempt at a chain may take while cuts get other plans: for each point beyond those of a small program half
/// as many as one at a certificate, and an eighth of all at least.
pub fn chain_steps(task: Task<'_>) -> u64 {
    let points = task.graph.size() as u64;
    let beyond = points.saturating_sub(SMALL).saturating_mul(EACH / 2);
    beyond.max(all_steps(task) / 8)
}

/// How the attempt at a certificate folds; where it goes on as one at a chain, heads lose in the end.
const fn folding() -> Style {
    Style {
        rung: first_rung(Step::Plain),
        heads: 4,
        nulls: false,
    }
}

/// An attempt at a certificate that has not begun.
pub fn new_attempt<'a>(
    alloc: Global,
    task: Task<'a>,
    limits: Limits,
    steps: u64,
) -> Result<Attempt<'a>, NoMemory>
    requires { IsValid task.sight.flow.now task.sight.defs.now }
{
    Attempt::new(alloc, task, Aim::Certificate, folding(), limits, steps)
}

/// The lines of an attempt that is whole, where they are a certificate that is accepted.
pub fn certified(
    alloc: Global,
    task: Task<'_>,
    merge: bool,
    attempt: Attempt<'_>,
) -> Result<Option<Vec<Line>>, NoMemory>
    requires { IsValid task.sight.flow.now task.sight.defs.now }
    ensures { IfOk result
        (λ found. IfSome found
        (λ lines. IsFound task.entry.sight.flow.now task.entry.sight.defs.now merge lines.items)) }
{
    let lines = attempt.document(Form::Certificate)?;
    if is_found(
        alloc,
        task.sight.flow,
        task.sight.defs,
        merge,
        lines.as_slice(),
    )? {
        Ok(Some(lines))
    } else {
        Ok(None)
    }
}

/// Another attempt, for which at most so many steps are left, of which it may take a part; what it takes without success is left
/// no more.
fn try_again(
    alloc: Global,
    task: Task<'_>,
    limits: Limits,
    left: &mut u64,
) -> Result<Option<Vec<Line>>, NoMemory>
    requires { IsValid task.sight.flow.now task.sight.defs.now }
    ensures { IfOk result
        (λ found. IfSome found
        (λ lines. IsFound task.entry.sight.flow.now task.entry.sight.defs.now limits.merge lines.items)) }
{
    let steps = (*left).min(all_steps(task) / 2);
    let mut attempt = new_attempt(alloc, task, limits, steps)?;
    attempt.blame_cuts();
    let is_whole = attempt.run()?;
    *left = left.saturating_sub(steps.saturating_sub(attempt.left()));
    if is_whole {
        certified(alloc, task, limits.merge, attempt)
    } else {
        Ok(None)
    }
}

/// The limits with which the search is made again where cuts had too many heads.
fn wider(limits: Limits) -> Limits
    ensures { result.merge ≡ limits.merge }
{
    Limits {
        keys: limits.keys.max(MANY_HEADS),
        rounds: limits.rounds,
        merge: limits.merge,
    }
}

/// Another attempt by the first plan of each cut, with more heads.
fn try_wider(alloc: Global, task: Task<'_>, limits: Limits) -> Result<Option<Vec<Line>>, NoMemory>
    requires { IsValid task.sight.flow.now task.sight.defs.now }
    ensures { IfOk result
        (λ found. IfSome found
        (λ lines. IsFound task.entry.sight.flow.now task.entry.sight.defs.now limits.merge lines.items)) }
{
    let mut attempt = new_attempt(alloc, task, wider(limits), STEPS)?;
    if attempt.run()? {
        certified(alloc, task, limits.merge, attempt)
    } else {
        Ok(None)
    }
}

/// The limits with which the search is made again.
fn fewer(limits: Limits) -> Limits
    ensures { result.merge ≡ limits.merge }
{
    Limits {
        keys: limits.keys.min(FEW_HEADS),
        rounds: limits.rounds,
        merge: limits.merge,
    }
}

/// Further attempts after one that found nothing: with more heads where there were too many, with fewer where there may be many, and
/// with the predicates in other orders, or without some. What more is wanted and allowed than is needed costs no proof so.
pub fn other_certificate(
    alloc: Global,
    task: Task<'_>,
    limits: Limits,
    was_crowded: bool,
) -> Result<Option<Vec<Line>>, NoMemory>
    requires { IsValid task.sight.flow.now task.sight.defs.now }
    ensures { IfOk result
        (λ found. IfSome found
        (λ lines. IsFound task.entry.sight.flow.now task.entry.sight.defs.now limits.merge lines.items)) }
{
    if was_crowded {
        let found = try_wider(alloc, task, limits)?;
        if found.is_some() {
            return Ok(found);
        }
    }
    let own = fewer(limits);
    let mut left = all_steps(task).saturating_mul(2);
    if own.keys < limits.keys {
        let found = try_again(alloc, task, own, &mut left)?;
        if found.is_some() {
            return Ok(found);
        }
    }
    let lists = orders(alloc, task)?;
    for wanted in lists.as_slice() {
        if left > 0 {
            let found = try_again(alloc, task.wanting(wanted.as_slice()), own, &mut left)?;
            if found.is_some() {
                return Ok(found);
            }
        }
    }
    Ok(None)
}
