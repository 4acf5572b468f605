// Attempts for alarms of a program with loops.
ghost use Rattle.std.specs.Prelude.{IfOk, IfSome};
ghost use Rattle.mc_flow.specs.Valid.{IsValid};
ghost use Rattle.mc_find.specs.Analysis.Findings.{IsFound, IsProposed};

use crate::accepted::reported;
use crate::analysis::Proposed;
use crate::finding::{all_steps, certified, chain_steps};
use crate::rank::Rank;
use crate::walks::{Aim, Attempt, Blocked, Limits, Rung, Step, Style, Task, first_rung};
use mc_base::NoMemory;
use mc_lines::cert::{Form, Line};
use std::alloc::Global;

/// How many steps the first walk may take, if these are not more: so many for each point.
const FIRST: u64 = 200;

/// How many steps the first walk may take for each point.
const FIRST_EACH: u64 = 8;

/// How many steps more it may take where it has met nothing, if these are not more: so many for each point.
const MORE: u64 = 300;

/// How many steps more it may take for each point.
const MORE_EACH: u64 = 12;

/// How many steps an attempt may take, if these are not more: so many for each point.
const STEPS: u64 = 20_000;

/// How many steps an attempt may take for each point.
const STEPS_EACH: u64 = 100;

/// How many attempts may take all their steps.
const WHOLE: u64 = 4;

/// The faults that are known of a program, and whether they are met soon: by a first walk, before anything is folded.
#[derive(Drop)]
pub struct Known {
    faults: Vec<Blocked>,
    are_near: bool,
}

impl Known {
    /// No fault.
    pub fn nothing(alloc: Global) -> Known {
        Known::near(Vec::new(alloc))
    }

    /// Faults that are met soon.
    pub fn near(faults: Vec<Blocked>) -> Known {
        Known {
            faults,
            are_near: true,
        }
    }

    /// Faults to which runs come.
    pub fn far(faults: Vec<Blocked>) -> Known {
        Known {
            faults,
            are_near: false,
        }
    }

    /// Whether there is a fault, which is met soon.
    fn has_near(&self) -> bool {
        self.are_near && !self.faults.is_empty()
    }

    /// How many steps an attempt that has begun may take while its cuts get other plans: where a fault is far away, as many as
    /// one at a certificate.
    fn begun_steps(&self, task: Task<'_>) -> u64 {
        if self.faults.is_empty() {
            chain_steps(task)
        } else if self.are_near {
            0
        } else {
            all_steps(task)
        }
    }
}

/// So many steps, or so many for each point.
fn at_least(task: Task<'_>, steps: u64, each: u64) -> u64 {
    (task.graph.size() as u64).saturating_mul(each).max(steps)
}

/// How an attempt folds that goes so far and has so many heads at a cut, which lose what arrivals lack.
const fn losing(step: Step, heads: usize) -> Style {
    Style {
        rung: Rung {
            step,
            loses: true,
            is_blind: false,
        },
        heads,
        nulls: false,
    }
}

/// How an attempt folds that fits states to heads at once, null to structures too.
const fn gathering() -> Style {
    Style {
        rung: first_rung(Step::Match),
        heads: 0,
        nulls: true,
    }
}

/// How the attempts fold, in their order.
const fn styles() -> [Style; 7] {
    [
        losing(Step::Plain, 8),
        gathering(),
        losing(Step::Coarse, 8),
        losing(Step::Plain, 4),
        losing(Step::Coarse, 4),
        losing(Step::Coarse, 2),
        losing(Step::Coarse, 1),
    ]
}

/// The faults that are met before anything is folded.
pub fn first_faults(alloc: Global, task: Task<'_>) -> Result<Vec<Blocked>, NoMemory>
    requires { IsValid task.sight.flow.now task.sight.defs.now }
{
    let limits = Limits {
        keys: usize::MAX,
        rounds: u64::MAX,
        merge: false,
    };
    let style = Style {
        rung: first_rung(Step::Plain),
        heads: 0,
        nulls: false,
    };
    let mut attempt = Attempt::new(
        alloc,
        task,
        Aim::Faults,
        style,
        limits,
        at_least(task, FIRST, FIRST_EACH),
    )?;
    attempt.run()?;
    let (soon, _) = attempt.blocked()?;
    if !soon.is_empty() {
        return Ok(soon);
    }
    attempt.give(at_least(task, MORE, MORE_EACH));
    attempt.run()?;
    let (places, _) = attempt.blocked()?;
    Ok(places)
}

/// An attempt that is whole, how well it tells, and whether it began as one at a certificate.
#[derive(Drop)]
struct Offer<'a> {
    attempt: Attempt<'a>,
    rank: Rank,
    has_begun: bool,
}

/// Whether a rank is better than those of what was found before, the best of it last.
fn is_better(rank: &Rank, offers: &[Offer<'_>]) -> bool {
    match offers.last() {
        Some(best) => rank.is_better(&best.rank),
        None => true,
    }
}

/// Keeps an attempt that is whole after those that were found before, if it tells better. Its lines, where it is a certificate
/// after all.
fn keep<'a>(
    alloc: Global,
    task: Task<'a>,
    merge: bool,
    faults: &[Blocked],
    attempt: Attempt<'a>,
    has_begun: bool,
    offers: &mut Vec<Offer<'a>>,
) -> Result<Option<Vec<Line>>, NoMemory>
    requires { IsValid task.sight.flow.now task.sight.defs.now }
    ensures { IfOk result (λ found. IfSome found (λ lines. IsFound task.entry.sight.flow.now task.entry.sight.defs.now merge lines.items)) }
{
    let rank = Rank::of(&attempt, faults)?;
    if !is_better(&rank, offers.as_slice()) {
        return Ok(None);
    }
    if rank.alarms == 0 {
        return certified(alloc, task, merge, attempt);
    }
    offers.push(Offer {
        attempt,
        rank,
        has_begun,
    })?;
    Ok(None)
}

/// One attempt, for which at most so many steps are left; what it takes is left no more. Its lines, where it is a certificate
/// after all.
fn try_style<'a>(
    alloc: Global,
    task: Task<'a>,
    style: Style,
    limits: Limits,
    faults: &[Blocked],
    offers: &mut Vec<Offer<'a>>,
    left: &mut u64,
) -> Result<Option<Vec<Line>>, NoMemory>
    requires { IsValid task.sight.flow.now task.sight.defs.now }
    ensures { IfOk result (λ found. IfSome found (λ lines. IsFound task.entry.sight.flow.now task.entry.sight.defs.now limits.merge lines.items)) }
{
    let steps = at_least(task, STEPS, STEPS_EACH).min(*left);
    let mut attempt = Attempt::new(alloc, task, Aim::Chain, style, limits, steps)?;
    let is_whole = attempt.run()?;
    *left = left.saturating_sub(steps.saturating_sub(attempt.left()));
    if is_whole {
        keep(alloc, task, limits.merge, faults, attempt, false, offers)
    } else {
        Ok(None)
    }
}

/// An attempt at a certificate that goes on as one at a chain: where no fault is met soon, with other plans of its cuts first. Its
/// lines, where it is a certificate after all.
fn try_begun<'a>(
    alloc: Global,
    task: Task<'a>,
    limits: Limits,
    known: &Known,
    begun: Attempt<'a>,
    offers: &mut Vec<Offer<'a>>,
) -> Result<Option<Vec<Line>>, NoMemory>
    requires { IsValid task.sight.flow.now task.sight.defs.now }
    ensures { IfOk result (λ found. IfSome found (λ lines. IsFound task.entry.sight.flow.now task.entry.sight.defs.now limits.merge lines.items)) }
{
    let faults = known.faults.as_slice();
    let mut attempt = begun;
    attempt.turn_to_chain(faults, known.begun_steps(task))?;
    let mut is_whole = attempt.run()?;
    if !is_whole {
        attempt.stop_blaming(at_least(task, STEPS, STEPS_EACH))?;
        is_whole = attempt.run()?;
    }
    if is_whole {
        keep(alloc, task, limits.merge, faults, attempt, true, offers)
    } else {
        Ok(None)
    }
}

/// Whether nothing better is looked for: no fault is known, or they are told as they are known.
fn is_settled(offers: &[Offer<'_>], faults: &[Blocked]) -> bool {
    match offers.last() {
        Some(best) => best.rank.is_best() || faults.is_empty(),
        None => false,
    }
}

/// Whether what was found tells just the faults that are known.
fn is_right(offers: &[Offer<'_>]) -> bool {
    match offers.last() {
        Some(best) => best.rank.is_right(),
        None => false,
    }
}

/// Whether an attempt of this style may tell better. The one that fits null to structures has fewer heads, and is made where
/// what is right is told too often; no other one where what had begun is right.
fn is_needed(style: &Style, offers: &[Offer<'_>], faults: &[Blocked]) -> bool {
    if is_settled(offers, faults) {
        return false;
    }
    if style.nulls {
        is_right(offers)
    } else {
        !offers
            .iter()
            .any(|offer| offer.has_begun && offer.rank.is_right())
    }
}

/// Goes on with the attempt that has begun, if it is still there and may tell better. Its lines, where it is a certificate
/// after all.
fn after_begun<'a>(
    alloc: Global,
    task: Task<'a>,
    limits: Limits,
    known: &Known,
    begun: &mut Option<Attempt<'a>>,
    offers: &mut Vec<Offer<'a>>,
) -> Result<Option<Vec<Line>>, NoMemory>
    requires { IsValid task.sight.flow.now task.sight.defs.now }
    ensures { IfOk result (λ found. IfSome found (λ lines. IsFound task.entry.sight.flow.now task.entry.sight.defs.now limits.merge lines.items)) }
{
    if is_settled(offers.as_slice(), known.faults.as_slice()) || is_right(offers.as_slice()) {
        return Ok(None);
    }
    match begun.take() {
        Some(attempt) => try_begun(alloc, task, limits, known, attempt, offers),
        None => Ok(None),
    }
}

/// The lines of an attempt as a chain, where they are one that is accepted.
fn chain(
    alloc: Global,
    task: Task<'_>,
    merge: bool,
    attempt: Attempt<'_>,
) -> Result<Option<Proposed>, NoMemory>
    requires { IsValid task.sight.flow.now task.sight.defs.now }
    ensures { IfOk result (λ found. IfSome found (λ proposed. IsProposed task.entry.sight.flow.now task.entry.sight.defs.now merge proposed)) }
{
    let lines = attempt.document(Form::Chain)?;
    match reported(
        alloc,
        task.sight.flow,
        task.sight.defs,
        merge,
        lines.as_slice(),
    )? {
        Some(report) => Ok(Some(Proposed::Chain(lines, report))),
        None => Ok(None),
    }
}

/// The chain of the best attempt that is accepted.
fn best_of(
    alloc: Global,
    task: Task<'_>,
    merge: bool,
    offers: Vec<Offer<'_>>,
) -> Result<Option<Proposed>, NoMemory>
    requires { IsValid task.sight.flow.now task.sight.defs.now }
    ensures { IfOk result (λ found. IfSome found (λ proposed. IsProposed task.entry.sight.flow.now task.entry.sight.defs.now merge proposed)) }
{
    let mut rest = offers;
    for _ in 0..rest.len() {
        let Some(best) = rest.pop() else {
            return Ok(None);
        };
        let told = chain(alloc, task, merge, best.attempt)?;
        if told.is_some() {
            return Ok(told);
        }
    }
    Ok(None)
}

/// The attempts one after the other, where these faults are known, among them one at a certificate that has begun: it comes first
/// where no fault is met soon, else after the first one. The chain that tells best what is known, or a certificate after all. None
/// says only that nothing was found.
pub fn try_all<'a>(
    alloc: Global,
    task: Task<'a>,
    limits: Limits,
    known: &Known,
    begun: Attempt<'a>,
) -> Result<Option<Proposed>, NoMemory>
    requires { IsValid task.sight.flow.now task.sight.defs.now }
    ensures { IfOk result (λ found. IfSome found (λ proposed. IsProposed task.entry.sight.flow.now task.entry.sight.defs.now limits.merge proposed)) }
{
    let mut left = at_least(task, STEPS, STEPS_EACH).saturating_mul(WHOLE);
    let mut rest = Some(begun);
    let mut offers = Vec::new(alloc);
    let faults = known.faults.as_slice();
    if !known.has_near() {
        let found = after_begun(alloc, task, limits, known, &mut rest, &mut offers)?;
        if let Some(lines) = found {
            return Ok(Some(Proposed::Certificate(lines)));
        }
    }
    for style in &styles() {
        if left > 0 && is_needed(style, offers.as_slice(), faults) {
            let found = try_style(alloc, task, *style, limits, faults, &mut offers, &mut left)?;
            if let Some(lines) = found {
                return Ok(Some(Proposed::Certificate(lines)));
            }
        }
        let found = after_begun(alloc, task, limits, known, &mut rest, &mut offers)?;
        if let Some(lines) = found {
            return Ok(Some(Proposed::Certificate(lines)));
        }
    }
    best_of(alloc, task, limits.merge, offers)
}
