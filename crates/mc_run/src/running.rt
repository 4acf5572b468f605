// A program is run.
ghost use Rattle.std.specs.Prelude.{◌≡◌, ◌↔◌, ◌<◌, ◌^◌, IfOk, IsTrue, slice_get};
ghost use Rattle.mc_run_values.specs.declared.tasks.next.Next.TheVariants.{Done};
ghost use Rattle.mc_run.specs.Models.{outcome_of, program_of, refused_as};
ghost use Rattle.mc_semantics.specs.Resolved.Steps.{start};
ghost use Rattle.mc_semantics.specs.Resolved.Views.{function_of};
ghost use Rattle.mc_run.specs.Runs.{Runs, RunsFrom};

use crate::machine::{Machine, Program};
use crate::outcome::{End, Outcome, Stepped};
use crate::step::make;
use mc_base::NoMemory;
use mc_flow::heap::Heap;
use mc_run_values::script::Script;
use mc_run_values::tasks::{Next, Work};
use mc_run_values::values::{Evaluator, Refusal};
use mc_semantics::resolved::Function;
use std::alloc::Global;

// How a run ends.
fn outcome_of(end: End) -> Outcome
    ensures { result ≡ outcome_of end }
{
    match end {
        End::Ended => Outcome::Ended,
        End::Stopped => Outcome::Stopped,
        End::Fault(kind, place) => Outcome::Fault(kind, place),
    }
}

// Why a run waits, when so many lines are gone.
fn waiting(why: Refusal, gone: usize) -> Outcome
    requires { gone < 2 ^ 63 }
    ensures { result ≡ refused_as why gone }
{
    match why {
        Refusal::Missing => Outcome::Short(gone as u64 + 1),
        Refusal::Unreadable => Outcome::Bad(gone as u64),
        Refusal::NotAllowed => Outcome::Bad(gone as u64),
    }
}

// Whether nothing is left.
fn is_done(next: Next) -> bool
    ensures { IsTrue result ↔ (next.entry ≡ Done) }
{
    match next {
        Next::Done => true,
        Next::Declare(_, _) => false,
        Next::Simple(_) => false,
        Next::Free(_, _) => false,
        Next::AssumeShape(_) => false,
        Next::AssertShape(_) => false,
        Next::AssertEmpty(_) => false,
        Next::Return(_, _) => false,
        Next::Test(_) => false,
        Next::Always => false,
        Next::TakeResult(_, _) => false,
        Next::Stuck => false,
    }
}

// What a function without arguments comes to.
fn run_from(
    alloc: Global,
    program: Program,
    script: &mut Script,
    fuel: u64,
    entry: &Function,
) -> Result<Outcome, NoMemory>
    ensures { IfOk result (λ outcome. Runs (program_of program.entry) program.entry.structs.now
        (start (function_of entry.now)) script.old fuel outcome) }
{
    let work = Work::start(alloc, entry)?;
    let heap = Heap::new(alloc);
    let evaluator = Evaluator::new(alloc);
    let mut machine = Machine {
        work,
        heap,
        evaluator,
        alloc,
    };
    let before = script.count();
    let mut left = fuel;
    loop {
        let next = machine.work.arrive()?;
        if is_done(next) {
            return Ok(Outcome::Ended);
        }
        if left == 0 {
            return Ok(Outcome::FuelSpent);
        }
        left -= 1;
        match make(&mut machine, program, script, next)? {
            Stepped::Goes => {}
            Stepped::Ends(end) => return Ok(outcome_of(end)),
            Stepped::Unanswered(why) => return Ok(waiting(why, before - script.count())),
            Stepped::Stuck => return Ok(Outcome::Stuck),
        }
    }
}

/// What the program comes to with the choices of a script, in at most so many steps. Where the program has no function of the
/// number of its entry, it is stuck. The only error is want of memory.
pub fn run(
    alloc: Global,
    program: Program,
    script: &mut Script,
    fuel: u64,
) -> Result<Outcome, NoMemory>
    ensures { IfOk result (λ outcome. RunsFrom (program_of program.entry) program.entry.structs.now script.old fuel outcome
        (slice_get (program_of program.entry).functions (program_of program.entry).entry)) }
{
    match program.resolved.functions.get(program.resolved.entry) {
        None => Ok(Outcome::Stuck),
        Some(entry) => run_from(alloc, program, script, fuel, entry),
    }
}
