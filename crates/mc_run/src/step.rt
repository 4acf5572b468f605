// The next step is made.
ghost use Rattle.std.specs.Prelude.{◌≡◌, IfOk, List};
ghost use Rattle.mc_flow.specs.Heap.Choices.{Choice as ChoiceModel};
ghost use Rattle.mc_semantics.specs.Resolved.Configs.{Tasks};
ghost use Rattle.mc_semantics.specs.Resolved.Steps.{Does, Performs, taken};
ghost use Rattle.mc_semantics.specs.Resolved.Views.{simple_of};
ghost use Rattle.mc_run_values.specs.Tasks.Going.{Has, tasks_of};
ghost use Rattle.mc_run_values.specs.Tasks.Left.{target_of};
ghost use Rattle.mc_run.specs.Asking.{ActionAsks, TaskAsks};
ghost use Rattle.mc_run.specs.Models.{config_of, here_of, program_of};
ghost use Rattle.mc_run.specs.Steps.{Comes, IsStep};

use crate::assigning::{Goal, assign_right, assign_taken, combine, declare};
use crate::calling::{go_back, go_back_with, pass};
use crate::commands::{assert, assert_nothing, assume};
use crate::conditions::test;
use crate::machine::{Machine, Program};
use crate::outcome::{End, Stepped};
use crate::shapes::free_at;
use mc_base::NoMemory;
use mc_run_values::script::Script;
use mc_run_values::tasks::{Next, Target};
use mc_run_values::values::Operation;
use mc_semantics::resolved::{Action, Simple};

// A simple statement.
fn perform<'a>(
    machine: &mut Machine<'a>,
    program: Program<'a>,
    script: &mut Script,
    simple: &'a Simple,
) -> Result<Stepped, NoMemory>
    ensures { IfOk result (λ stepped. IsStep program.entry.structs.now
        (λ choices r. Performs (program_of program.entry) (here_of machine.old)
        (simple_of simple.now).action simple.now.place (tasks_of machine.old.work) choices r)
        (λ choices request rest. ActionAsks (here_of machine.old).values (here_of machine.old).heap
        (simple_of simple.now).action choices request rest)
        script.old stepped (config_of machine.new) script.new) }
{
    let place = simple.place;
    match &simple.action {
        Action::Assign(left, right) => {
            let stepped = assign_right(machine, program, script, Goal::Left(left), right, place)?;
            Ok(stepped)
        }
        Action::Add(left, right) => {
            let stepped = combine(
                machine,
                program,
                script,
                Operation::Plus,
                left,
                right,
                place,
            )?;
            Ok(stepped)
        }
        Action::Subtract(left, right) => {
            let stepped = combine(
                machine,
                program,
                script,
                Operation::Difference,
                left,
                right,
                place,
            )?;
            Ok(stepped)
        }
        Action::Call(call) => {
            let stepped = pass(machine, program, script, call, Target::Nowhere, place)?;
            Ok(stepped)
        }
    }
}

// The result of a call is taken.
fn take<'a>(
    machine: &mut Machine<'a>,
    target: Target<'a>,
    value: Option<i64>,
) -> Result<Stepped, NoMemory>
    ensures { IfOk result (λ stepped. (choices : List ChoiceModel) → Comes stepped (config_of machine.new) choices
        (λ r. r ≡ taken (here_of machine.old) (target_of target.entry) value (tasks_of machine.old.work) choices)) }
{
    match target {
        Target::Nowhere => Ok(Stepped::Goes),
        Target::Variable(variable, place) => Ok(assign_taken(
            machine,
            Goal::Variable(variable),
            value,
            place,
        )),
        Target::Stored(left, place) => { Ok(assign_taken(machine, Goal::Left(left), value, place)) }
        Target::Returned(place) => {
            let stepped = go_back(machine, value, place)?;
            Ok(stepped)
        }
    }
}

/// The next step is made, which is no longer among what is left.
pub fn make<'a>(
    machine: &mut Machine<'a>,
    program: Program<'a>,
    script: &mut Script,
    next: Next<'a>,
) -> Result<Stepped, NoMemory>
    ensures { IfOk result (λ stepped. (tasks : Tasks) → Has next.entry machine.old.work tasks → IsStep program.entry.structs.now
        (λ choices r. Does (program_of program.entry) (here_of machine.old) tasks choices r)
        (λ choices request rest. TaskAsks program.entry.defs.now (here_of machine.old).values
        (here_of machine.old).heap tasks choices request rest)
        script.old stepped (config_of machine.new) script.new) }
{
    match next {
        Next::Done => Ok(Stepped::Ends(End::Ended)),
        Next::Declare(place, item) => {
            let stepped = declare(machine, program, script, item, place)?;
            Ok(stepped)
        }
        Next::Simple(simple) => {
            let stepped = perform(machine, program, script, simple)?;
            Ok(stepped)
        }
        Next::Free(place, pointer) => {
            let stepped = free_at(machine, program, script, pointer, place)?;
            Ok(stepped)
        }
        Next::AssumeShape(shape) => {
            let stepped = assume(machine, program, script, shape)?;
            Ok(stepped)
        }
        Next::AssertShape(shape) => {
            let stepped = assert(machine, program, shape)?;
            Ok(stepped)
        }
        Next::AssertEmpty(place) => Ok(assert_nothing(machine, place)),
        Next::Return(place, right) => {
            let stepped = go_back_with(machine, program, script, right, place)?;
            Ok(stepped)
        }
        Next::Test(atom) => {
            let stepped = test(machine, program, script, atom)?;
            Ok(stepped)
        }
        Next::Always => Ok(Stepped::Goes),
        Next::TakeResult(target, value) => {
            let stepped = take(machine, target, value)?;
            Ok(stepped)
        }
        Next::Stuck => Ok(Stepped::Stuck),
    }
}
