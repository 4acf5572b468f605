// Calls, returns and results.
ghost use Rattle.std.specs.Prelude.{◌≡◌, IfOk, List, Some, slice_get};
ghost use Rattle.mc_flow.specs.Heap.Choices.{Choice as ChoiceModel};
ghost use Rattle.mc_semantics.specs.Steps.{arguments};
ghost use Rattle.std.specs.Option.{option_map};
ghost use Rattle.mc_semantics.specs.Resolved.Steps.{AfterArguments, Passes, Returns, returned_value};
ghost use Rattle.mc_semantics.specs.Resolved.Views.{call_of, right_of};
ghost use Rattle.mc_run_values.specs.Tasks.Going.{tasks_of};
ghost use Rattle.mc_run_values.specs.Tasks.Left.{target_of};
ghost use Rattle.mc_run.specs.Asking.{MaybeRightAsks, RightAsks};
ghost use Rattle.mc_run.specs.Models.{config_of, here_of, program_of};
ghost use Rattle.mc_run.specs.Steps.{Comes, IsStep};
ghost use Rattle.mc_semantics.specs.declared.resolved.program.RightSide.TheVariants as RightSide;

use crate::assigning::pointer_at;
use crate::machine::{Machine, Program};
use crate::outcome::{End, Stepped};
use mc_base::text::Place;
use mc_base::{FaultKind, NoMemory, StructId};
use mc_run_values::script::Script;
use mc_run_values::tasks::Target;
use mc_run_values::values::{Allocated, Arguments, Evaluated, all_there, allocate};
use mc_semantics::resolved::{Call, Expression, RightSide};

/// The arguments of a call are evaluated and passed, and its function begins.
pub fn pass<'a>(
    machine: &mut Machine<'a>,
    program: Program<'a>,
    script: &mut Script,
    call: &'a Call,
    target: Target<'a>,
    place: Place,
) -> Result<Stepped, NoMemory>
    ensures { IfOk result (λ stepped. IsStep program.entry.structs.now
        (λ choices r. Passes (program_of program.entry) (here_of machine.old) (call_of call.now)
        (target_of target.entry) place (tasks_of machine.old.work) choices r)
        (λ choices request rest. RightAsks (here_of machine.old).values (here_of machine.old).heap
        (right_of (RightSide.Call call.now)) choices request rest)
        script.old stepped (config_of machine.new) script.new) }
{
    match machine.evaluate_all(program, script, call.arguments.as_slice())? {
        Arguments::Values(values) => {
            let stepped = begin(machine, program, call, target, place, values.as_slice())?;
            Ok(stepped)
        }
        Arguments::Fault(kind) => Ok(Stepped::Ends(End::Fault(kind, place))),
        Arguments::Unanswered(why) => Ok(Stepped::Unanswered(why)),
    }
}

// A function begins with its arguments, if they are defined.
fn begin<'a>(
    machine: &mut Machine<'a>,
    program: Program<'a>,
    call: &'a Call,
    target: Target<'a>,
    place: Place,
    values: &[Option<i64>],
) -> Result<Stepped, NoMemory>
    ensures { IfOk result (λ stepped. (choices : List ChoiceModel) → Comes stepped (config_of machine.new) choices
        (λ r. AfterArguments (here_of machine.old) (slice_get (program_of program.entry).functions call.now.function)
        (target_of target.entry) place
        (tasks_of machine.old.work) (arguments values.now choices) r)) }
{
    let Some(function) = program.resolved.functions.get(call.function) else {
        return Ok(Stepped::Stuck);
    };
    match all_there(machine.alloc, values)? {
        Some(arguments) => {
            machine
                .work
                .begin_call(function, arguments.as_slice(), target)?;
            Ok(Stepped::Goes)
        }
        None => Ok(Stepped::Ends(End::Fault(FaultKind::Uninit, place))),
    }
}

/// The function goes back with a value, if it is defined.
pub fn go_back(machine: &mut Machine, value: Option<i64>, place: Place) -> Result<Stepped, NoMemory>
    ensures { IfOk result (λ stepped. (choices : List ChoiceModel) → Comes stepped (config_of machine.new) choices
        (λ r. r ≡ returned_value (here_of machine.old).heap (tasks_of machine.old.work) place choices value)) }
{
    if value.is_none() {
        return Ok(Stepped::Ends(End::Fault(FaultKind::Uninit, place)));
    }
    machine.work.go_back(value)?;
    Ok(Stepped::Goes)
}

// The function goes back with what an expression comes to.
fn return_expression<'a>(
    machine: &mut Machine<'a>,
    program: Program<'a>,
    script: &mut Script,
    right: &'a Expression,
    place: Place,
) -> Result<Stepped, NoMemory>
    ensures { IfOk result (λ stepped. IsStep program.entry.structs.now
        (λ choices r. Returns (program_of program.entry) (here_of machine.old)
        (Some (right_of (RightSide.Expression right.now))) (tasks_of machine.old.work) place choices r)
        (λ choices request rest. RightAsks (here_of machine.old).values (here_of machine.old).heap
        (right_of (RightSide.Expression right.now)) choices request rest)
        script.old stepped (config_of machine.new) script.new) }
{
    match machine.evaluate(program, script, right)? {
        Evaluated::Value(value) => {
            let stepped = go_back(machine, value, place)?;
            Ok(stepped)
        }
        Evaluated::Fault(kind) => Ok(Stepped::Ends(End::Fault(kind, place))),
        Evaluated::Unanswered(why) => Ok(Stepped::Unanswered(why)),
    }
}

// The function goes back with the address of a new block.
fn return_block<'a>(
    machine: &mut Machine<'a>,
    program: Program<'a>,
    script: &mut Script,
    shape: StructId,
    fields: usize,
    place: Place,
) -> Result<Stepped, NoMemory>
    ensures { IfOk result (λ stepped. IsStep program.entry.structs.now
        (λ choices r. Returns (program_of program.entry) (here_of machine.old)
        (Some (right_of (RightSide.Malloc shape fields))) (tasks_of machine.old.work) place choices r)
        (λ choices request rest. RightAsks (here_of machine.old).values (here_of machine.old).heap
        (right_of (RightSide.Malloc shape fields)) choices request rest)
        script.old stepped (config_of machine.new) script.new) }
{
    match allocate(
        machine.alloc,
        &mut machine.heap,
        program.structs,
        script,
        shape,
        fields,
    )? {
        Allocated::Address(address) => {
            machine.work.go_back(pointer_at(address))?;
            Ok(Stepped::Goes)
        }
        Allocated::Unanswered(why) => Ok(Stepped::Unanswered(why)),
    }
}

// The function goes back with a right side.
fn return_right<'a>(
    machine: &mut Machine<'a>,
    program: Program<'a>,
    script: &mut Script,
    right: &'a RightSide,
    place: Place,
) -> Result<Stepped, NoMemory>
    ensures { IfOk result (λ stepped. IsStep program.entry.structs.now
        (λ choices r. Returns (program_of program.entry) (here_of machine.old) (Some (right_of right.now))
        (tasks_of machine.old.work) place choices r)
        (λ choices request rest. RightAsks (here_of machine.old).values (here_of machine.old).heap
        (right_of right.now) choices request rest)
        script.old stepped (config_of machine.new) script.new) }
{
    match right {
        RightSide::Expression(expression) => {
            let stepped = return_expression(machine, program, script, expression, place)?;
            Ok(stepped)
        }
        RightSide::Call(call) => {
            let stepped = pass(
                machine,
                program,
                script,
                call,
                Target::Returned(place),
                place,
            )?;
            Ok(stepped)
        }
        RightSide::Malloc(shape, fields) => {
            let stepped = return_block(machine, program, script, *shape, *fields, place)?;
            Ok(stepped)
        }
    }
}

/// A `return`.
pub fn go_back_with<'a>(
    machine: &mut Machine<'a>,
    program: Program<'a>,
    script: &mut Script,
    right: &'a Option<RightSide>,
    place: Place,
) -> Result<Stepped, NoMemory>
    ensures { IfOk result (λ stepped. IsStep program.entry.structs.now
        (λ choices r. Returns (program_of program.entry) (here_of machine.old) (option_map right_of right.now)
        (tasks_of machine.old.work) place choices r)
        (λ choices request rest. MaybeRightAsks (here_of machine.old).values (here_of machine.old).heap
        (option_map right_of right.now) choices request rest)
        script.old stepped (config_of machine.new) script.new) }
{
    match right {
        None => {
            machine.work.go_back(None)?;
            Ok(Stepped::Goes)
        }
        Some(right) => {
            let stepped = return_right(machine, program, script, right, place)?;
            Ok(stepped)
        }
    }
}
