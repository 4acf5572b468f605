// Assignments and declarators.
ghost use Rattle.std.specs.Prelude.{◌≡◌, IfOk, List, Some, pos, ◌<◌, ◌^◌};
ghost use Rattle.mc_flow.specs.Heap.Choices.{Choice as ChoiceModel};
ghost use Rattle.mc_semantics.specs.Resolved.Configs.{stored};
ghost use Rattle.mc_semantics.specs.Resolved.Steps.{Assigns, Combines, Declares, after};
ghost use Rattle.mc_semantics.specs.Resolved.Values.{assigned, set_variable};
ghost use Rattle.mc_semantics.specs.Resolved.Views.{expression_of, initial_of, left_of, right_of};
ghost use Rattle.mc_semantics.specs.declared.resolved.program.RightSide.TheVariants as RightSide;
ghost use Rattle.mc_run_values.specs.Tasks.Going.{tasks_of};
ghost use Rattle.mc_run_values.specs.Tasks.Left.{target_of};
ghost use Rattle.mc_run_values.specs.Values.Models.{change_of, operation_of};
ghost use Rattle.mc_run.specs.Asking.{AsksInput, MaybeRightAsks, RightAsks};
ghost use Rattle.mc_run.specs.Models.{config_of, goal_of, here_of, program_of, settled_of};
ghost use Rattle.mc_run.specs.Steps.{Comes, IsStep};

use crate::calling::pass;
use crate::machine::{Machine, Program};
use crate::outcome::{End, Stepped};
use mc_base::text::Place;
use mc_base::{FaultKind, NoMemory, StructId};
use mc_run_values::script::Script;
use mc_run_values::tasks::Target;
use mc_run_values::values::{Allocated, Evaluated, Operation, allocate, assign_behind, computed};
use mc_semantics::resolved::{Expression, Initial, LeftValue, RightSide};

/// The run goes on after a change, or faults at the place.
pub fn settled(change: Result<(), FaultKind>, place: Place) -> Stepped
    ensures { result ≡ settled_of change place }
{
    match change {
        Ok(()) => Stepped::Goes,
        Err(kind) => Stepped::Ends(End::Fault(kind, place)),
    }
}

/// What gets a value: a variable with its declarator, or the left side of an assignment.
#[derive(Clone, Copy)]
pub enum Goal<'a> {
    Variable(usize),
    Left(&'a LeftValue),
}

// Where the result of a call goes.
fn target<'a>(goal: Goal<'a>, place: Place) -> Target<'a>
    ensures { target_of result ≡ stored (goal_of goal.entry) place }
{
    match goal {
        Goal::Variable(variable) => Target::Variable(variable, place),
        Goal::Left(left) => Target::Stored(left, place),
    }
}

// A variable gets a value.
fn set(machine: &mut Machine, variable: usize, value: Option<i64>) -> Result<(), FaultKind>
    ensures change { change_of result (here_of machine.new).values (here_of machine.new).heap
        ≡ set_variable (here_of machine.old).values (here_of machine.old).heap variable value }
    ensures tasks { tasks_of machine.new.work ≡ tasks_of machine.old.work }
{
    if value.is_none() {
        return Err(FaultKind::Uninit);
    }
    machine.work.put_value(variable, value);
    Ok(())
}

// What gets a value gets this one.
fn assign(machine: &mut Machine, goal: Goal, value: Option<i64>) -> Result<(), FaultKind>
    ensures change { change_of result (here_of machine.new).values (here_of machine.new).heap
        ≡ assigned (here_of machine.old).values (here_of machine.old).heap (goal_of goal.entry) value }
    ensures tasks { tasks_of machine.new.work ≡ tasks_of machine.old.work }
{
    match goal {
        Goal::Variable(variable) => set(machine, variable, value),
        Goal::Left(left) => match left.fields.as_slice() {
            [] => set(machine, left.variable, value),
            [first, more @ ..] => {
                let base = machine.work.held(left.variable);
                assign_behind(&mut machine.heap, base, first, more, value)
            }
        },
    }
}

// What gets a value gets what an expression comes to.
fn assign_expression<'a>(
    machine: &mut Machine<'a>,
    program: Program<'a>,
    script: &mut Script,
    goal: Goal,
    right: &'a Expression,
    place: Place,
) -> Result<Stepped, NoMemory>
    ensures { IfOk result (λ stepped. IsStep program.entry.structs.now
        (λ choices r. Assigns (program_of program.entry) (here_of machine.old) (goal_of goal.entry)
        (right_of (RightSide.Expression right.now)) place (tasks_of machine.old.work) choices r)
        (λ choices request rest. RightAsks (here_of machine.old).values (here_of machine.old).heap
        (right_of (RightSide.Expression right.now)) choices request rest)
        script.old stepped (config_of machine.new) script.new) }
{
    match machine.evaluate(program, script, right)? {
        Evaluated::Value(value) => Ok(settled(assign(machine, goal, value), place)),
        Evaluated::Fault(kind) => Ok(Stepped::Ends(End::Fault(kind, place))),
        Evaluated::Unanswered(why) => Ok(Stepped::Unanswered(why)),
    }
}

// What gets a value gets the address of a new block.
fn assign_block<'a>(
    machine: &mut Machine<'a>,
    program: Program<'a>,
    script: &mut Script,
    goal: Goal,
    shape: StructId,
    fields: usize,
    place: Place,
) -> Result<Stepped, NoMemory>
    ensures { IfOk result (λ stepped. IsStep program.entry.structs.now
        (λ choices r. Assigns (program_of program.entry) (here_of machine.old) (goal_of goal.entry)
        (right_of (RightSide.Malloc shape fields)) place (tasks_of machine.old.work) choices r)
        (λ choices request rest. RightAsks (here_of machine.old).values (here_of machine.old).heap
        (right_of (RightSide.Malloc shape fields)) choices request rest)
        script.old stepped (config_of machine.new) script.new) }
{
    match allocate(
        machine.alloc,
        &mut machine.heap,
        program.structs,
        script,
        shape,
        fields,
    )? {
        Allocated::Address(address) => {
            Ok(settled(assign(machine, goal, pointer_at(address)), place))
        }
        Allocated::Unanswered(why) => Ok(Stepped::Unanswered(why)),
    }
}

/// The pointer to an address.
pub fn pointer_at(address: u64) -> Option<i64>
    requires { address < 2 ^ 62 }
    ensures { result ≡ Some (pos address) }
{
    Some(address as i64)
}

/// What gets a value gets what a right side comes to.
pub fn assign_right<'a>(
    machine: &mut Machine<'a>,
    program: Program<'a>,
    script: &mut Script,
    goal: Goal<'a>,
    right: &'a RightSide,
    place: Place,
) -> Result<Stepped, NoMemory>
    ensures { IfOk result (λ stepped. IsStep program.entry.structs.now
        (λ choices r. Assigns (program_of program.entry) (here_of machine.old) (goal_of goal.entry)
        (right_of right.now) place (tasks_of machine.old.work) choices r)
        (λ choices request rest. RightAsks (here_of machine.old).values (here_of machine.old).heap
        (right_of right.now) choices request rest)
        script.old stepped (config_of machine.new) script.new) }
{
    match right {
        RightSide::Expression(expression) => {
            let stepped = assign_expression(machine, program, script, goal, expression, place)?;
            Ok(stepped)
        }
        RightSide::Call(call) => {
            let stepped = pass(machine, program, script, call, target(goal, place), place)?;
            Ok(stepped)
        }
        RightSide::Malloc(shape, fields) => {
            let stepped = assign_block(machine, program, script, goal, *shape, *fields, place)?;
            Ok(stepped)
        }
    }
}

/// The left side gets what an operation makes of its value and that of an expression.
pub fn combine<'a>(
    machine: &mut Machine<'a>,
    program: Program<'a>,
    script: &mut Script,
    operation: Operation,
    left: &'a LeftValue,
    right: &'a Expression,
    place: Place,
) -> Result<Stepped, NoMemory>
    ensures { IfOk result (λ stepped. IsStep program.entry.structs.now
        (λ choices r. Combines (operation_of operation) (here_of machine.old) (left_of left.now)
        (expression_of right.now) place (tasks_of machine.old.work) choices r)
        (λ choices request rest. AsksInput (here_of machine.old) (expression_of right.now) choices request rest)
        script.old stepped (config_of machine.new) script.new) }
{
    match machine.evaluate(program, script, right)? {
        Evaluated::Value(value) => {
            match computed(operation, machine.work.values(), &machine.heap, left, value) {
                Ok(value) => Ok(settled(assign(machine, Goal::Left(left), value), place)),
                Err(kind) => Ok(Stepped::Ends(End::Fault(kind, place))),
            }
        }
        Evaluated::Fault(kind) => Ok(Stepped::Ends(End::Fault(kind, place))),
        Evaluated::Unanswered(why) => Ok(Stepped::Unanswered(why)),
    }
}

/// What gets a value gets the result of a call.
pub fn assign_taken(machine: &mut Machine, goal: Goal, value: Option<i64>, place: Place) -> Stepped
    ensures { (choices : List ChoiceModel) → Comes result (config_of machine.new) choices
        (λ r. r ≡ after (tasks_of machine.old.work) place choices
        (assigned (here_of machine.old).values (here_of machine.old).heap (goal_of goal.entry) value)) }
{
    settled(assign(machine, goal, value), place)
}

/// A declarator: its variable gets its value, or is undefined.
pub fn declare<'a>(
    machine: &mut Machine<'a>,
    program: Program<'a>,
    script: &mut Script,
    item: &'a Initial,
    place: Place,
) -> Result<Stepped, NoMemory>
    ensures { IfOk result (λ stepped. IsStep program.entry.structs.now
        (λ choices r. Declares (program_of program.entry) (here_of machine.old) (initial_of item.now) place
        (tasks_of machine.old.work) choices (initial_of item.now).value r)
        (λ choices request rest. MaybeRightAsks (here_of machine.old).values (here_of machine.old).heap
        (initial_of item.now).value choices request rest)
        script.old stepped (config_of machine.new) script.new) }
{
    match &item.value {
        None => {
            machine.work.put_value(item.variable, None);
            Ok(Stepped::Goes)
        }
        Some(right) => {
            let stepped = assign_right(
                machine,
                program,
                script,
                Goal::Variable(item.variable),
                right,
                place,
            )?;
            Ok(stepped)
        }
    }
}
