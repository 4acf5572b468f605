// Commands on shapes.
ghost use Rattle.std.specs.FinMap as map;
ghost use Rattle.std.specs.Prelude.{◌≡◌, ◌↔◌, IfOk, IsTrue, List, Some, map as map_list};
ghost use Rattle.mc_flow.specs.Values.{all_there};
ghost use Rattle.mc_flow.specs.Heap.Adding.{AreFree, part_of};
ghost use Rattle.mc_flow.specs.Defs.Meaning.{Sat};
ghost use Rattle.mc_run_values.specs.Script.Models.{block};
ghost use Rattle.mc_run.specs.Adding.{IsAdded};
ghost use Rattle.mc_flow.specs.Heap.Choices.{Choice as ChoiceModel};
ghost use Rattle.mc_semantics.specs.Resolved.Steps.{Executes, argument_value};
ghost use Rattle.mc_semantics.specs.Resolved.Programs.{Program as ProgramModel, assert_empty, assert_shape, assume_shape};
ghost use Rattle.mc_semantics.specs.Resolved.Views.{argument_of};
ghost use Rattle.mc_run_values.specs.Tasks.Going.{tasks_of};
ghost use Rattle.mc_run.specs.Asking.{StatementAsks};
ghost use Rattle.mc_run.specs.Models.{config_of, here_of, program_of};
ghost use Rattle.mc_run.specs.Steps.{Comes, IsStep};

use crate::machine::{Machine, Program};
use crate::outcome::{End, Stepped};
use crate::shapes::{add_blocks, value_of, values_of};
use mc_base::text::Place;
use mc_base::{FaultKind, NoMemory, PredId};
use mc_flow::defs::Defs;
use mc_flow::heap::Heap;
use mc_run_values::script::{Asked, Choice, Script, Shape};
use mc_run_values::values::Refusal;
use mc_semantics::resolved::{AssertShape, AssumeShape};
use mc_shape_search::sat::{holds, meets};
use std::alloc::Global;

/// An assumed shape: its arguments are taken, then the script gives its value with new blocks.
pub fn assume<'a>(
    machine: &mut Machine<'a>,
    program: Program<'a>,
    script: &mut Script,
    shape: &AssumeShape,
) -> Result<Stepped, NoMemory>
    ensures { IfOk result (λ stepped. IsStep program.entry.structs.now
        (λ choices r. Executes (program_of program.entry) (here_of machine.old)
        (assume_shape shape.now.place shape.now.predicate shape.now.variable
        (map_list argument_of shape.now.arguments.items)) (tasks_of machine.old.work) choices r)
        (λ choices request rest. StatementAsks program.entry.defs.now (here_of machine.old).values (here_of machine.old).heap
        (assume_shape shape.now.place shape.now.predicate shape.now.variable
        (map_list argument_of shape.now.arguments.items)) choices request rest)
        script.old stepped (config_of machine.new) script.new) }
{
    match values_of(machine, shape.arguments.as_slice())? {
        Some(arguments) => {
            let stepped = ask_shape(machine, program, script, shape, arguments.as_slice())?;
            Ok(stepped)
        }
        None => Ok(Stepped::Ends(End::Fault(FaultKind::Uninit, shape.place))),
    }
}

// The script gives the value of a shape with new blocks. Its arguments are these.
fn ask_shape<'a>(
    machine: &mut Machine<'a>,
    program: Program<'a>,
    script: &mut Script,
    shape: &AssumeShape,
    arguments: &[i64],
) -> Result<Stepped, NoMemory>
    requires { all_there (map_list (argument_value (here_of machine.now).values)
        (map_list argument_of shape.now.arguments.items)) ≡ Some arguments.now }
    ensures { IfOk result (λ stepped. IsStep program.entry.structs.now
        (λ choices r. Executes (program_of program.entry) (here_of machine.old)
        (assume_shape shape.now.place shape.now.predicate shape.now.variable
        (map_list argument_of shape.now.arguments.items)) (tasks_of machine.old.work) choices r)
        (λ choices request rest. StatementAsks program.entry.defs.now (here_of machine.old).values (here_of machine.old).heap
        (assume_shape shape.now.place shape.now.predicate shape.now.variable
        (map_list argument_of shape.now.arguments.items)) choices request rest)
        script.old stepped (config_of machine.new) script.new) }
{
    match script.ask(machine.alloc, program.structs)? {
        Asked::Missing => Ok(Stepped::Unanswered(Refusal::Missing)),
        Asked::Unreadable => Ok(Stepped::Unanswered(Refusal::Unreadable)),
        Asked::Choice(Choice::Input(_)) => Ok(Stepped::Unanswered(Refusal::NotAllowed)),
        Asked::Choice(Choice::Malloc(_)) => Ok(Stepped::Unanswered(Refusal::NotAllowed)),
        Asked::Choice(Choice::Shape(given)) => {
            let stepped = add_shape(machine, program, shape, arguments, &given)?;
            Ok(stepped)
        }
    }
}

// Whether blocks may stand together, and the predicate holds on them alone.
fn meets_alone(
    alloc: Global,
    defs: &Defs,
    predicate: PredId,
    given: &Shape,
    arguments: &[i64],
) -> Result<bool, NoMemory>
    ensures { IfOk result (λ met. IsTrue met ↔ (AreFree map.empty (map_list block given.now.blocks)
        × Sat defs.now predicate given.now.value arguments.now (part_of (map_list block given.now.blocks)))) }
{
    let mut part = Heap::new(alloc);
    if !add_blocks(&mut part, given.blocks.as_slice())? {
        return Ok(false);
    }
    let met = meets(alloc, &part, defs, predicate, given.value, arguments)?;
    Ok(met)
}

// The shape comes into the heap, if it is allowed there.
fn add_shape<'a>(
    machine: &mut Machine<'a>,
    program: Program<'a>,
    shape: &AssumeShape,
    arguments: &[i64],
    given: &Shape,
) -> Result<Stepped, NoMemory>
    ensures { IfOk result (λ stepped. IsAdded program.entry.defs.now shape.now.predicate arguments.now shape.now.variable
        (config_of machine.old) given.now.value (map_list block given.now.blocks) stepped (config_of machine.new)) }
{
    let alloc = machine.alloc;
    if !meets_alone(alloc, program.defs, shape.predicate, given, arguments)? {
        return Ok(Stepped::Unanswered(Refusal::NotAllowed));
    }
    if !add_blocks(&mut machine.heap, given.blocks.as_slice())? {
        return Ok(Stepped::Unanswered(Refusal::NotAllowed));
    }
    machine.work.put_value(shape.variable, Some(given.value));
    Ok(Stepped::Goes)
}

/// An asserted shape: the predicate is to hold on some part of the heap.
pub fn assert<'a>(
    machine: &mut Machine<'a>,
    program: Program<'a>,
    shape: &AssertShape,
) -> Result<Stepped, NoMemory>
    ensures { IfOk result (λ stepped. (choices : List ChoiceModel) → Comes stepped (config_of machine.new) choices
        (λ r. Executes (program_of program.entry) (here_of machine.old)
        (assert_shape shape.now.place shape.now.predicate (argument_of shape.now.start)
        (map_list argument_of shape.now.arguments.items)) (tasks_of machine.old.work) choices r)) }
{
    let Some(start) = value_of(machine, &shape.start) else {
        return Ok(Stepped::Ends(End::Fault(FaultKind::Uninit, shape.place)));
    };
    let Some(arguments) = values_of(machine, shape.arguments.as_slice())? else {
        return Ok(Stepped::Ends(End::Fault(FaultKind::Uninit, shape.place)));
    };
    let found = holds(
        machine.alloc,
        &machine.heap,
        program.defs,
        shape.predicate,
        start,
        arguments.as_slice(),
    )?;
    match found {
        Some(_) => Ok(Stepped::Goes),
        None => Ok(Stepped::Ends(End::Fault(FaultKind::Shape, shape.place))),
    }
}

/// Nothing is to be allocated.
pub fn assert_nothing(machine: &Machine, place: Place) -> Stepped
    ensures { (program : ProgramModel) (choices : List ChoiceModel) → Comes result (config_of machine.now) choices
        (λ r. Executes program (here_of machine.now) (assert_empty place) (tasks_of machine.now.work) choices r) }
{
    if machine.heap.len() == 0 {
        Stepped::Goes
    } else {
        Stepped::Ends(End::Fault(FaultKind::NotEmpty, place))
    }
}
