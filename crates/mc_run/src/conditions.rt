// Atomic conditions are tested.
ghost use Rattle.std.specs.Prelude.{◌≡◌, IfOk, List};
ghost use Rattle.mc_flow.specs.Heap.Choices.{Choice as ChoiceModel};
ghost use Rattle.mc_semantics.specs.Resolved.Programs.{compare, plain};
ghost use Rattle.mc_semantics.specs.Resolved.Steps.{Tests, WithValue, compared};
ghost use Rattle.mc_semantics.specs.Resolved.Views.{expression_of};
ghost use Rattle.mc_run_values.specs.Tasks.Going.{branches_of};
ghost use Rattle.mc_run_values.specs.Tasks.Left.{atom_of};
ghost use Rattle.mc_run.specs.Asking.{AsksInput, ConditionAsks};
ghost use Rattle.mc_run.specs.Models.{config_of, here_of};
ghost use Rattle.mc_run.specs.Steps.{Comes, IsStep};

use crate::machine::{Machine, Program};
use crate::outcome::{End, Stepped};
use mc_base::text::Place;
use mc_base::{FaultKind, NoMemory};
use mc_c_syntax::ast::Comparison;
use mc_run_values::script::Script;
use mc_run_values::tasks::{Atom, Decided};
use mc_run_values::values::{Evaluated, compares};
use mc_semantics::resolved::Expression;

// The condition that was next is a comparison of two values.
fn decide(
    machine: &mut Machine,
    place: Place,
    mark: Comparison,
    first: Option<i64>,
    second: Option<i64>,
) -> Result<Stepped, NoMemory>
    ensures { IfOk result (λ stepped. (choices : List ChoiceModel) → Comes stepped (config_of machine.new) choices
        (λ r. r ≡ compared (here_of machine.old) mark (branches_of machine.old.work).0
        (branches_of machine.old.work).1 place first second choices)) }
{
    let Some(first) = first else {
        return Ok(Stepped::Ends(End::Fault(FaultKind::Uninit, place)));
    };
    let Some(second) = second else {
        return Ok(Stepped::Ends(End::Fault(FaultKind::Uninit, place)));
    };
    match machine.work.decide(compares(mark, first, second))? {
        Decided::GoesOn => Ok(Stepped::Goes),
        Decided::Fails(place) => Ok(Stepped::Ends(End::Fault(FaultKind::Assertion, place))),
        Decided::Stops => Ok(Stepped::Ends(End::Stopped)),
    }
}

// The right side of a comparison, whose left side has this value.
fn test_right<'a>(
    machine: &mut Machine<'a>,
    program: Program<'a>,
    script: &mut Script,
    place: Place,
    mark: Comparison,
    first: Option<i64>,
    second: &'a Expression,
) -> Result<Stepped, NoMemory>
    ensures { IfOk result (λ stepped. IsStep program.entry.structs.now
        (λ choices r. WithValue (here_of machine.old) (expression_of second.now) place choices
        (λ v left other. other ≡ compared (here_of machine.old) mark (branches_of machine.old.work).0
        (branches_of machine.old.work).1 place first v left) r)
        (λ choices request rest. AsksInput (here_of machine.old) (expression_of second.now) choices request rest)
        script.old stepped (config_of machine.new) script.new) }
{
    match machine.evaluate(program, script, second)? {
        Evaluated::Value(value) => {
            let stepped = decide(machine, place, mark, first, value)?;
            Ok(stepped)
        }
        Evaluated::Fault(kind) => Ok(Stepped::Ends(End::Fault(kind, place))),
        Evaluated::Unanswered(why) => Ok(Stepped::Unanswered(why)),
    }
}

// An expression that is to be other than 0.
fn test_plain<'a>(
    machine: &mut Machine<'a>,
    program: Program<'a>,
    script: &mut Script,
    place: Place,
    expression: &'a Expression,
) -> Result<Stepped, NoMemory>
    ensures { IfOk result (λ stepped. IsStep program.entry.structs.now
        (λ choices r. Tests (here_of machine.old) (plain place (expression_of expression.now))
        (branches_of machine.old.work).0 (branches_of machine.old.work).1 choices r)
        (λ choices request rest. ConditionAsks (here_of machine.old).values (here_of machine.old).heap
        (plain place (expression_of expression.now)) choices request rest)
        script.old stepped (config_of machine.new) script.new) }
{
    match machine.evaluate(program, script, expression)? {
        Evaluated::Value(value) => {
            let stepped = decide(machine, place, Comparison::Unequal, value, Some(0))?;
            Ok(stepped)
        }
        Evaluated::Fault(kind) => Ok(Stepped::Ends(End::Fault(kind, place))),
        Evaluated::Unanswered(why) => Ok(Stepped::Unanswered(why)),
    }
}

// A comparison of two expressions.
fn test_both<'a>(
    machine: &mut Machine<'a>,
    program: Program<'a>,
    script: &mut Script,
    place: Place,
    mark: Comparison,
    first: &'a Expression,
    second: &'a Expression,
) -> Result<Stepped, NoMemory>
    ensures { IfOk result (λ stepped. IsStep program.entry.structs.now
        (λ choices r. Tests (here_of machine.old)
        (compare place mark (expression_of first.now) (expression_of second.now))
        (branches_of machine.old.work).0 (branches_of machine.old.work).1 choices r)
        (λ choices request rest. ConditionAsks (here_of machine.old).values (here_of machine.old).heap
        (compare place mark (expression_of first.now) (expression_of second.now)) choices request rest)
        script.old stepped (config_of machine.new) script.new) }
{
    match machine.evaluate(program, script, first)? {
        Evaluated::Value(value) => {
            let stepped = test_right(machine, program, script, place, mark, value, second)?;
            Ok(stepped)
        }
        Evaluated::Fault(kind) => Ok(Stepped::Ends(End::Fault(kind, place))),
        Evaluated::Unanswered(why) => Ok(Stepped::Unanswered(why)),
    }
}

/// An atomic condition that was next.
pub fn test<'a>(
    machine: &mut Machine<'a>,
    program: Program<'a>,
    script: &mut Script,
    atom: Atom<'a>,
) -> Result<Stepped, NoMemory>
    ensures { IfOk result (λ stepped. IsStep program.entry.structs.now
        (λ choices r. Tests (here_of machine.old) (atom_of atom.entry) (branches_of machine.old.work).0
        (branches_of machine.old.work).1 choices r)
        (λ choices request rest. ConditionAsks (here_of machine.old).values (here_of machine.old).heap
        (atom_of atom.entry) choices request rest)
        script.old stepped (config_of machine.new) script.new) }
{
    match atom {
        Atom::Plain(place, expression) => {
            let stepped = test_plain(machine, program, script, place, expression)?;
            Ok(stepped)
        }
        Atom::Compare(place, mark, first, second) => {
            let stepped = test_both(machine, program, script, place, mark, first, second)?;
            Ok(stepped)
        }
    }
}
