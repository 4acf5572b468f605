// The faults of bodies.
ghost use Rattle.std.specs.Prelude.{◌≡◌, ◌++◌, OnOk, flat_map, is_none};
ghost use Rattle.mc_c_syntax.specs.Ast.Views.{expression_of, function_of};
ghost use Rattle.mc_c_types.specs.Faults.{body_faults, declarator_faults, expression_faults, no_pointer, shape_argument_faults, unless};
ghost use Rattle.mc_c_types.specs.First.{told_of};
ghost use Rattle.mc_c_types.specs.Held.{tables_held, variables_held};
ghost use Rattle.mc_c_walk.specs.Gives.{part_faults};
ghost use Rattle.mc_c_walk.specs.Parts.{part_of};
ghost use Rattle.mc_c_types.specs.Tables.{type_in};
ghost use Rattle.mc_c_types.specs.declared.faults.FaultName.TheVariants.{Twice};

use crate::structs::check_declarator;
use mc_c_syntax::ast::{Argument, Base, Declarator, Expression, Function};
use mc_c_types::{FaultName, FirstFault, NameTables, VariableType, VisibleNames};
use mc_c_walk::{Part, Walk, visits_give_faults};
use std::alloc::{AllocError, Global};

/// Notes which names among these arguments of a shape command are not visible.
fn check_arguments(told: &mut FirstFault, sight: VisibleNames, arguments: &[Argument])
    ensures { told.new.fault ≡ told_of told.old.fault
        (flat_map (shape_argument_faults (variables_held sight.entry.scope.now)) arguments.now) }
{
    for argument in arguments {
        sight.check_argument(told, argument);
    }
}

/// Notes that what is freed is no pointer.
fn check_freed(
    alloc: Global,
    told: &mut FirstFault,
    sight: VisibleNames,
    pointer: &Expression,
) -> Result<(), AllocError>
    ensures { OnOk result (told.new.fault ≡ told_of told.old.fault
        (expression_faults (tables_held sight.entry.tables.now) (variables_held sight.entry.scope.now)
        (expression_of pointer.now) ++ no_pointer (tables_held sight.entry.tables.now)
        (variables_held sight.entry.scope.now) (expression_of pointer.now))) }
{
    sight.check_expression(alloc, told, pointer)?;
    sight.want_pointer(told, pointer);
    Ok(())
}

/// Notes that the variable of a declarator has no type, or that its block has its name already.
fn check_declared(
    told: &mut FirstFault,
    tables: &NameTables,
    walk: &Walk,
    base: &Base,
    declarator: &Declarator,
)
    ensures { told.new.fault
        ≡ told_of told.old.fault (declarator_faults (tables_held tables.now) base.now declarator.now
        ++ unless (is_none (type_in walk.now.scope.own declarator.now.name.text)) Twice declarator.now.name.place) }
{
    check_declarator(told, tables, base, declarator);
    told.unless(
        !walk.is_own(&declarator.name.text),
        FaultName::Twice,
        declarator.name.place,
    );
}

/// Notes the faults of a part of a body, in a function with this result.
fn check_part<'a>(
    alloc: Global,
    told: &mut FirstFault,
    tables: &NameTables<'a>,
    walk: &Walk<'a>,
    returned: Option<VariableType>,
    part: Part<'a>,
) -> Result<(), AllocError>
    ensures { OnOk result (told.new.fault
        ≡ told_of told.old.fault
        (part_faults (tables_held tables.now) returned walk.now.scope (part_of part.entry))) }
{
    let sight = VisibleNames {
        tables,
        scope: walk.visible(),
    };
    match part {
        Part::Declared(base, declarator) => {
            check_declared(told, tables, walk, base, declarator);
            Ok(())
        }
        Part::Valued(base, declarator, value) => {
            let wanted = tables.declared(base, declarator.pointer);
            sight.check_first_value(alloc, told, wanted, value)
        }
        Part::Performed(simple) => sight.check_simple(alloc, told, simple),
        Part::Freed(pointer) => check_freed(alloc, told, sight, pointer),
        Part::Tested(condition) => sight.check_condition(alloc, told, condition),
        Part::Assumed(shape) => {
            sight.check_variable(told, &shape.variable);
            check_arguments(told, sight, shape.arguments.as_slice());
            Ok(())
        }
        Part::Asserted(shape) => {
            sight.check_argument(told, &shape.start);
            check_arguments(told, sight, shape.arguments.as_slice());
            Ok(())
        }
        Part::LoopExit(place, in_loop) => {
            told.unless(in_loop, FaultName::Mismatch, place);
            Ok(())
        }
        Part::Returning(place, value) => sight.check_return(alloc, told, returned, place, value),
    }
}

/// Notes the faults of the body of a function, if it has one.
pub fn check_body<'a>(
    alloc: Global,
    told: &mut FirstFault,
    tables: &NameTables<'a>,
    function: &'a Function,
) -> Result<(), AllocError>
    ensures { OnOk result (told.new.fault
        ≡ told_of told.old.fault (body_faults (tables_held tables.now) (function_of function.now)
        (function_of function.now).body)) }
{
    visits_give_faults();
    let returned = tables.returned_type(&function.returned);
    let mut walk = Walk::new(alloc, tables, function)?;
    while let Some(part) = walk.next(tables)? {
        check_part(alloc, told, tables, &walk, returned, part)?;
    }
    Ok(())
}
