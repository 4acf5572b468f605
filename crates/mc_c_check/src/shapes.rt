// The shape commands of programs, and the definitions that they name.
ghost use Rattle.std.specs.Prelude.{◌≡◌, List, None, IfOk, OnOk, map, flat_map, find};
ghost use Rattle.std.specs.Option.{option_copied};
ghost use Rattle.mc_c_syntax.specs.Ast.Names.{is_same};
ghost use Rattle.mc_c_syntax.specs.Ast.Views.{function_of, item_of, unit_of};
ghost use Rattle.mc_c_types.specs.First.{told_of};
ghost use Rattle.mc_c_types.specs.Held.{tables_held, variables_held};
ghost use Rattle.mc_c_types.specs.Shapes.{argument_given, bind_faults, body_uses, given_faults, item_uses, kind_fits, use_faults};
ghost use Rattle.mc_c_types.specs.Tables.{Variable};
ghost use Rattle.mc_c_walk.specs.Gives.{part_uses, visit_uses};
ghost use Rattle.mc_c_walk.specs.Parts.{part_of};
ghost use Rattle.mc_c_walk.specs.Visits.{body_visits};

use crate::collect::collect_tables;
use mc_base::Kind;
use mc_base::text::{Place, Text};
use mc_c_syntax::ast::{Argument, Function, Item, Name, Unit};
use mc_c_types::{Fault, FaultName, FirstFault, NameTables, ValueType, VariableType, VisibleNames};
use mc_c_walk::{Part, Walk, visits_give_uses};
use mc_flow::defs::Def;
use std::alloc::{AllocError, Global};

/// Whether a value can be of this kind.
fn kind_fits(kind: Kind, value: ValueType) -> bool
    ensures { result ≡ kind_fits kind value }
{
    match kind {
        Kind::Int => value.is_int(),
        Kind::Ptr => value.is_pointer(),
    }
}

/// What an argument of a shape command can be.
fn argument_type(sight: VisibleNames, argument: &Argument) -> ValueType
    ensures { result ≡ (argument_given (variables_held sight.entry.scope.now) argument.now).type }
{
    match argument {
        Argument::Name(name) => ValueType::Typed(sight.variable_type(name)),
        Argument::Null(_) => ValueType::Null,
        Argument::Number(number, _) => ValueType::of_number(*number),
        Argument::Negative(_, _) => ValueType::Typed(VariableType::Int),
    }
}

/// The place of its first token.
fn argument_place(argument: &Argument) -> Place
    ensures { (vs : List Variable) → result ≡ (argument_given vs argument.now).place }
{
    match argument {
        Argument::Name(name) => name.place,
        Argument::Null(place) => *place,
        Argument::Number(_, place) => *place,
        Argument::Negative(_, place) => *place,
    }
}

/// Notes which arguments are not of their kinds.
fn check_kinds(told: &mut FirstFault, sight: VisibleNames, kinds: &[Kind], arguments: &[Argument])
    ensures { told.new.fault ≡ told_of told.old.fault
        (given_faults kinds.now (map (argument_given (variables_held sight.entry.scope.now)) arguments.now)) }
{
    for (i, argument) in arguments.iter().enumerate() {
        if i < kinds.len() {
            told.unless(
                kind_fits(kinds[i], argument_type(sight, argument)),
                FaultName::Mismatch,
                argument_place(argument),
            );
        }
    }
}

/// The definition of this name.
fn find_def<'d>(defs: &'d [Def], name: &Text) -> Option<&'d Def>
    ensures { option_copied result ≡ find (λ d. is_same d.name name.now) defs.now }
{
    defs.iter().find(|d| d.name.as_slice() == name.as_slice())
}

/// Notes that a shape command does not fit the definitions.
fn check_command(
    told: &mut FirstFault,
    sight: VisibleNames,
    defs: &[Def],
    predicate: &Name,
    start: ValueType,
    place: Place,
    arguments: &[Argument],
)
    ensures { told.new.fault ≡ told_of told.old.fault (use_faults defs.now (record {
      predicate = predicate.now;
      start = record { type = start; place = place };
      arguments = map (argument_given (variables_held sight.entry.scope.now)) arguments.now;
    })) }
{
    match find_def(defs, &predicate.text) {
        None => told.note(FaultName::Unknown, predicate.place),
        Some(def) => {
            told.unless(
                arguments.len() == def.params.len(),
                FaultName::Arity,
                predicate.place,
            );
            told.unless(start.is_pointer(), FaultName::Mismatch, place);
            check_kinds(told, sight, def.params.as_slice(), arguments);
        }
    }
}

/// Notes that a part of a body is a shape command that does not fit the definitions.
fn check_shape<'a>(
    told: &mut FirstFault,
    tables: &NameTables<'a>,
    defs: &[Def],
    walk: &Walk<'a>,
    part: Part<'a>,
)
    ensures { told.new.fault ≡ told_of told.old.fault (flat_map (use_faults defs.now) (part_uses walk.now.scope (part_of part.entry))) }
{
    let sight = VisibleNames {
        tables,
        scope: walk.visible(),
    };
    match part {
        Part::Declared(_, _) => {}
        Part::Valued(_, _, _) => {}
        Part::Performed(_) => {}
        Part::Freed(_) => {}
        Part::Tested(_) => {}
        Part::Assumed(shape) => {
            let start = ValueType::Typed(sight.variable_type(&shape.variable));
            let place = shape.variable.place;
            check_command(
                told,
                sight,
                defs,
                &shape.predicate,
                start,
                place,
                shape.arguments.as_slice(),
            );
        }
        Part::Asserted(shape) => {
            let start = argument_type(sight, &shape.start);
            let place = argument_place(&shape.start);
            check_command(
                told,
                sight,
                defs,
                &shape.predicate,
                start,
                place,
                shape.arguments.as_slice(),
            );
        }
        Part::LoopExit(_, _) => {}
        Part::Returning(_, _) => {}
    }
}

/// Notes which parts of a function are shape commands that do not fit the definitions.
fn check_parts<'a>(
    alloc: Global,
    told: &mut FirstFault,
    tables: &NameTables<'a>,
    defs: &[Def],
    function: &'a Function,
) -> Result<(), AllocError>
    ensures { OnOk result (told.new.fault
        ≡ told_of told.old.fault (flat_map (λ v. flat_map (use_faults defs.now) (visit_uses v))
        (body_visits (tables_held tables.now) (function_of function.now) (function_of function.now).body))) }
{
    let mut walk = Walk::new(alloc, tables, function)?;
    while let Some(part) = walk.next(tables)? {
        check_shape(told, tables, defs, &walk, part);
    }
    Ok(())
}

/// Notes which shape commands of a function do not fit the definitions.
fn check_function<'a>(
    alloc: Global,
    told: &mut FirstFault,
    tables: &NameTables<'a>,
    defs: &[Def],
    function: &'a Function,
) -> Result<(), AllocError>
    ensures { OnOk result (told.new.fault
        ≡ told_of told.old.fault (flat_map (use_faults defs.now)
        (body_uses (tables_held tables.now) (function_of function.now) (function_of function.now).body))) }
{
    visits_give_uses();
    check_parts(alloc, told, tables, defs, function)?;
    Ok(())
}

/// The same of a struct, typedef or function.
fn check_item<'a>(
    alloc: Global,
    told: &mut FirstFault,
    tables: &NameTables<'a>,
    defs: &[Def],
    item: &'a Item,
) -> Result<(), AllocError>
    ensures { OnOk result (told.new.fault
        ≡ told_of told.old.fault (flat_map (use_faults defs.now)
        (item_uses (tables_held tables.now) (item_of item.now)))) }
{
    match item {
        Item::Struct(_) => Ok(()),
        Item::Typedef(_) => Ok(()),
        Item::Function(function) => check_function(alloc, told, tables, defs, function),
    }
}

/// The same of several.
fn check_items<'a>(
    alloc: Global,
    told: &mut FirstFault,
    tables: &NameTables<'a>,
    defs: &[Def],
    items: &'a [Item],
) -> Result<(), AllocError>
    ensures { OnOk result (told.new.fault
        ≡ told_of told.old.fault (flat_map
        (λ item. flat_map (use_faults defs.now) (item_uses (tables_held tables.now) item))
        (map item_of items.now))) }
{
    for item in items {
        check_item(alloc, told, tables, defs, item)?;
    }
    Ok(())
}

/// The first fault of the shape commands of a program, if one does not fit the definitions.
pub fn first_misfit(alloc: Global, unit: &Unit, defs: &[Def]) -> Result<Option<Fault>, AllocError>
    ensures { IfOk result (λ fault. fault ≡ told_of None (bind_faults (unit_of unit.now) defs.now)) }
{
    let tables = collect_tables(alloc, unit)?;
    let mut told = FirstFault::new();
    check_items(alloc, &mut told, &tables, defs, unit.items.as_slice())?;
    Ok(told.fault)
}
