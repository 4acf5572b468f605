// The faults of functions.
ghost use Rattle.std.specs.Prelude.{◌≡◌, IfOk, OnOk, map, flat_map};
ghost use Rattle.mc_c_syntax.specs.Ast.Views.{function_of, item_of};
ghost use Rattle.mc_c_types.specs.Faults.{declarator_faults, function_faults, item_tree_faults, returned_faults};
ghost use Rattle.mc_c_types.specs.First.{told_of};
ghost use Rattle.mc_c_types.specs.Held.{tables_held};
ghost use Rattle.mc_c_check.specs.Collected.{names_held};

use crate::bodies::check_body;
use crate::repeated::check_repeated;
use crate::structs::{check_declarator, check_struct, check_typedef};
use mc_base::Items;
use mc_c_syntax::ast::{Function, Item, Name, Parameter, Returned};
use mc_c_types::{FirstFault, NameTables, parameters};
use std::alloc::{AllocError, Global};

/// Notes that the result of a function has no type.
fn check_returned(told: &mut FirstFault, tables: &NameTables, function: &Function)
    ensures { told.new.fault ≡ told_of told.old.fault
        (returned_faults (tables_held tables.now) (function_of function.now) function.now.returned) }
{
    match &function.returned {
        Returned::Void(_) => {}
        Returned::Value(base, star) => tables.check_type(told, base, *star, function.name.place),
    }
}

/// Notes which of these parameters have no type.
fn check_parameters(told: &mut FirstFault, tables: &NameTables, parameters: &[Parameter])
    ensures { told.new.fault ≡ told_of told.old.fault
        (flat_map (λ p. declarator_faults (tables_held tables.now) p.base p.declarator) parameters.now) }
{
    for parameter in parameters {
        check_declarator(told, tables, &parameter.base, &parameter.declarator);
    }
}

/// The names of parameters.
fn parameter_names<'a>(
    alloc: Global,
    parameters: &'a [Parameter],
) -> Result<Items<&'a Name>, AllocError>
    ensures { IfOk result (λ names. names_held names ≡ map (λ p. p.declarator.name) parameters.now) }
{
    let mut names = Items::new(alloc);
    for parameter in parameters {
        names.push(&parameter.declarator.name)?;
    }
    Ok(names)
}

/// Notes the faults of a function.
fn check_function<'a>(
    alloc: Global,
    told: &mut FirstFault,
    tables: &NameTables<'a>,
    function: &'a Function,
) -> Result<(), AllocError>
    ensures { OnOk result (told.new.fault ≡ told_of told.old.fault (function_faults (tables_held tables.now) (function_of function.now))) }
{
    let parameters = parameters(function);
    check_returned(told, tables, function);
    check_parameters(told, tables, parameters);
    let names = parameter_names(alloc, parameters)?;
    check_repeated(alloc, told, names.as_slice())?;
    check_body(alloc, told, tables, function)?;
    Ok(())
}

/// Notes the faults of a struct, typedef or function.
fn check_item<'a>(
    alloc: Global,
    told: &mut FirstFault,
    tables: &NameTables<'a>,
    item: &'a Item,
) -> Result<(), AllocError>
    ensures { OnOk result (told.new.fault ≡ told_of told.old.fault (item_tree_faults (tables_held tables.now) (item_of item.now))) }
{
    match item {
        Item::Struct(tree) => check_struct(alloc, told, tables, tree),
        Item::Typedef(typedef) => check_typedef(alloc, told, tables, typedef),
        Item::Function(function) => check_function(alloc, told, tables, function),
    }
}

/// Notes the faults of structs, typedefs and functions.
pub fn check_items<'a>(
    alloc: Global,
    told: &mut FirstFault,
    tables: &NameTables<'a>,
    items: &'a [Item],
) -> Result<(), AllocError>
    ensures { OnOk result (told.new.fault
        ≡ told_of told.old.fault (flat_map (item_tree_faults (tables_held tables.now)) (map item_of items.now))) }
{
    for item in items {
        check_item(alloc, told, tables, item)?;
    }
    Ok(())
}
