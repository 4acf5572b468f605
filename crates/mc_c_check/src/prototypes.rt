// Prototypes, and what is introduced more than once.
ghost use Rattle.std.specs.Prelude.{◌≡◌, [], IfOk, IsTrue, OnOk, filter, map, flat_map, not};
ghost use Rattle.std.specs.List.{list_any};
ghost use Rattle.mc_c_syntax.specs.Ast.Views.{function_of, item_of, unit_of};
ghost use Rattle.mc_c_types.specs.Types.{all_agree};
ghost use Rattle.mc_c_types.specs.Tables.{is_defined, same_result, same_type, variable_of};
ghost use Rattle.mc_c_types.specs.Faults.{is_other, prototype_faults, table_faults, typedef_names, unless};
ghost use Rattle.mc_c_types.specs.First.{told_of};
ghost use Rattle.mc_c_types.specs.Held.{tables_held};
ghost use Rattle.mc_c_types.specs.declared.faults.FaultName.TheVariants.{Mismatch};
ghost use Rattle.mc_c_check.specs.Prototypes.{AreAlike, IsRepeat};
ghost use Rattle.mc_c_check.specs.Collected.{names_held, structs_held, functions_held};

use crate::recursion::is_behind;
use crate::repeated::check_repeated;
use crate::structs::add_names;
use mc_base::Items;
use mc_c_syntax::ast::{Function, Item, Name, Parameter, Struct};
use mc_c_syntax::names::Groups;
use mc_c_types::{Fault, FaultName, FirstFault, NameTables, VariableType, is_same, parameters};
use std::alloc::{AllocError, Global};

/// Whether two results are alike.
fn same_result(left: Option<VariableType>, right: Option<VariableType>) -> bool
    ensures { result ≡ same_result left right }
{
    match (left, right) {
        (None, None) => true,
        (None, Some(_)) => false,
        (Some(_), None) => false,
        (Some(left), Some(right)) => left.agrees(right),
    }
}

/// The type of a parameter.
fn parameter_type(tables: &NameTables, parameter: &Parameter) -> VariableType
    ensures { result ≡ (variable_of (tables_held tables.now) parameter.now.base parameter.now.declarator).type }
{
    tables.declared(&parameter.base, parameter.declarator.pointer)
}

/// Whether parameters agree one by one.
fn same_parameters(tables: &NameTables, left: &[Parameter], right: &[Parameter]) -> bool
    ensures { result ≡ all_agree (map (λ p.
        (variable_of (tables_held tables.now) p.base p.declarator).type) left.now)
        (map (λ p. (variable_of (tables_held tables.now) p.base p.declarator).type) right.now) }
{
    if left.len() != right.len() {
        return false;
    }
    for (i, parameter) in left.iter().enumerate() {
        if i < right.len()
            && !parameter_type(tables, parameter).agrees(parameter_type(tables, &right[i]))
        {
            return false;
        }
    }
    true
}

/// Whether two functions have the same type.
fn same_type(tables: &NameTables, left: &Function, right: &Function) -> bool
    ensures { result ≡ same_type (tables_held tables.now) (function_of left.now) (function_of right.now) }
{
    same_result(
        tables.returned_type(&left.returned),
        tables.returned_type(&right.returned),
    ) && same_parameters(tables, parameters(left), parameters(right))
}

/// Whether a prototype and another one, or its function, differ.
fn is_other(tables: &NameTables, left: &Function, right: &Function) -> bool
    ensures { result ≡ is_other (tables_held tables.now) (function_of left.now) (function_of right.now) }
{
    is_same(&left.name.text, &right.name.text)
        && !(left.body.is_some() && right.body.is_some())
        && !same_type(tables, left, right)
}

/// Whether a function differs from one of these.
fn differs(tables: &NameTables, function: &Function, others: &[&Function]) -> bool
    ensures { result ≡ list_any (λ f. is_other (tables_held tables.now) (function_of function.now) (function_of f.now)) others.now }
{
    others.iter().any(|other| is_other(tables, function, other))
}

/// Notes that a function differs from one of these.
fn check_prototype(
    told: &mut FirstFault,
    tables: &NameTables,
    function: &Function,
    others: &[&Function],
)
    ensures { told.new.fault ≡ told_of told.old.fault
        (unless (not (list_any (λ f. is_other (tables_held tables.now) (function_of function.now)
        (function_of f.now)) others.now)) Mismatch function.now.name.place) }
{
    let fault = Fault {
        name: FaultName::Mismatch,
        place: function.name.place,
    };
    if is_behind(told, fault) {
        return;
    }
    told.unless(!differs(tables, function, others), fault.name, fault.place);
}

/// Whether two types are one. Where they are not, nothing is known.
fn is_one(left: VariableType, right: VariableType) -> bool
    ensures { IsTrue result → left ≡ right }
{
    match (left, right) {
        (VariableType::Int, VariableType::Int) => true,
        (VariableType::Pointer(left), VariableType::Pointer(right)) => left.0 == right.0,
        (VariableType::Anything, VariableType::Anything) => true,
        (_, _) => false,
    }
}

/// Whether two tests come out alike.
fn is_one_test(left: bool, right: bool) -> bool
    ensures { IsTrue result → left ≡ right }
{
    if left { right } else { !right }
}

/// Whether two results are one.
fn is_one_result(left: Option<VariableType>, right: Option<VariableType>) -> bool
    ensures { IsTrue result → left ≡ right }
{
    match (left, right) {
        (None, None) => true,
        (None, Some(_)) => false,
        (Some(_), None) => false,
        (Some(left), Some(right)) => is_one(left, right),
    }
}

/// Whether parameters have the same types one by one.
fn are_one(tables: &NameTables, left: &[Parameter], right: &[Parameter]) -> bool
    ensures { IsTrue result → map (λ p. (variable_of (tables_held tables.now) p.base p.declarator).type) left.now
        ≡ map (λ p. (variable_of (tables_held tables.now) p.base p.declarator).type) right.now }
{
    if left.len() != right.len() {
        return false;
    }
    for (i, parameter) in left.iter().enumerate() {
        if i < right.len()
            && !is_one(
                parameter_type(tables, parameter),
                parameter_type(tables, &right[i]),
            )
        {
            return false;
        }
    }
    true
}

/// Whether two functions have one name and one type, and both a body or neither.
fn are_alike(tables: &NameTables, left: &Function, right: &Function) -> bool
    ensures { IsTrue result → AreAlike (tables_held tables.now) (function_of left.now) (function_of right.now) }
{
    if !is_same(&left.name.text, &right.name.text) {
        return false;
    }
    if !is_one_test(left.body.is_some(), right.body.is_some()) {
        return false;
    }
    let left_result = tables.returned_type(&left.returned);
    let right_result = tables.returned_type(&right.returned);
    if !is_one_result(left_result, right_result) {
        return false;
    }
    are_one(tables, parameters(left), parameters(right))
}

/// Whether a function is like the last of these.
fn is_repeat(tables: &NameTables, function: &Function, others: &[&Function]) -> bool
    ensures { IsTrue result → IsRepeat (tables_held tables.now) (function_of function.now) (functions_held others.now) }
{
    match others.last() {
        None => false,
        Some(other) => are_alike(tables, function, other),
    }
}

/// Notes each function that differs from one of its name before it. What is like the last one of its name need not be compared
/// with again.
fn check_prototypes(
    alloc: Global,
    told: &mut FirstFault,
    tables: &NameTables,
) -> Result<(), AllocError>
    ensures { OnOk result (told.new.fault
        ≡ told_of told.old.fault (prototype_faults (tables_held tables.now) []
        (tables_held tables.now).functions)) }
{
    let functions = tables.functions.as_slice();
    let mut before = Groups::new(alloc);
    for function in functions {
        let others = before.named(&function.name.text);
        check_prototype(told, tables, function, others);
        if is_repeat(tables, function, others) {
            continue;
        }
        before.push(*function)?;
    }
    Ok(())
}

/// The names of structs.
fn struct_names<'a>(alloc: Global, structs: &[&'a Struct]) -> Result<Items<&'a Name>, AllocError>
    ensures { IfOk result (λ names. names_held names ≡ map (λ s. s.name) (structs_held structs.now)) }
{
    let mut names = Items::new(alloc);
    for tree in structs {
        names.push(&tree.name)?;
    }
    Ok(names)
}

/// The names that typedefs introduce.
fn alias_names<'a>(alloc: Global, items: &'a [Item]) -> Result<Items<&'a Name>, AllocError>
    ensures { IfOk result (λ names. names_held names ≡ flat_map typedef_names (map item_of items.now)) }
{
    let mut names = Items::new(alloc);
    for item in items {
        match item {
            Item::Struct(_) => {}
            Item::Typedef(typedef) => add_names(&mut names, typedef.declarators.as_slice())?,
            Item::Function(_) => {}
        }
    }
    Ok(names)
}

/// The names of the functions that have bodies.
fn defined_names<'a>(
    alloc: Global,
    functions: &[&'a Function],
) -> Result<Items<&'a Name>, AllocError>
    ensures { IfOk result (λ names. names_held names ≡ map (λ f. f.name) (filter is_defined (functions_held functions.now))) }
{
    let mut names = Items::new(alloc);
    for function in functions {
        if function.body.is_some() {
            names.push(&function.name)?;
        }
    }
    Ok(names)
}

/// Notes what is introduced more than once, and which prototypes differ.
#[tactic(auto, using(crate::proofs::Rows::told_append))]
pub fn check_tables(
    alloc: Global,
    told: &mut FirstFault,
    tables: &NameTables,
    items: &[Item],
) -> Result<(), AllocError>
    ensures { OnOk result (told.new.fault ≡ told_of told.old.fault (table_faults (map item_of items.now) (tables_held tables.now))) }
{
    let structs = struct_names(alloc, tables.structs.as_slice())?;
    check_repeated(alloc, told, structs.as_slice())?;
    let aliases = alias_names(alloc, items)?;
    check_repeated(alloc, told, aliases.as_slice())?;
    let functions = defined_names(alloc, tables.functions.as_slice())?;
    check_repeated(alloc, told, functions.as_slice())?;
    check_prototypes(alloc, told, tables)
}
