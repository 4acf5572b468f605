// The tables of a program.
ghost use Rattle.std.specs.Prelude.{◌≡◌, IfOk, OnOk, map, flat_map};
ghost use Rattle.std.specs.Option.{option_copied, option_map};
ghost use Rattle.mc_c_syntax.specs.Ast.Views.{struct_of, function_of, item_of, aliased_of, typedef_of, unit_of};
ghost use Rattle.mc_c_syntax.specs.Ast.Trees.{typedef};
ghost use Rattle.mc_c_types.specs.Held.{tables_held, alias_held};
ghost use Rattle.mc_c_types.specs.Tables.{alias_meaning, aliased_meaning, aliases_behind, aliases_of, item_functions, item_structs, tables_of, unit_structs};
ghost use Rattle.mc_c_check.specs.Collected.{at_most_one, structs_held, functions_held};

use mc_base::text::Place;
use mc_c_syntax::ast::{Aliased, Declarator, Function, Item, Struct, Typedef, Unit};
use mc_c_syntax::names::Table;
use mc_c_types::{Aliases, BaseType, Functions, Meaning, NameTables};
use std::alloc::{AllocError, Global};

/// The struct that an item defines.
fn item_struct(item: &Item) -> Option<&Struct>
    ensures { at_most_one (option_map struct_of (option_copied result)) ≡ item_structs (item_of item.now) }
{
    match item {
        Item::Struct(tree) => Some(tree),
        Item::Typedef(tree) => match &tree.aliased {
            Aliased::Base(_) => None,
            Aliased::Struct(tree) => Some(tree),
        },
        Item::Function(_) => None,
    }
}

/// The structs of a program, in the order of its text.
fn collect_structs<'a>(alloc: Global, items: &'a [Item]) -> Result<Table<'a, Struct>, AllocError>
    ensures { IfOk result (λ list. structs_held list ≡ unit_structs (map item_of items.now)) }
{
    let mut structs = Table::new(alloc);
    for item in items {
        if let Some(tree) = item_struct(item) {
            structs.push(tree)?;
        }
    }
    Ok(structs)
}

/// The function or prototype that an item is.
fn item_function(item: &Item) -> Option<&Function>
    ensures { at_most_one (option_map function_of (option_copied result)) ≡ item_functions (item_of item.now) }
{
    match item {
        Item::Struct(_) => None,
        Item::Typedef(_) => None,
        Item::Function(function) => Some(function),
    }
}

/// The functions and prototypes of a program, in the order of its text.
fn collect_functions<'a>(
    alloc: Global,
    items: &'a [Item],
) -> Result<Table<'a, Function>, AllocError>
    ensures { IfOk result (λ list. functions_held list ≡ flat_map item_functions (map item_of items.now)) }
{
    let mut functions = Table::new(alloc);
    for item in items {
        if let Some(function) = item_function(item) {
            functions.push(function)?;
        }
    }
    Ok(functions)
}

/// What a typedef makes of a name.
fn alias_meaning(base: BaseType, star: Option<Place>) -> BaseType
    ensures { result ≡ alias_meaning base star }
{
    match star {
        None => base,
        Some(_) => BaseType::Typed(base.declared(star)),
    }
}

/// What the base of a typedef means.
pub fn aliased_meaning(tables: &NameTables, aliased: &Aliased) -> BaseType
    ensures { result ≡ aliased_meaning (tables_held tables.now).structs (tables_held tables.now).aliases (aliased_of aliased.now) }
{
    match aliased {
        Aliased::Base(base) => tables.meaning(base),
        Aliased::Struct(tree) => match tables.struct_number(&tree.name.text) {
            None => BaseType::Undefined,
            Some(number) => BaseType::Struct(number),
        },
    }
}

/// Adds what a typedef makes of names.
fn add_typedef<'a>(tables: &mut NameTables<'a>, tree: &'a Typedef) -> Result<(), AllocError>
    ensures aliases { OnOk result (map alias_held tables.new.aliases
        ≡ aliases_behind (structs_held tables.old.structs) (map alias_held tables.old.aliases)
        (typedef (typedef_of tree.now))) }
    ensures structs { OnOk result (tables.new.structs ≡ tables.old.structs) }
    ensures functions { OnOk result (tables.new.functions ≡ tables.old.functions) }
{
    let meaning = aliased_meaning(tables, &tree.aliased);
    for declarator in tree.declarators.as_slice() {
        tables.aliases.push(Meaning {
            name: &declarator.name.text,
            meaning: alias_meaning(meaning, declarator.pointer),
        })?;
    }
    Ok(())
}

/// Adds what the typedefs among these items make of names.
fn add_aliases<'a>(tables: &mut NameTables<'a>, items: &'a [Item]) -> Result<(), AllocError>
    ensures aliases { OnOk result (map alias_held tables.new.aliases
        ≡ aliases_of (structs_held tables.old.structs) (map alias_held tables.old.aliases)
        (map item_of items.now)) }
    ensures structs { OnOk result (tables.new.structs ≡ tables.old.structs) }
    ensures functions { OnOk result (tables.new.functions ≡ tables.old.functions) }
{
    for item in items {
        match item {
            Item::Struct(_) => {}
            Item::Typedef(tree) => add_typedef(tables, tree)?,
            Item::Function(_) => {}
        }
    }
    Ok(())
}

/// The tables of a program.
pub fn collect_tables<'a>(alloc: Global, unit: &'a Unit) -> Result<NameTables<'a>, AllocError>
    ensures { IfOk result (λ tables. tables_held tables ≡ tables_of (unit_of unit.now)) }
{
    let items = unit.items.as_slice();
    let mut tables = NameTables {
        structs: collect_structs(alloc, items)?,
        aliases: Aliases::new(alloc),
        functions: Functions::of(alloc, collect_functions(alloc, items)?)?,
    };
    add_aliases(&mut tables, items)?;
    Ok(tables)
}
