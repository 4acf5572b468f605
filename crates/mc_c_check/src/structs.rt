// The faults of structs and of typedefs.
ghost use Rattle.std.specs.Prelude.{◌≡◌, ◌++◌, IfOk, OnOk, map, flat_map};
ghost use Rattle.mc_c_syntax.specs.Ast.Views.{field_of, struct_of, aliased_of, typedef_of};
ghost use Rattle.mc_c_types.specs.Faults.{alias_faults, aliased_base, aliased_faults, base_faults, declarator_faults, declarator_place, struct_faults, typedef_faults};
ghost use Rattle.mc_c_types.specs.First.{told_of};
ghost use Rattle.mc_c_types.specs.Held.{tables_held};
ghost use Rattle.mc_c_check.specs.Collected.{names_held, field_names};

use crate::collect::aliased_meaning;
use crate::repeated::check_repeated;
use mc_base::Items;
use mc_base::text::Place;
use mc_c_syntax::ast::{Aliased, Base, Declarator, Field, Name, Struct, Typedef};
use mc_c_types::{FaultName, FirstFault, NameTables};
use std::alloc::{AllocError, Global};

/// The place of the first token of a declarator.
fn declarator_place(declarator: &Declarator) -> Place
    ensures { result ≡ declarator_place declarator.now }
{
    match declarator.pointer {
        None => declarator.name.place,
        Some(star) => star,
    }
}

/// Notes that a declarator has no type.
pub fn check_declarator(
    told: &mut FirstFault,
    tables: &NameTables,
    base: &Base,
    declarator: &Declarator,
)
    ensures { told.new.fault ≡ told_of told.old.fault (declarator_faults (tables_held tables.now) base.now declarator.now) }
{
    tables.check_type(told, base, declarator.pointer, declarator_place(declarator));
}

/// Notes which of these declarators have no type.
fn check_declarators(
    told: &mut FirstFault,
    tables: &NameTables,
    base: &Base,
    declarators: &[Declarator],
)
    ensures { told.new.fault ≡ told_of told.old.fault (flat_map (declarator_faults (tables_held tables.now) base.now) declarators.now) }
{
    for declarator in declarators {
        check_declarator(told, tables, base, declarator);
    }
}

/// Notes which of these fields have no type.
fn check_fields(told: &mut FirstFault, tables: &NameTables, fields: &[Field])
    ensures { told.new.fault ≡ told_of told.old.fault
        (flat_map (λ field. flat_map (declarator_faults (tables_held tables.now) field.base) field.declarators)
        (map field_of fields.now)) }
{
    for field in fields {
        check_declarators(told, tables, &field.base, field.declarators.as_slice());
    }
}

/// Adds the names of declarators.
pub fn add_names<'a>(
    names: &mut Items<&'a Name>,
    declarators: &'a [Declarator],
) -> Result<(), AllocError>
    ensures { OnOk result (names_held names.new ≡ names_held names.old ++ map (λ d. d.name) declarators.now) }
{
    for declarator in declarators {
        names.push(&declarator.name)?;
    }
    Ok(())
}

/// The names of fields.
fn collect_field_names<'a>(
    alloc: Global,
    fields: &'a [Field],
) -> Result<Items<&'a Name>, AllocError>
    ensures { IfOk result (λ names. names_held names ≡ field_names (map field_of fields.now)) }
{
    let mut names = Items::new(alloc);
    for field in fields {
        add_names(&mut names, field.declarators.as_slice())?;
    }
    Ok(names)
}

/// Notes the faults of a struct.
pub fn check_struct(
    alloc: Global,
    told: &mut FirstFault,
    tables: &NameTables,
    tree: &Struct,
) -> Result<(), AllocError>
    ensures { OnOk result (told.new.fault ≡ told_of told.old.fault (struct_faults (tables_held tables.now) (struct_of tree.now))) }
{
    check_fields(told, tables, tree.fields.as_slice());
    let names = collect_field_names(alloc, tree.fields.as_slice())?;
    check_repeated(alloc, told, names.as_slice())?;
    Ok(())
}

/// Notes the faults of the struct that a typedef defines.
fn check_aliased(
    alloc: Global,
    told: &mut FirstFault,
    tables: &NameTables,
    aliased: &Aliased,
) -> Result<(), AllocError>
    ensures { OnOk result (told.new.fault ≡ told_of told.old.fault (aliased_faults (tables_held tables.now) (aliased_of aliased.now))) }
{
    match aliased {
        Aliased::Base(_) => Ok(()),
        Aliased::Struct(tree) => check_struct(alloc, told, tables, tree),
    }
}

/// Notes that the base of a typedef is not known, or what a pointer points to is not defined.
fn check_aliased_base(
    told: &mut FirstFault,
    tables: &NameTables,
    aliased: &Aliased,
    star: Option<Place>,
)
    ensures { told.new.fault ≡ told_of told.old.fault (base_faults (tables_held tables.now) (aliased_base (aliased_of aliased.now)) star) }
{
    match aliased {
        Aliased::Base(base) => tables.check_base(told, base, star),
        Aliased::Struct(tree) => told.unless(
            star.is_none() || tables.struct_number(&tree.name.text).is_some(),
            FaultName::Unknown,
            tree.name.place,
        ),
    }
}

/// Notes the faults of a declarator of a typedef.
fn check_alias(
    told: &mut FirstFault,
    tables: &NameTables,
    aliased: &Aliased,
    declarator: &Declarator,
)
    ensures { told.new.fault ≡ told_of told.old.fault
        (alias_faults (tables_held tables.now) (aliased_base (aliased_of aliased.now)) declarator.now) }
{
    let star = declarator.pointer;
    check_aliased_base(told, tables, aliased, star);
    told.unless(
        star.is_none() || aliased_meaning(tables, aliased).is_declarable(star),
        FaultName::Mismatch,
        declarator_place(declarator),
    );
}

/// Notes the faults of the declarators of a typedef.
fn check_aliases(
    told: &mut FirstFault,
    tables: &NameTables,
    aliased: &Aliased,
    declarators: &[Declarator],
)
    ensures { told.new.fault ≡ told_of told.old.fault
        (flat_map (alias_faults (tables_held tables.now) (aliased_base (aliased_of aliased.now))) declarators.now) }
{
    for declarator in declarators {
        check_alias(told, tables, aliased, declarator);
    }
}

/// Notes the faults of a typedef.
pub fn check_typedef(
    alloc: Global,
    told: &mut FirstFault,
    tables: &NameTables,
    typedef: &Typedef,
) -> Result<(), AllocError>
    ensures { OnOk result (told.new.fault ≡ told_of told.old.fault (typedef_faults (tables_held tables.now) (typedef_of typedef.now))) }
{
    check_aliased(alloc, told, tables, &typedef.aliased)?;
    check_aliases(
        told,
        tables,
        &typedef.aliased,
        typedef.declarators.as_slice(),
    );
    Ok(())
}
