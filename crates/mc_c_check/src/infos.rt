// What is left of the structs of a program when it runs.
ghost use Rattle.std.specs.Prelude.{◌≡◌, ◌++◌, IfOk, OnOk, flat_map, map};
ghost use Rattle.mc_c_syntax.specs.Ast.Views.{field_of, struct_of, unit_of};
ghost use Rattle.mc_c_types.specs.Held.{tables_held};
ghost use Rattle.mc_c_types.specs.Tables.{kind_of, struct_infos, variable_of};
ghost use Rattle.mc_c_check.specs.Collected.{structs_held};
ghost use Rattle.mc_c_check.specs.Infos.{field_info, field_infos, struct_info};

use crate::collect::collect_tables;
use mc_base::text::Text;
use mc_base::{Items, Kind};
use mc_c_syntax::ast::{Base, Declarator, Field, Struct, Unit};
use mc_c_types::{NameTables, VariableType};
use mc_flow::defs::{FieldInfo, StructInfo, Structs};
use std::alloc::{AllocError, Global};

/// The kind of the values of a type.
fn kind_of(variable_type: VariableType) -> Kind
    ensures { result ≡ kind_of variable_type }
{
    match variable_type {
        VariableType::Int => Kind::Int,
        VariableType::Pointer(_) => Kind::Ptr,
        VariableType::Anything => Kind::Int,
    }
}

/// The bytes of a name.
fn bytes_of(alloc: Global, text: &Text) -> Result<Items<u8>, AllocError>
    ensures { IfOk result (λ bytes. bytes ≡ text.now) }
{
    Ok(Items::of(text.as_slice().to_vec(alloc)?))
}

/// The field that a declarator makes.
fn field_info(
    alloc: Global,
    tables: &NameTables,
    base: &Base,
    declarator: &Declarator,
) -> Result<FieldInfo, AllocError>
    ensures { IfOk result (λ info. info ≡ field_info (variable_of (tables_held tables.now) base.now declarator.now)) }
{
    Ok(FieldInfo {
        name: bytes_of(alloc, &declarator.name.text)?,
        kind: kind_of(tables.declared(base, declarator.pointer)),
    })
}

/// Adds the fields that declarators make.
fn add_fields(
    alloc: Global,
    infos: &mut Items<FieldInfo>,
    tables: &NameTables,
    base: &Base,
    declarators: &[Declarator],
) -> Result<(), AllocError>
    ensures { OnOk result (infos.new ≡ infos.old
        ++ map (λ d. field_info (variable_of (tables_held tables.now) base.now d)) declarators.now) }
{
    for declarator in declarators {
        infos.push(field_info(alloc, tables, base, declarator)?)?;
    }
    Ok(())
}

/// The fields of a struct.
fn all_fields(
    alloc: Global,
    tables: &NameTables,
    fields: &[Field],
) -> Result<Items<FieldInfo>, AllocError>
    ensures { IfOk result (λ infos. infos ≡ flat_map (field_infos (tables_held tables.now)) (map field_of fields.now)) }
{
    let mut infos = Items::new(alloc);
    for field in fields {
        add_fields(
            alloc,
            &mut infos,
            tables,
            &field.base,
            field.declarators.as_slice(),
        )?;
    }
    Ok(infos)
}

/// A struct, with the kinds of its fields.
fn struct_info(alloc: Global, tables: &NameTables, tree: &Struct) -> Result<StructInfo, AllocError>
    ensures { IfOk result (λ info. info ≡ struct_info (tables_held tables.now) (struct_of tree.now)) }
{
    Ok(StructInfo {
        name: bytes_of(alloc, &tree.name.text)?,
        fields: all_fields(alloc, tables, tree.fields.as_slice())?,
    })
}

/// These structs, with the kinds of their fields.
fn all_structs(
    alloc: Global,
    tables: &NameTables,
    structs: &[&Struct],
) -> Result<Structs, AllocError>
    ensures { IfOk result (λ infos. infos.list ≡ map (struct_info (tables_held tables.now)) (structs_held structs.now)) }
{
    let mut list = Items::new(alloc);
    for tree in structs {
        list.push(struct_info(alloc, tables, tree)?)?;
    }
    Ok(Structs { list })
}

/// The structs of a program, by their numbers.
pub fn struct_infos(alloc: Global, unit: &Unit) -> Result<Structs, AllocError>
    ensures { IfOk result (λ structs. structs.list ≡ struct_infos (unit_of unit.now)) }
{
    let tables = collect_tables(alloc, unit)?;
    let structs = all_structs(alloc, &tables, tables.structs.as_slice())?;
    Ok(structs)
}
