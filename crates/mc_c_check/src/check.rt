// The check of a whole program.
ghost use Rattle.std.specs.Prelude.{◌≡◌, IfOk, OnOk, MatchResult};
ghost use Rattle.std.specs.List.{list_any};
ghost use Rattle.mc_c_syntax.specs.Ast.Views.{function_of, unit_of};
ghost use Rattle.mc_c_types.specs.First.{told_of};
ghost use Rattle.mc_c_types.specs.Faults.{plain_faults};
ghost use Rattle.mc_c_types.specs.Held.{tables_held};
ghost use Rattle.mc_c_types.specs.Tables.{tables_of};
ghost use Rattle.mc_c_types.specs.Typing.{is_entry};
ghost use Rattle.mc_c_grammar.specs.Numbers.Numbers.{HasSmallNumbers};
ghost use Rattle.mc_c_grammar.specs.Places.Places.{AreDistinct, declared_places};
ghost use Rattle.mc_c_check.specs.Told.{IsAnswer, IsToldOfRules};
ghost use Rattle.mc_c_check.specs.Programs.{Holds, IsRefusal};

use crate::collect::collect_tables;
use crate::functions::check_items;
use crate::infos::struct_infos;
use crate::prototypes::check_tables;
use crate::recursion::check_recursion;
use crate::typed::Typed;
use mc_base::text::{Place, Text};
use mc_c_syntax::ast::{Function, Unit};
use mc_c_types::{Fault, FaultName, FirstFault, NameTables, TypeFault, parameters};
use std::alloc::{AllocError, Global};

/// Notes all faults of a program but recursion and a missing entry.
fn check_plain<'a>(
    alloc: Global,
    told: &mut FirstFault,
    tables: &NameTables<'a>,
    unit: &'a Unit,
) -> Result<(), AllocError>
    requires { tables_held tables.now ≡ tables_of (unit_of unit.now) }
    ensures { OnOk result (told.new.fault ≡ told_of told.old.fault (plain_faults (unit_of unit.now))) }
{
    check_items(alloc, told, tables, unit.items.as_slice())?;
    check_tables(alloc, told, tables, unit.items.as_slice())?;
    Ok(())
}

/// The first fault of a program but for a missing entry.
fn check_rules<'a>(
    alloc: Global,
    tables: &NameTables<'a>,
    unit: &'a Unit,
) -> Result<Option<Fault>, AllocError>
    requires { tables_held tables.now ≡ tables_of (unit_of unit.now) }
    ensures { IfOk result (λ fault. IsToldOfRules (unit_of unit.now) fault) }
{
    let mut told = FirstFault::new();
    check_plain(alloc, &mut told, tables, unit)?;
    check_recursion(alloc, &mut told, tables, unit.items.as_slice())?;
    Ok(told.fault)
}

/// Whether this is a function without parameters that has the entry's name.
fn is_entry(function: &Function, entry: &[u8]) -> bool
    ensures { result ≡ is_entry entry.now (function_of function.now) }
{
    function.body.is_some()
        && function.name.text.as_slice() == entry
        && parameters(function).is_empty()
}

/// Whether one of these is the entry.
fn has_entry(functions: &[&Function], entry: &[u8]) -> bool
    ensures { result ≡ list_any (λ f. is_entry entry.now (function_of f.now)) functions.now }
{
    functions.iter().any(|f| is_entry(f, entry))
}

/// The first fault of a program, and none where it is well typed.
pub fn first_fault(alloc: Global, unit: &Unit, entry: &[u8]) -> Result<Option<Fault>, AllocError>
    ensures { IfOk result (λ fault. IsAnswer (unit_of unit.now) entry.now fault) }
{
    let tables = collect_tables(alloc, unit)?;
    match check_rules(alloc, &tables, unit)? {
        Some(fault) => Ok(Some(fault)),
        None => {
            if has_entry(tables.functions.as_slice(), entry) {
                Ok(None)
            } else {
                Ok(Some(Fault {
                    name: FaultName::NoEntry,
                    place: Place { line: 1, column: 1 },
                }))
            }
        }
    }
}

/// The typed program with its structs, or its first fault.
pub fn check_types(alloc: Global, unit: Unit, entry: &[u8]) -> Result<Typed, TypeFault>
    requires small { HasSmallNumbers (unit_of unit) }
    requires places { AreDistinct (declared_places (unit_of unit)) }
    ensures { MatchResult result (λ typed. Holds typed unit entry.now) (λ fault. IsRefusal (unit_of unit) entry.now fault) }
{
    if let Some(fault) = first_fault(alloc, &unit, entry)? {
        return Err(TypeFault::Refused(fault));
    }
    let structs = struct_infos(alloc, &unit)?;
    let entry = Text::of(alloc, entry)?;
    Ok(Typed::of(unit, entry, structs))
}
