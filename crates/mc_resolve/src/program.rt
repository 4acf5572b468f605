// Functions and whole programs, whose names become numbers.
ghost use Rattle.std.specs.Prelude.{◌≡◌, ◌++◌, ◌∷◌, [], IfOk, OnOk, filter, length, map, option_map, reverse};
ghost use Rattle.mc_c_syntax.specs.Ast.Views.{function_of as named_function, unit_of};
ghost use Rattle.mc_semantics.specs.Resolved.Resolving.{defined_functions, local_of as resolved_local, parameter_scope, resolved_function, resolved_program};
ghost use Rattle.mc_semantics.specs.Resolved.Views.{function_of, local_of, program_of};
ghost use Rattle.mc_c_types.specs.Held.{tables_held, variable_held};
ghost use Rattle.mc_c_types.specs.Tables.{is_defined, kind_of, returned_type, tables_of, variable_of};
ghost use Rattle.mc_resolve.specs.Named.{defined_names, field_names};

use crate::fields::FieldNames;
use crate::functions::FunctionNames;
use crate::gather::body_of;
use crate::locals::{Locals, named};
use crate::naming::Naming;
use crate::statements::resolve_body;
use mc_base::Kind;
use mc_base::text::Text;
use mc_c_check::{Bound, collect_tables};
use mc_c_syntax::ast as tree;
use mc_c_types::{NameTables, Named, VariableType, parameters};
use mc_c_walk::Variables;
use mc_flow::defs::Def;
use mc_semantics::resolved::{Function, Local, Resolved};
use std::alloc::{AllocError, Global};

/// The kind of the values of a type.
fn kind_of(variable_type: VariableType) -> Kind
    ensures { result ≡ kind_of variable_type }
{
    match variable_type {
        VariableType::Int => Kind::Int,
        VariableType::Pointer(_) => Kind::Ptr,
        VariableType::Anything => Kind::Int,
    }
}

/// The kind of the values of a type, if there is one.
fn maybe_kind(variable_type: Option<VariableType>) -> Option<Kind>
    ensures { result ≡ option_map kind_of variable_type }
{
    match variable_type {
        None => None,
        Some(variable_type) => Some(kind_of(variable_type)),
    }
}

/// A variable of a function.
fn resolve_local(alloc: Global, variable: Named) -> Result<Local, AllocError>
    ensures { IfOk result (λ local. local_of local ≡ resolved_local (variable_held variable.entry)) }
{
    Ok(Local {
        name: Text::of(alloc, variable.name.as_slice())?,
        place: variable.place,
        kind: kind_of(variable.variable_type),
    })
}

/// The variables of a function.
fn list_locals(alloc: Global, variables: &[Named]) -> Result<Vec<Local>, AllocError>
    ensures { IfOk result (λ locals. map local_of locals.items ≡ map resolved_local (map variable_held variables.now)) }
{
    let mut locals = Vec::with_capacity(alloc, variables.len())?;
    for variable in variables {
        locals.push(resolve_local(alloc, *variable)?)?;
    }
    Ok(locals)
}

/// The scope of the body of a function, where its parameters are in the block of the body.
fn body_scope<'a>(
    alloc: Global,
    tables: &NameTables,
    function: &'a tree::Function,
) -> Result<Variables<'a>, AllocError>
    ensures { IfOk result (λ scope. scope ≡ parameter_scope (tables_held tables.now) (named_function function.now)) }
{
    let mut scope = Variables::new(alloc);
    let listed = parameters(function);
    for parameter in listed {
        scope.declare(named(tables, &parameter.base, &parameter.declarator))?;
    }
    Ok(scope)
}

/// A function with its names resolved, among structs and functions that are known by their names.
fn resolve_function<'a>(
    alloc: Global,
    tables: &NameTables<'a>,
    fields: &FieldNames<'a>,
    functions: &FunctionNames<'a>,
    defs: &[Def],
    function: &'a tree::Function,
) -> Result<Function, AllocError>
    requires fields { fields.now.structs.items ≡ field_names (tables_held tables.now) }
    requires functions { functions.now.names ≡ defined_names (tables_held tables.now) }
    ensures { IfOk result (λ made. function_of made ≡ resolved_function (tables_held tables.now) defs.now (named_function function.now)) }
{
    let locals = Locals::of(alloc, tables, function)?;
    let naming = Naming {
        tables,
        fields,
        functions,
        locals: &locals,
        defs,
    };
    let scope = body_scope(alloc, tables, function)?;
    let body = resolve_body(alloc, naming, scope, body_of(function))?;
    Ok(Function {
        name: Text::of(alloc, function.name.text.as_slice())?,
        locals: list_locals(alloc, locals.as_slice())?,
        parameters: parameters(function).len(),
        result: maybe_kind(tables.returned_type(&function.returned)),
        body,
    })
}

/// A function, with its names resolved, comes to the end if it is defined.
fn push_defined<'a>(
    alloc: Global,
    tables: &NameTables<'a>,
    fields: &FieldNames<'a>,
    functions: &FunctionNames<'a>,
    defs: &[Def],
    function: &'a tree::Function,
    made: &mut Vec<Function>,
) -> Result<(), AllocError>
    requires fields { fields.now.structs.items ≡ field_names (tables_held tables.now) }
    requires functions { functions.now.names ≡ defined_names (tables_held tables.now) }
    ensures { OnOk result (map function_of made.new.items
        ≡ map function_of made.old.items
        ++ map (resolved_function (tables_held tables.now) defs.now)
        (filter is_defined (named_function function.now ∷ []))) }
{
    if function.body.is_some() {
        made.push(resolve_function(alloc, tables, fields, functions, defs, function)?)?;
    }
    Ok(())
}

/// The functions of a program that are defined, with their names resolved.
fn resolve_functions<'a>(
    alloc: Global,
    tables: &NameTables<'a>,
    functions: &FunctionNames<'a>,
    defs: &[Def],
) -> Result<Vec<Function>, AllocError>
    requires { functions.now.names ≡ defined_names (tables_held tables.now) }
    ensures { IfOk result (λ made. map function_of made.items
        ≡ map (resolved_function (tables_held tables.now) defs.now) (defined_functions (tables_held tables.now))) }
{
    let fields = FieldNames::new(alloc, tables)?;
    let mut made = Vec::new(alloc);
    for function in tables.functions.as_slice() {
        push_defined(alloc, tables, &fields, functions, defs, function, &mut made)?;
    }
    Ok(made)
}

/// The program with its names resolved.
///
/// # Errors
///
/// Memory runs out.
pub fn resolve(alloc: Global, bound: &Bound) -> Result<Resolved, AllocError>
    ensures { IfOk result (λ made. program_of made bound.now.defs
        ≡ resolved_program (tables_of (unit_of bound.now.typed.unit)) bound.now.defs bound.now.typed.entry) }
{
    let typed = bound.typed();
    let tables = collect_tables(alloc, typed.unit())?;
    let names = FunctionNames::new(alloc, &tables)?;
    let entry = Text::of(alloc, typed.entry())?;
    let functions = resolve_functions(alloc, &tables, &names, bound.defs().as_slice())?;
    Ok(Resolved {
        functions,
        entry: names.number(&entry),
    })
}
