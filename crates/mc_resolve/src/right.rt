// Calls, right sides and simple statements, whose names become numbers.
ghost use Rattle.std.specs.Prelude.{◌≡◌, IfOk, map};
ghost use Rattle.mc_c_syntax.specs.Ast.Views.{call_of as named_call, expression_of as named_expression, right_of as named_right, simple_of as named_simple};
ghost use Rattle.mc_semantics.specs.Steps.{simple_place, struct_of};
ghost use Rattle.mc_semantics.specs.Resolved.Resolving.{allocated_struct, resolved_action, resolved_call, resolved_expression, resolved_right, resolved_simple};
ghost use Rattle.mc_semantics.specs.Resolved.Views.{action_of, call_of, expression_of, right_of, simple_of};
ghost use Rattle.mc_c_types.specs.Faults.{size_meaning};
ghost use Rattle.mc_c_types.specs.Held.{tables_held};
ghost use Rattle.mc_resolve.specs.Named.{IsNumbered, naming_at, visible_at};

use crate::expression::resolve_expression;
use crate::naming::NamesHere;
use mc_base::StructId;
use mc_base::text::Place;
use mc_c_syntax::ast as tree;
use mc_c_types::BaseType;
use mc_semantics::resolved::{Action, Call, Expression, RightSide, Simple};
use std::alloc::{AllocError, Global};

/// The arguments of a call, where the call stands.
fn resolve_arguments(
    alloc: Global,
    names: NamesHere,
    arguments: &[tree::Expression],
) -> Result<Vec<Expression>, AllocError>
    requires { IsNumbered names.naming }
    ensures { IfOk result (λ made. map expression_of made.items
        ≡ map (resolved_expression (naming_at names.entry) (visible_at names.entry))
        (map named_expression arguments.now)) }
{
    let mut made = Vec::new(alloc);
    for argument in arguments {
        made.push(resolve_expression(alloc, names, argument)?)?;
    }
    Ok(made)
}

/// A call.
fn resolve_call(alloc: Global, names: NamesHere, call: &tree::Call) -> Result<Call, AllocError>
    requires { IsNumbered names.naming }
    ensures { IfOk result (λ made. call_of made ≡ resolved_call (naming_at names.entry) (visible_at names.entry) (named_call call.now)) }
{
    let arguments = resolve_arguments(alloc, names, call.arguments.as_slice())?;
    Ok(Call {
        function: names.function(&call.function.text),
        arguments,
    })
}

/// The struct that a base names, and 0 where it names none.
fn struct_of(base: BaseType) -> StructId
    ensures { result.0 ≡ struct_of base }
{
    match base {
        BaseType::Typed(_) => StructId(0),
        BaseType::Struct(shape) => shape,
        BaseType::Undefined => StructId(0),
    }
}

/// The struct that is allocated.
fn allocated(names: NamesHere, size: &tree::Size) -> StructId
    ensures { result.0 ≡ struct_of (size_meaning (tables_held names.entry.naming.tables.now) (visible_at names.entry) size.now) }
{
    match size {
        tree::Size::OfType(_, base) => struct_of(names.naming.tables.meaning(base)),
        tree::Size::OfParens(_, name) => struct_of(names.variable_type(name).pointed()),
        tree::Size::OfValue(_, name) => struct_of(names.variable_type(name).pointed()),
    }
}

/// The right side of an assignment.
pub fn resolve_right(
    alloc: Global,
    names: NamesHere,
    right: &tree::RightSide,
) -> Result<RightSide, AllocError>
    requires { IsNumbered names.naming }
    ensures { IfOk result (λ made. right_of made
        ≡ resolved_right (naming_at names.entry) (visible_at names.entry) (named_right right.now)) }
{
    match right {
        tree::RightSide::Expression(value) => {
            Ok(RightSide::Expression(resolve_expression(alloc, names, value)?))
        }
        tree::RightSide::Call(call) => Ok(RightSide::Call(resolve_call(alloc, names, call)?)),
        tree::RightSide::Malloc(malloc) => {
            let shape = allocated(names, &malloc.size);
            Ok(RightSide::Malloc(shape, names.field_count(shape)))
        }
    }
}

/// The first token of a simple statement.
fn simple_place(simple: &tree::Simple) -> Place
    ensures { result ≡ simple_place (named_simple simple.now) }
{
    match simple {
        tree::Simple::Assign(left, _) => left.name.place,
        tree::Simple::Add(left, _) => left.name.place,
        tree::Simple::Subtract(left, _) => left.name.place,
        tree::Simple::Increment(left) => left.name.place,
        tree::Simple::Decrement(left) => left.name.place,
        tree::Simple::IncrementFirst(place, _) => *place,
        tree::Simple::DecrementFirst(place, _) => *place,
        tree::Simple::Call(call) => call.function.place,
    }
}

/// What a simple statement does.
fn resolve_action(
    alloc: Global,
    names: NamesHere,
    simple: &tree::Simple,
) -> Result<Action, AllocError>
    requires { IsNumbered names.naming }
    ensures { IfOk result (λ made. action_of made
        ≡ resolved_action (naming_at names.entry) (visible_at names.entry) (named_simple simple.now)) }
{
    match simple {
        tree::Simple::Assign(left, right) => {
            let left = names.left(alloc, left)?;
            Ok(Action::Assign(left, resolve_right(alloc, names, right)?))
        }
        tree::Simple::Add(left, value) => {
            let left = names.left(alloc, left)?;
            Ok(Action::Add(left, resolve_expression(alloc, names, value)?))
        }
        tree::Simple::Subtract(left, value) => {
            let left = names.left(alloc, left)?;
            Ok(Action::Subtract(left, resolve_expression(alloc, names, value)?))
        }
        tree::Simple::Increment(left) => {
            Ok(Action::Add(names.left(alloc, left)?, Expression::Number(1)))
        }
        tree::Simple::Decrement(left) => {
            Ok(Action::Subtract(names.left(alloc, left)?, Expression::Number(1)))
        }
        tree::Simple::IncrementFirst(_, left) => {
            Ok(Action::Add(names.left(alloc, left)?, Expression::Number(1)))
        }
        tree::Simple::DecrementFirst(_, left) => {
            Ok(Action::Subtract(names.left(alloc, left)?, Expression::Number(1)))
        }
        tree::Simple::Call(call) => Ok(Action::Call(resolve_call(alloc, names, call)?)),
    }
}

/// The simple statement with its names resolved.
pub fn resolve_simple(
    alloc: Global,
    names: NamesHere,
    simple: &tree::Simple,
) -> Result<Simple, AllocError>
    requires { IsNumbered names.naming }
    ensures { IfOk result (λ made. simple_of made
        ≡ resolved_simple (naming_at names.entry) (visible_at names.entry) (named_simple simple.now)) }
{
    let action = resolve_action(alloc, names, simple)?;
    Ok(Simple {
        place: simple_place(simple),
        action,
    })
}
