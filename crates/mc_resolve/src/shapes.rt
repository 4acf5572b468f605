// The predicates and arguments of shape commands, whose names become numbers.
ghost use Rattle.std.specs.Prelude.{◌≡◌, IfOk, map, pos, ◌-ℤ◌};
ghost use Rattle.mc_semantics.specs.Resolved.Resolving.{resolved_argument, resolved_statement};
ghost use Rattle.mc_c_syntax.specs.Ast.Trees.{assert_shape, assume_shape};
ghost use Rattle.mc_semantics.specs.Resolved.Views.{argument_of, statement_of};
ghost use Rattle.mc_resolve.specs.Named.{naming_at, visible_at};

use crate::naming::NamesHere;
use mc_c_syntax::ast as tree;
use mc_semantics::resolved::{Argument, AssertShape, AssumeShape, Statement};
use std::alloc::{AllocError, Global};

/// A number.
fn constant(number: u32) -> i64
    ensures { result ≡ pos number }
{
    i64::from(number)
}

/// A number below zero.
fn below_zero(number: u32) -> i64
    ensures { result ≡ pos 0 -ℤ pos number }
{
    -i64::from(number)
}

/// An argument of a shape command.
pub fn resolve_argument(names: NamesHere, argument: &tree::Argument) -> Argument
    ensures { argument_of result ≡ resolved_argument (naming_at names.entry) (visible_at names.entry) argument.now }
{
    match argument {
        tree::Argument::Name(name) => Argument::Variable(names.variable(name)),
        tree::Argument::Null(_) => Argument::Constant(constant(0)),
        tree::Argument::Number(number, _) => Argument::Constant(constant(*number)),
        tree::Argument::Negative(number, _) => Argument::Constant(below_zero(*number)),
    }
}

/// The arguments of a shape command.
pub fn resolve_shape_arguments(
    alloc: Global,
    names: NamesHere,
    arguments: &[tree::Argument],
) -> Result<Vec<Argument>, AllocError>
    ensures { IfOk result (λ made. map argument_of made.items
        ≡ map (resolved_argument (naming_at names.entry) (visible_at names.entry)) arguments.now) }
{
    let mut made = Vec::new(alloc);
    for argument in arguments {
        made.push(resolve_argument(names, argument))?;
    }
    Ok(made)
}

/// `assume_shape(..);`
pub fn resolve_assume_shape(
    alloc: Global,
    names: NamesHere,
    shape: &tree::AssumeShape,
) -> Result<Statement, AllocError>
    ensures { IfOk result
        (λ made. statement_of made
        ≡ resolved_statement (naming_at names.entry) names.entry.scope.now
        (assume_shape shape.now.place shape.now.predicate shape.now.variable shape.now.arguments.items)) }
{
    let arguments = resolve_shape_arguments(alloc, names, shape.arguments.as_slice())?;
    Ok(Statement::AssumeShape(AssumeShape {
        place: shape.place,
        predicate: names.predicate(&shape.predicate),
        variable: names.variable(&shape.variable),
        arguments,
    }))
}

/// `assert_shape(..);`
pub fn resolve_assert_shape(
    alloc: Global,
    names: NamesHere,
    shape: &tree::AssertShape,
) -> Result<Statement, AllocError>
    ensures { IfOk result
        (λ made. statement_of made
        ≡ resolved_statement (naming_at names.entry) names.entry.scope.now
        (assert_shape shape.now.place shape.now.predicate shape.now.start shape.now.arguments.items)) }
{
    let arguments = resolve_shape_arguments(alloc, names, shape.arguments.as_slice())?;
    Ok(Statement::AssertShape(AssertShape {
        place: shape.place,
        predicate: names.predicate(&shape.predicate),
        start: resolve_argument(names, &shape.start),
        arguments,
    }))
}
