// Expressions, whose names become numbers; a loop, so that none is too deep.
ghost use Rattle.std.specs.Prelude.{◌≡◌, ◌+◌, ◌<◌, ◌∷◌, IfOk, OnOk, map};
ghost use Rattle.mc_c_syntax.specs.Ast.Views.{expression_of as named_expression};
ghost use Rattle.mc_semantics.specs.Resolved.Resolving.{resolved_expression};
ghost use Rattle.mc_semantics.specs.Resolved.Views.{expression_of};
ghost use Rattle.mc_resolve.specs.Builds.{built, expression_steps, join_of, joined, signed, work_steps};
ghost use Rattle.mc_resolve.specs.Named.{IsNumbered, naming_at, visible_at};
ghost use Rattle.mc_resolve.specs.declared.expression.Work.TheVariants as Work;

use crate::naming::NamesHere;
use mc_base::stack::Stack;
use mc_c_syntax::ast as tree;
use mc_semantics::resolved::Expression;
use std::alloc::{AllocError, Global};

/// How two values are joined.
#[derive(Clone, Copy)]
enum How {
    Times,
    Plus,
    Difference,
}

/// What is still to be made: a whole expression, or one of what is made last.
#[derive(Clone, Copy)]
enum Work<'a> {
    Whole(&'a tree::Expression),
    Minus,
    Two(How),
}

/// Two expressions, joined.
fn join(
    alloc: Global,
    how: How,
    left: Expression,
    right: Expression,
) -> Result<Expression, AllocError>
    ensures { IfOk result (λ e. expression_of e ≡ join_of how (expression_of left) (expression_of right)) }
{
    let left = Box::new(alloc, left)?;
    let right = Box::new(alloc, right)?;
    Ok(match how {
        How::Times => Expression::Times(left, right),
        How::Plus => Expression::Plus(left, right),
        How::Difference => Expression::Difference(left, right),
    })
}

/// The last one gets a sign.
fn sign_last(alloc: Global, made: &mut Stack<Expression>) -> Result<(), AllocError>
    ensures { OnOk result (map expression_of made.new ≡ signed (map expression_of made.old)) }
{
    if let Some(last) = made.pop() {
        made.push(Expression::Minus(Box::new(alloc, last)?))?;
    }
    Ok(())
}

/// The last two are joined.
fn join_last(alloc: Global, how: How, made: &mut Stack<Expression>) -> Result<(), AllocError>
    ensures { OnOk result (map expression_of made.new ≡ joined (join_of how) (map expression_of made.old)) }
{
    let Some(right) = made.pop() else {
        return Ok(());
    };
    match made.pop() {
        Some(left) => made.push(join(alloc, how, left, right)?)?,
        None => made.push(right)?,
    }
    Ok(())
}

/// Both parts are next, the left one first, and then they are joined.
fn enter_join<'a>(
    work: &mut Stack<Work<'a>>,
    how: How,
    left: &'a tree::Expression,
    right: &'a tree::Expression,
) -> Result<(), AllocError>
    ensures { OnOk result (work.new ≡ Work.Whole left.entry ∷ Work.Whole right.entry ∷ Work.Two how ∷ work.old) }
{
    work.push(Work::Two(how))?;
    work.push(Work::Whole(right))?;
    work.push(Work::Whole(left))
}

/// An expression is made, or its parts are next.
fn enter<'a>(
    alloc: Global,
    names: NamesHere,
    expression: &'a tree::Expression,
    work: &mut Stack<Work<'a>>,
    made: &mut Stack<Expression>,
) -> Result<(), AllocError>
    requires { IsNumbered names.naming }
    ensures built { OnOk result (built (naming_at names.entry) (visible_at names.entry) work.new
        (map expression_of made.new) ≡ built (naming_at names.entry) (visible_at names.entry) work.old
        (resolved_expression (naming_at names.entry) (visible_at names.entry) (named_expression expression.now)
        ∷ map expression_of made.old)) }
    ensures steps { OnOk result (work_steps work.new < expression_steps (named_expression expression.now) + work_steps work.old) }
{
    match expression {
        tree::Expression::Number(number, _) => made.push(Expression::Number(*number))?,
        tree::Expression::Null(_) => made.push(Expression::Number(0))?,
        tree::Expression::Input(_) => made.push(Expression::Input)?,
        tree::Expression::Value(left) => made.push(Expression::Value(names.left(alloc, left)?))?,
        tree::Expression::Minus(_, inner) => {
            work.push(Work::Minus)?;
            work.push(Work::Whole(inner))?;
        }
        tree::Expression::Parens(_, inner) => work.push(Work::Whole(inner))?,
        tree::Expression::Times(left, right) => enter_join(work, How::Times, left, right)?,
        tree::Expression::Plus(left, right) => enter_join(work, How::Plus, left, right)?,
        tree::Expression::Difference(left, right) => enter_join(
            work,
            How::Difference,
            left,
            right,
        )?,
    }
    Ok(())
}

/// What is next is done.
fn step<'a>(
    alloc: Global,
    names: NamesHere,
    next: Work<'a>,
    work: &mut Stack<Work<'a>>,
    made: &mut Stack<Expression>,
) -> Result<(), AllocError>
    requires { IsNumbered names.naming }
    ensures built { OnOk result (built (naming_at names.entry) (visible_at names.entry) work.new
        (map expression_of made.new) ≡ built (naming_at names.entry) (visible_at names.entry)
        (next.entry ∷ work.old) (map expression_of made.old)) }
    ensures steps { OnOk result (work_steps work.new < work_steps (next.entry ∷ work.old)) }
{
    match next {
        Work::Whole(expression) => enter(alloc, names, expression, work, made)?,
        Work::Minus => sign_last(alloc, made)?,
        Work::Two(how) => join_last(alloc, how, made)?,
    }
    Ok(())
}

/// The expression with its names resolved.
pub fn resolve_expression(
    alloc: Global,
    names: NamesHere,
    expression: &tree::Expression,
) -> Result<Expression, AllocError>
    requires { IsNumbered names.naming }
    ensures { IfOk result (λ e. expression_of e
        ≡ resolved_expression (naming_at names.entry) (visible_at names.entry) (named_expression expression.now)) }
{
    let mut work = Stack::new(alloc);
    let mut made = Stack::new(alloc);
    work.push(Work::Whole(expression))?;
    while let Some(next) = work.pop() {
        step(alloc, names, next, &mut work, &mut made)?;
    }
    let Some(whole) = made.pop() else {
        return Ok(Expression::Input);
    };
    Ok(whole)
}
