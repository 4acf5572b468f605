// Expressions and conditions of smaller ones.
ghost use Rattle.std.specs.Prelude.{◌≡◌, IfOk};
ghost use Rattle.mc_c_syntax.specs.Ast.Trees.{minus, parens, times, plus, difference, compare, negation, enclosed, both, either};
ghost use Rattle.mc_c_syntax.specs.Ast.Views.{expression_of, condition_of};

use mc_base::text::Place;
use mc_c_syntax::ast::{Comparison, Condition, Expression};
use std::alloc::{AllocError, Global};

pub fn minus_of(alloc: Global, place: Place, operand: Expression) -> Result<Expression, AllocError>
    ensures { IfOk result (λ e. expression_of e ≡ minus place (expression_of operand)) }
{
    Ok(Expression::Minus(place, Box::new(alloc, operand)?))
}

pub fn parens_of(alloc: Global, place: Place, inner: Expression) -> Result<Expression, AllocError>
    ensures { IfOk result (λ e. expression_of e ≡ parens place (expression_of inner)) }
{
    Ok(Expression::Parens(place, Box::new(alloc, inner)?))
}

pub fn times_of(
    alloc: Global,
    left: Expression,
    right: Expression,
) -> Result<Expression, AllocError>
    ensures { IfOk result (λ e. expression_of e ≡ times (expression_of left) (expression_of right)) }
{
    Ok(Expression::Times(Box::new(alloc, left)?, Box::new(alloc, right)?))
}

pub fn plus_of(alloc: Global, left: Expression, right: Expression) -> Result<Expression, AllocError>
    ensures { IfOk result (λ e. expression_of e ≡ plus (expression_of left) (expression_of right)) }
{
    Ok(Expression::Plus(Box::new(alloc, left)?, Box::new(alloc, right)?))
}

pub fn less_of(alloc: Global, left: Expression, right: Expression) -> Result<Expression, AllocError>
    ensures { IfOk result (λ e. expression_of e ≡ difference (expression_of left) (expression_of right)) }
{
    Ok(Expression::Difference(Box::new(alloc, left)?, Box::new(alloc, right)?))
}

pub fn compare_of(
    alloc: Global,
    mark: Comparison,
    left: Expression,
    right: Expression,
) -> Result<Condition, AllocError>
    ensures { IfOk result (λ c. condition_of c ≡ compare mark (expression_of left) (expression_of right)) }
{
    let left = Box::new(alloc, left)?;
    Ok(Condition::Compare(mark, left, Box::new(alloc, right)?))
}

pub fn not_of(alloc: Global, place: Place, inner: Condition) -> Result<Condition, AllocError>
    ensures { IfOk result (λ c. condition_of c ≡ negation place (condition_of inner)) }
{
    Ok(Condition::Not(place, Box::new(alloc, inner)?))
}

pub fn enclosed_of(alloc: Global, place: Place, inner: Condition) -> Result<Condition, AllocError>
    ensures { IfOk result (λ c. condition_of c ≡ enclosed place (condition_of inner)) }
{
    Ok(Condition::Parens(place, Box::new(alloc, inner)?))
}

pub fn both_of(alloc: Global, left: Condition, right: Condition) -> Result<Condition, AllocError>
    ensures { IfOk result (λ c. condition_of c ≡ both (condition_of left) (condition_of right)) }
{
    Ok(Condition::Both(Box::new(alloc, left)?, Box::new(alloc, right)?))
}

pub fn either_of(alloc: Global, left: Condition, right: Condition) -> Result<Condition, AllocError>
    ensures { IfOk result (λ c. condition_of c ≡ either (condition_of left) (condition_of right)) }
{
    Ok(Condition::Either(Box::new(alloc, left)?, Box::new(alloc, right)?))
}
