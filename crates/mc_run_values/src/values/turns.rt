// What is left of an expression while a part of it is evaluated.
use crate::values::numbers::Operation;
use crate::values::refusal::Evaluated;
use mc_semantics::resolved::Expression;

/// What waits for a value.
#[derive(Drop)]
pub enum Pending<'a> {
    /// The right side of an operation, which waits for the left one.
    Right(Operation, &'a Expression),
    /// An operation with its left value, which waits for the right one.
    Apply(Operation, Option<i64>),
}

/// What is at hand.
#[derive(Drop)]
pub enum Hand<'a> {
    Expression(&'a Expression),
    Value(Option<i64>),
}

/// What comes of a turn.
#[derive(Drop)]
pub enum Turn<'a> {
    Goes(Hand<'a>),
    Ends(Evaluated),
}
