// The parts of a body.
use mc_base::text::Place;
use mc_c_syntax::ast::{
    AssertShape, AssumeShape, Base, Condition, Declarator, Expression, RightSide, Simple,
};

/// A part of a statement.
#[derive(Clone, Copy)]
pub enum Part<'a> {
    /// A declarator, before its variable is there.
    Declared(&'a Base, &'a Declarator),
    /// The value of a declarator, if it has one, after it.
    Valued(&'a Base, &'a Declarator, &'a Option<RightSide>),
    /// A simple statement, also in the head of a `for`.
    Performed(&'a Simple),
    /// What a `free` gets.
    Freed(&'a Expression),
    /// The condition of an `assert`, an `assume`, an `if` or a loop.
    Tested(&'a Condition),
    Assumed(&'a AssumeShape),
    Asserted(&'a AssertShape),
    /// A `break` or a `continue`, and whether a loop is around it.
    LoopExit(Place, bool),
    /// A `return`, perhaps with a value.
    Returning(Place, &'a Option<RightSide>),
}
