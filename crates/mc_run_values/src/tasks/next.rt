// What the next step does.
use crate::tasks::tasks::Target;
use mc_base::text::Place;
use mc_c_syntax::ast::Comparison;
use mc_semantics::resolved::{AssertShape, AssumeShape, Expression, Initial, RightSide, Simple};

/// An atomic condition, at its first token.
#[derive(Clone, Copy)]
pub enum Atom<'a> {
    /// An expression that is not 0 or null.
    Plain(Place, &'a Expression),
    Compare(Place, Comparison, &'a Expression, &'a Expression),
}

/// What the next step does. It is no longer among what is left.
#[derive(Clone, Copy)]
pub enum Next<'a> {
    /// Nothing is left.
    Done,
    /// The first of the declarators that are left of a declaration.
    Declare(Place, &'a Initial),
    Simple(&'a Simple),
    Free(Place, &'a Expression),
    AssumeShape(&'a AssumeShape),
    AssertShape(&'a AssertShape),
    AssertEmpty(Place),
    Return(Place, &'a Option<RightSide>),
    /// A condition, of which the answer is to be given to `decide`.
    Test(Atom<'a>),
    /// The condition of a `for` that has none.
    Always,
    /// The result of a call is taken, if there is one.
    TakeResult(Target<'a>, Option<i64>),
    /// A `break` or a `continue` with no loop around it. After that, nothing is known of what is left.
    Stuck,
}
