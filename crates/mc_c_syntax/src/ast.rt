//! The trees of programs, and the grammar that says how they are spelled.

mod class;
mod trees;

pub use class::{Class, classify, is_one_of, is_reserved, name_at};
pub use trees::{
    Aliased, Argument, AssertShape, AssumeShape, Base, Body, Call, Cast, Comparison, Condition,
    Declaration, Declarator, Expression, Field, ForHead, ForStart, Function, Initial, Item,
    LeftValue, Malloc, Name, Parameter, Parameters, Returned, RightSide, Simple, Size, Statement,
    Struct, Typedef, Unit,
};
