//! Programs with their names resolved, which run as the programs with names do.

mod laws;
mod program;

pub use laws::{
    resolved_programs_run_alike, resolved_programs_stand_alike, small_programs_are_resolved,
};
pub use program::{
    Action, Argument, AssertShape, AssumeShape, Call, Condition, Expression, FieldAt, ForHead,
    ForStart, Function, Initial, LeftValue, Local, Resolved, RightSide, Simple, Statement,
};
