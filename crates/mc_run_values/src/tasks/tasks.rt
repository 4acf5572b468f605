// What is left to do, one thing after the other.
ghost use Rattle.std.specs.Prelude.{◌≡◌, OnOk, map};
ghost use Rattle.mc_semantics.specs.Resolved.Moves.{given, in_a_row};
ghost use Rattle.mc_semantics.specs.Resolved.Views.{statement_of, stmts_of};
ghost use Rattle.mc_run_values.specs.Tasks.Left.{left, target_of, turn_of};

use mc_base::NoMemory;
use mc_base::stack::Stack;
use mc_base::text::Place;
use mc_semantics::resolved::{Condition, Initial, LeftValue, Simple, Statement};

/// Where the result of a call goes.
#[derive(Clone, Copy)]
pub enum Target<'a> {
    Nowhere,
    /// Into a variable, by its declarator at the place.
    Variable(usize, Place),
    /// Into a variable or a field, by a statement at the place.
    Stored(&'a LeftValue, Place),
    /// Back to the caller, by a `return` at the place.
    Returned(Place),
}

/// A loop: its condition, if it has one, its body, and what ends a turn of a `for`.
#[derive(Clone, Copy)]
pub struct Turns<'a> {
    pub condition: Option<&'a Condition>,
    pub body: &'a Statement,
    pub last: Option<&'a Simple>,
}

/// What waits for the answer of the condition above it.
#[derive(Clone, Copy)]
pub enum Waiting<'a> {
    /// `!`
    Not,
    /// `&&`, with its right side.
    Both(&'a Condition),
    /// `||`, with its right side.
    Either(&'a Condition),
    Assert(Place),
    Assume,
    If(&'a Statement),
    IfElse(&'a Statement, &'a Statement),
    Loop(Turns<'a>),
}

/// A thing to do.
#[derive(Drop)]
pub enum Task<'a> {
    /// A statement, and those after it in its row.
    Perform(&'a Statement, &'a [Statement]),
    /// Declarators of a declaration.
    Declare(Place, &'a [Initial]),
    /// A simple statement in the head of a `for`.
    Simple(&'a Simple),
    Again(Turns<'a>),
    /// A turn of a loop without a condition.
    Always(Turns<'a>),
    Test(&'a Condition),
    Waits(Waiting<'a>),
    /// The end of a block, whose variables are undefined after it.
    EndBlock(&'a [usize]),
    /// The end of a loop, the same.
    EndLoop(&'a [usize]),
    EndTurn,
    /// The end of a function, with what the variables of its caller hold.
    EndCall(Vec<Option<i64>>, Target<'a>),
    TakeResult(Target<'a>, Option<i64>),
}

/// The statements of a row are next.
pub fn push_row<'a>(tasks: &mut Stack<Task<'a>>, row: &'a [Statement]) -> Result<(), NoMemory>
    ensures { OnOk result (left tasks.new ≡ in_a_row (stmts_of (map statement_of row.now)) (left tasks.old)) }
{
    if let [first, more @ ..] = row {
        tasks.push(Task::Perform(first, more))?;
    }
    Ok(())
}

/// One turn of a loop is next, and then the loop again.
pub fn push_turn<'a>(tasks: &mut Stack<Task<'a>>, turns: Turns<'a>) -> Result<(), NoMemory>
    ensures { OnOk result (left tasks.new ≡ turn_of turns.entry (left tasks.old)) }
{
    tasks.push(Task::Again(turns))?;
    if let Some(last) = turns.last {
        tasks.push(Task::Simple(last))?;
    }
    tasks.push(Task::EndTurn)?;
    tasks.push(Task::Perform(turns.body, &[]))
}

/// The result of a call is next, if it is wanted.
pub fn push_result<'a>(
    tasks: &mut Stack<Task<'a>>,
    target: Target<'a>,
    value: Option<i64>,
) -> Result<(), NoMemory>
    ensures { OnOk result (left tasks.new ≡ given (target_of target.entry) value (left tasks.old)) }
{
    match target {
        Target::Nowhere => Ok(()),
        Target::Variable(variable, place) => {
            tasks.push(Task::TakeResult(Target::Variable(variable, place), value))
        }
        Target::Stored(left_value, place) => {
            tasks.push(Task::TakeResult(Target::Stored(left_value, place), value))
        }
        Target::Returned(place) => tasks.push(Task::TakeResult(Target::Returned(place), value)),
    }
}
