// Loops are entered, and conditions put.
ghost use Rattle.std.specs.Prelude.{◌≡◌, OnOk, [], None, Some};
ghost use Rattle.mc_semantics.specs.Resolved.Configs.{again, done, end_loop, task, test};
ghost use Rattle.mc_semantics.specs.Resolved.Moves.{started, tested, turn};
ghost use Rattle.mc_semantics.specs.Resolved.Views.{condition_of, head_of, start_of, statement_of};
ghost use Rattle.mc_run_values.specs.Tasks.Left.{asked, awaited, condition_in, entered_for, left, turn_of};

use crate::tasks::tasks::{Task, Turns, Waiting, push_turn};
use mc_base::NoMemory;
use mc_base::stack::Stack;
use mc_semantics::resolved::{Condition, ForHead, ForStart, Statement};

/// A condition is to be tested, and this waits for its answer.
pub fn push_test<'a>(
    tasks: &mut Stack<Task<'a>>,
    waiting: Waiting<'a>,
    condition: &'a Condition,
) -> Result<(), NoMemory>
    ensures { OnOk result (let branches = awaited waiting.entry (left tasks.old) (asked tasks.old) in
        left tasks.new ≡ task (test (condition_of condition.now) branches.0 branches.1) done) }
{
    tasks.push(Task::Waits(waiting))?;
    tasks.push(Task::Test(condition))
}

/// A loop is at its condition, if it has one.
pub fn push_again<'a>(tasks: &mut Stack<Task<'a>>, turns: Turns<'a>) -> Result<(), NoMemory>
    ensures { OnOk result (left tasks.new
        ≡ tested (condition_in turns.entry) (turn_of turns.entry (left tasks.old)) (left tasks.old)) }
{
    match turns.condition {
        None => tasks.push(Task::Always(turns)),
        Some(condition) => push_test(tasks, Waiting::Loop(turns), condition),
    }
}

/// A `while` is entered.
pub fn push_while<'a>(
    tasks: &mut Stack<Task<'a>>,
    condition: &'a Condition,
    body: &'a Statement,
) -> Result<(), NoMemory>
    ensures { OnOk result (let a = again (Some (condition_of condition.now)) (statement_of body.now) None in
        left tasks.new ≡ task a (task (end_loop []) (left tasks.old))) }
{
    let turns = Turns {
        condition: Some(condition),
        body,
        last: None,
    };
    tasks.push(Task::EndLoop(&[]))?;
    tasks.push(Task::Again(turns))
}

/// A `do` is entered.
pub fn push_do<'a>(
    tasks: &mut Stack<Task<'a>>,
    body: &'a Statement,
    condition: &'a Condition,
) -> Result<(), NoMemory>
    ensures { OnOk result (let c = Some (condition_of condition.now) in
        left tasks.new ≡ turn c (statement_of body.now) None (task (end_loop []) (left tasks.old))) }
{
    let turns = Turns {
        condition: Some(condition),
        body,
        last: None,
    };
    tasks.push(Task::EndLoop(&[]))?;
    push_turn(tasks, turns)
}

/// A `for` is entered.
pub fn push_for<'a>(
    tasks: &mut Stack<Task<'a>>,
    head: &'a ForHead,
    body: &'a Statement,
) -> Result<(), NoMemory>
    ensures { OnOk result (left tasks.new
        ≡ entered_for (head_of head.now) (statement_of body.now) (left tasks.old)) }
{
    let turns = Turns {
        condition: head.condition.as_ref(),
        body,
        last: head.last.as_ref(),
    };
    tasks.push(Task::EndLoop(head.variables.as_slice()))?;
    tasks.push(Task::Again(turns))?;
    push_start(tasks, &head.start)
}

/// What a `for` begins with is next.
fn push_start<'a>(tasks: &mut Stack<Task<'a>>, start: &'a ForStart) -> Result<(), NoMemory>
    ensures { OnOk result (left tasks.new ≡ started (start_of start.now) (left tasks.old)) }
{
    match start {
        ForStart::Nothing => Ok(()),
        ForStart::Declaration(place, items) => {
            tasks.push(Task::Declare(*place, items.as_slice()))
        }
        ForStart::Simple(simple) => tasks.push(Task::Simple(simple)),
    }
}
