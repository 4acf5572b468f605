// Where the answer of a condition leads.
ghost use Rattle.std.specs.Prelude.{IfOk};
ghost use Rattle.mc_run_values.specs.Tasks.Left.{asked, awaited, left};
ghost use Rattle.mc_run_values.specs.Tasks.Leading.{Leads};

use crate::tasks::tasks::{Task, Waiting, push_turn};
use mc_base::NoMemory;
use mc_base::stack::Stack;
use mc_base::text::Place;

/// Where a condition led.
#[derive(Clone, Copy, Debug, PartialEq, Eq)]
pub enum Decided {
    /// To what is left now.
    GoesOn,
    /// To a fault of an assertion at the place.
    Fails(Place),
    /// To the end of the run.
    Stops,
}

/// Where the part of a condition led.
#[derive(Clone, Copy)]
pub enum Led {
    To(Decided),
    /// The condition around has this answer.
    Around(bool),
}

/// The condition on which this waited has an answer.
pub fn lead<'a>(
    tasks: &mut Stack<Task<'a>>,
    waiting: Waiting<'a>,
    answer: bool,
) -> Result<Led, NoMemory>
    ensures { IfOk result (λ led. let branches = awaited waiting.entry (left tasks.old) (asked tasks.old) in
        Leads tasks.old answer branches led tasks.new) }
{
    match waiting {
        Waiting::Not => Ok(Led::Around(!answer)),
        Waiting::Both(right) => {
            if !answer {
                return Ok(Led::Around(false));
            }
            tasks.push(Task::Test(right))?;
            Ok(Led::To(Decided::GoesOn))
        }
        Waiting::Either(right) => {
            if answer {
                return Ok(Led::Around(true));
            }
            tasks.push(Task::Test(right))?;
            Ok(Led::To(Decided::GoesOn))
        }
        Waiting::Assert(place) => {
            if answer {
                return Ok(Led::To(Decided::GoesOn));
            }
            Ok(Led::To(Decided::Fails(place)))
        }
        Waiting::Assume => {
            if answer {
                return Ok(Led::To(Decided::GoesOn));
            }
            Ok(Led::To(Decided::Stops))
        }
        Waiting::If(part) => {
            if !answer {
                return Ok(Led::To(Decided::GoesOn));
            }
            tasks.push(Task::Perform(part, &[]))?;
            Ok(Led::To(Decided::GoesOn))
        }
        Waiting::IfElse(first, second) => {
            if answer {
                tasks.push(Task::Perform(first, &[]))?;
                return Ok(Led::To(Decided::GoesOn));
            }
            tasks.push(Task::Perform(second, &[]))?;
            Ok(Led::To(Decided::GoesOn))
        }
        Waiting::Loop(turns) => {
            if !answer {
                return Ok(Led::To(Decided::GoesOn));
            }
            push_turn(tasks, turns)?;
            Ok(Led::To(Decided::GoesOn))
        }
    }
}
