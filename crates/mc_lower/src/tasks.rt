// What is still to be lowered, and where it stands.
ghost use Rattle.std.specs.Prelude.{None, Some, ◌≡◌, ◌∷◌, OnOk};

use crate::builder::{BuildFault, Label};
use crate::values::Target;
use mc_base::VarId;
use mc_base::stack::Stack;
use mc_base::text::Place;
use mc_semantics::resolved::{Condition, ForHead, Function, Initial, Simple, Statement};

/// Where `break` and `continue` of a loop go.
#[derive(Clone, Copy)]
pub struct Turns {
    pub exit: Label,
    pub turn: Label,
}

/// Where a statement stands: in an occurrence of a function, inside a block, by its number, and inside a loop.
#[derive(Clone, Copy)]
pub struct Context<'a> {
    pub function: &'a Function,
    pub occurrence: usize,
    pub block: Option<usize>,
    pub turns: Option<Turns>,
}

impl<'a> Context<'a> {
    /// Inside a block.
    pub fn in_block(self, block: usize) -> Context<'a>
        ensures { result
            ≡ record
            { function = self.entry.function; occurrence = self.entry.occurrence; block = Some block; turns = self.entry.turns } }
    {
        Context {
            function: self.function,
            occurrence: self.occurrence,
            block: Some(block),
            turns: self.turns,
        }
    }

    /// Inside a loop.
    pub fn in_loop(self, exit: Label, turn: Label) -> Context<'a>
        ensures { result
            ≡ record {
              function = self.entry.function;
              occurrence = self.entry.occurrence;
              block = None;
              turns = Some
                  (record { exit = exit; turn = turn });
            } }
    {
        Context {
            function: self.function,
            occurrence: self.occurrence,
            block: None,
            turns: Some(Turns { exit, turn }),
        }
    }
}

/// What is still to be lowered, from the goal on.
#[derive(Clone, Copy)]
pub enum Task<'a> {
    Statements(&'a [Statement], Context<'a>),
    Statement(&'a Statement, Context<'a>),
    Simple(&'a Simple, Context<'a>),
    /// Declarators of a declaration at this place.
    Declare(Place, &'a [Initial], Context<'a>),
    /// The end of a block with these variables in an occurrence.
    EndBlock(&'a [usize], usize),
    /// The second part of an `if` begins at a label; the ways meet at another.
    Otherwise(Label, Label),
    /// The ways of an `if` meet at a label.
    Merge(Place, Label),
    /// After the body of a `while` with this head and exit.
    EndWhile(Place, Label, Label),
    /// After the body of a `do` with this head in an occurrence.
    EndDo(Place, &'a Condition, Label, Turns, usize),
    /// A `for` after its first part.
    For(&'a ForHead, &'a Statement, Context<'a>),
    /// After the body of a `for` with this head.
    ForTurn(&'a ForHead, Label, Turns, Context<'a>),
    /// After the last part of a `for` with this head and exit in an occurrence.
    EndFor(&'a ForHead, Label, Label, usize),
    /// After the body of a function that is called at this place.
    EndCall(Place, Context<'a>),
    /// After a call, in an occurrence: its result is put into a variable or a field.
    Take(Place, Target<'a>, Option<VarId>, usize),
    /// After a call: its result is that of an occurrence, which has this variable for it.
    Answer(Place, VarId, Option<VarId>, usize),
}

/// A task is next.
pub fn push<'a>(tasks: &mut Stack<Task<'a>>, task: Task<'a>) -> Result<(), BuildFault>
    ensures { OnOk result (tasks.new ≡ task.entry ∷ tasks.old) }
{
    tasks.push(task)?;
    Ok(())
}
