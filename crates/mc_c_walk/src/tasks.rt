// What is still to be done of a walk.
ghost use Rattle.std.specs.Prelude.{◌≡◌, ◌+◌, ◌<◌, ◌++◌, OnOk, map, option_map};
ghost use Rattle.mc_c_syntax.specs.Ast.Views.{condition_of, initial_of, simple_of};
ghost use Rattle.mc_c_types.specs.Scopes.{Scope, behind_items};
ghost use Rattle.mc_c_types.specs.Tables.{Tables};
ghost use Rattle.mc_c_walk.specs.Visits.{items_visits, maybe_performed, maybe_tested};
ghost use Rattle.mc_c_walk.specs.Tasks.{items_steps, pending, tasks_steps};

use crate::parts::Part;
use crate::variables::Marks;
use mc_base::stack::Stack;
use mc_c_syntax::ast::{Base, Condition, Declarator, Initial, Simple, Statement};
use std::alloc::AllocError;

/// A task of a walk.
#[derive(Clone, Copy)]
pub enum Task<'a> {
    /// A part to give.
    Visit(Part<'a>),
    /// A statement, and whether a loop is around it. The box keeps the task small.
    Whole(&'a Box<Statement>, bool),
    /// Several statements, the same.
    Several(&'a [Statement], bool),
    /// The declarators of a declaration.
    Items(&'a Base, &'a [Initial]),
    /// A variable comes into the block.
    Declare(&'a Base, &'a Declarator),
    /// A block ends, around which so many variables belong to heads and to the block.
    EndBlock(Marks),
    /// What a `for` begins with ends, the same.
    EndStart(Marks),
    /// A `for` ends, around which so many variables belong to heads.
    EndFor(usize),
}

/// The first of several declarators is next, and then the others.
pub fn push_items<'a>(
    tasks: &mut Stack<Task<'a>>,
    base: &'a Base,
    items: &'a [Initial],
) -> Result<(), AllocError>
    ensures pending { OnOk result ((t : Tables) (s : Scope)
        → pending t s tasks.new ≡ items_visits t base.now s (map initial_of items.now)
        ++ pending t (behind_items t base.now s (map initial_of items.now)) tasks.old) }
    ensures steps { OnOk result (tasks_steps tasks.new < items_steps (map initial_of items.now) + tasks_steps tasks.old) }
{
    if let [first, rest @ ..] = items {
        tasks.push(Task::Items(base, rest))?;
        tasks.push(Task::Visit(Part::Valued(base, &first.declarator, &first.value)))?;
        tasks.push(Task::Declare(base, &first.declarator))?;
        tasks.push(Task::Visit(Part::Declared(base, &first.declarator)))?;
    }
    Ok(())
}

/// A condition is next, if there is one.
pub fn push_condition<'a>(
    tasks: &mut Stack<Task<'a>>,
    condition: &'a Option<Condition>,
) -> Result<(), AllocError>
    ensures pending { OnOk result ((t : Tables) (s : Scope) → pending t s tasks.new
        ≡ maybe_tested s (option_map condition_of condition.now) ++ pending t s tasks.old) }
    ensures steps { OnOk result (tasks_steps tasks.new < 2 + tasks_steps tasks.old) }
{
    if let Some(condition) = condition {
        tasks.push(Task::Visit(Part::Tested(condition)))?;
    }
    Ok(())
}

/// A simple statement is next, if there is one.
pub fn push_simple<'a>(
    tasks: &mut Stack<Task<'a>>,
    simple: &'a Option<Simple>,
) -> Result<(), AllocError>
    ensures pending { OnOk result ((t : Tables) (s : Scope) → pending t s tasks.new
        ≡ maybe_performed s (option_map simple_of simple.now) ++ pending t s tasks.old) }
    ensures steps { OnOk result (tasks_steps tasks.new < 2 + tasks_steps tasks.old) }
{
    if let Some(simple) = simple {
        tasks.push(Task::Visit(Part::Performed(simple)))?;
    }
    Ok(())
}
