// A run that is under way, without its heap.
use crate::tasks::entering::{push_again, push_do, push_for, push_test, push_while};
use crate::tasks::leading::{Decided, Led, lead};
use crate::tasks::next::{Atom, Next};
use crate::tasks::tasks::{Target, Task, Waiting, push_result, push_row, push_turn};
use crate::tasks::values::{first_values, set_value, undefine, value_of};
use mc_base::NoMemory;
use mc_base::stack::Stack;
use mc_base::text::Place;
use mc_semantics::resolved::{Condition, Function, Initial, Statement};
use std::alloc::Global;
use std::mem;

/// What is left to do of a program, and what the variables hold of the function that runs.
pub struct Work<'a> {
    tasks: Stack<Task<'a>>,
    values: Vec<Option<i64>>,
    alloc: Global,
}

/// Drops its parts. What holds one calls this.
impl Drop for Work<'_> {
    fn drop(self) {
        let Work {
            tasks,
            values,
            alloc: _,
        } = self;
        drop(tasks);
        drop(values);
    }
}

ghost use Rattle.std.specs.Prelude.{◌≡◌, IfOk, OnOk, [], map};
ghost use Rattle.mc_semantics.specs.Resolved.Configs.{done, end_call, held, task, with_variable};
ghost use Rattle.mc_semantics.specs.Resolved.Moves.{in_a_row};
ghost use Rattle.mc_semantics.specs.Resolved.Steps.{passed, returning, start};
ghost use Rattle.mc_semantics.specs.Resolved.Views.{function_of};

impl<'a> Work<'a> {
    ghost use Rattle.std.specs.Prelude.{Some, None, if◌then◌else◌};
    ghost use Rattle.mc_semantics.specs.Resolved.Configs.{perform, test};
    ghost use Rattle.mc_semantics.specs.Resolved.Moves.{at_turn, behind_loop};
    ghost use Rattle.mc_semantics.specs.Resolved.Programs.{declaration};
    ghost use Rattle.mc_semantics.specs.Resolved.Views.{condition_of, initial_of, statement_of};
    ghost use Rattle.mc_run_values.specs.Tasks.Left.{target_of};
    ghost use Rattle.mc_run_values.specs.Tasks.Leading.{chosen, led_to};
    ghost use Rattle.mc_run_values.specs.Tasks.Going.{Advances, Comes, branches_of, tasks_of, values_of};

    /// A function without arguments begins, and nothing is left after it.
    pub fn start(alloc: Global, function: &'a Function) -> Result<Work<'a>, NoMemory>
        ensures tasks { IfOk result (λ work. tasks_of work ≡ (start (function_of function.now)).tasks) }
        ensures values { IfOk result (λ work. values_of work ≡ (start (function_of function.now)).values) }
    {
        let values = first_values(alloc, function.locals.as_slice(), 0, &[])?;
        let mut tasks = Stack::new(alloc);
        push_row(&mut tasks, function.body.as_slice())?;
        Ok(Work {
            tasks,
            values,
            alloc,
        })
    }

    /// What the variables hold, by their numbers.
    pub fn values(&self) -> &[Option<i64>]
        ensures { result.now ≡ values_of self.now }
    {
        self.values.as_slice()
    }

    /// What a variable holds, if it is defined.
    pub fn held(&self, variable: usize) -> Option<i64>
        ensures { result ≡ held (values_of self.now) variable }
    {
        value_of(self.values.as_slice(), variable)
    }

    /// A variable holds this from now on.
    pub fn put_value(&mut self, variable: usize, value: Option<i64>)
        ensures values { values_of self.new ≡ with_variable (values_of self.old) variable value }
        ensures tasks { tasks_of self.new ≡ tasks_of self.old }
    {
        set_value(&mut self.values, variable, value);
    }

    /// Does what belongs to the next step, and takes that step from what is left.
    pub fn arrive(&mut self) -> Result<Next<'a>, NoMemory>
        ensures { IfOk result (λ next. Comes self.old next self.new) }
    {
        loop {
            match self.advance()? {
                Some(next) => return Ok(next),
                None => {}
            }
        }
    }

    // One move, or the next step.
    fn advance(&mut self) -> Result<Option<Next<'a>>, NoMemory>
        ensures { IfOk result (λ found. Advances (values_of self.old) (tasks_of self.old) found self.new) }
    {
        let Some(task) = self.tasks.pop() else {
            return Ok(Some(Next::Done));
        };
        match task {
            Task::Perform(statement, more) => {
                push_row(&mut self.tasks, more)?;
                self.enter(statement)
            }
            Task::Declare(place, items) => self.declare(place, items),
            Task::Simple(simple) => Ok(Some(Next::Simple(simple))),
            Task::Again(turns) => {
                push_again(&mut self.tasks, turns)?;
                Ok(None)
            }
            Task::Always(turns) => {
                push_turn(&mut self.tasks, turns)?;
                Ok(Some(Next::Always))
            }
            Task::Test(condition) => self.take_apart(condition),
            Task::Waits(_) => Ok(Some(Next::Done)),
            Task::EndBlock(variables) => {
                undefine(&mut self.values, variables);
                Ok(None)
            }
            Task::EndLoop(variables) => {
                undefine(&mut self.values, variables);
                Ok(None)
            }
            Task::EndTurn => Ok(None),
            Task::EndCall(saved, target) => {
                self.values = saved;
                push_result(&mut self.tasks, target, None)?;
                Ok(None)
            }
            Task::TakeResult(target, value) => Ok(Some(Next::TakeResult(target, value))),
        }
    }

    // A statement is entered, or it is the next step.
    fn enter(&mut self, statement: &'a Statement) -> Result<Option<Next<'a>>, NoMemory>
        ensures { IfOk result (λ found. let here = task (perform (statement_of statement.now)) (tasks_of self.old) in
            Advances (values_of self.old) here found self.new) }
    {
        match statement {
            Statement::Declaration(place, items) => {
                let found = self.declare(*place, items.as_slice())?;
                Ok(found)
            }
            Statement::Block(variables, parts) => {
                self.tasks.push(Task::EndBlock(variables.as_slice()))?;
                push_row(&mut self.tasks, parts.as_slice())?;
                Ok(None)
            }
            Statement::Empty => Ok(None),
            Statement::Simple(simple) => Ok(Some(Next::Simple(simple))),
            Statement::Free(place, pointer) => Ok(Some(Next::Free(*place, pointer))),
            Statement::Assert(place, condition) => {
                push_test(&mut self.tasks, Waiting::Assert(*place), condition)?;
                Ok(None)
            }
            Statement::Assume(_, condition) => {
                push_test(&mut self.tasks, Waiting::Assume, condition)?;
                Ok(None)
            }
            Statement::AssumeShape(shape) => Ok(Some(Next::AssumeShape(shape))),
            Statement::AssertShape(shape) => Ok(Some(Next::AssertShape(shape))),
            Statement::AssertEmpty(place) => Ok(Some(Next::AssertEmpty(*place))),
            Statement::If(_, condition, part) => {
                push_test(&mut self.tasks, Waiting::If(part), condition)?;
                Ok(None)
            }
            Statement::IfElse(_, condition, first, second) => {
                push_test(&mut self.tasks, Waiting::IfElse(first, second), condition)?;
                Ok(None)
            }
            Statement::While(_, condition, part) => {
                push_while(&mut self.tasks, condition, part)?;
                Ok(None)
            }
            Statement::Do(_, part, condition) => {
                push_do(&mut self.tasks, part, condition)?;
                Ok(None)
            }
            Statement::For(head, part) => {
                push_for(&mut self.tasks, head, part)?;
                Ok(None)
            }
            Statement::Break(_) => {
                if self.leave_loop() {
                    Ok(None)
                } else {
                    Ok(Some(Next::Stuck))
                }
            }
            Statement::Continue(_) => {
                if self.end_turn() {
                    Ok(None)
                } else {
                    Ok(Some(Next::Stuck))
                }
            }
            Statement::Return(place, value) => Ok(Some(Next::Return(*place, value))),
        }
    }

    // A declaration is at its end, or its first declarator is the next step.
    fn declare(&mut self, place: Place, items: &'a [Initial]) -> Result<Option<Next<'a>>, NoMemory>
        ensures { IfOk result (λ found. let a = declaration place (map initial_of items.now) in
            Advances (values_of self.old) (task (perform a) (tasks_of self.old)) found self.new) }
    {
        let [first, more @ ..] = items else {
            return Ok(None);
        };
        self.tasks.push(Task::Declare(place, more))?;
        Ok(Some(Next::Declare(place, first)))
    }

    // A condition is taken apart, or it is the next step.
    fn take_apart(&mut self, condition: &'a Condition) -> Result<Option<Next<'a>>, NoMemory>
        ensures { IfOk result (λ found. let branches = branches_of self.old in
            let here = test (condition_of condition.now) branches.0 branches.1 in
            Advances (values_of self.old) (task here done) found self.new) }
    {
        match condition {
            Condition::Plain(place, value) => Ok(Some(Next::Test(Atom::Plain(*place, value)))),
            Condition::Compare(place, mark, first, second) => {
                Ok(Some(Next::Test(Atom::Compare(*place, *mark, first, second))))
            }
            Condition::Not(part) => {
                push_test(&mut self.tasks, Waiting::Not, part)?;
                Ok(None)
            }
            Condition::Both(first, second) => {
                push_test(&mut self.tasks, Waiting::Both(second), first)?;
                Ok(None)
            }
            Condition::Either(first, second) => {
                push_test(&mut self.tasks, Waiting::Either(second), first)?;
                Ok(None)
            }
        }
    }

    // Goes after the innermost loop, if there is one.
    fn leave_loop(&mut self) -> bool
        ensures { behind_loop (values_of self.old) (tasks_of self.old)
            ≡ (if result then Some (values_of self.new, tasks_of self.new) else None) }
    {
        while let Some(task) = self.tasks.pop() {
            match task {
                Task::EndLoop(variables) => {
                    undefine(&mut self.values, variables);
                    return true;
                }
                Task::EndBlock(inner) => undefine(&mut self.values, inner),
                Task::Perform(_, _) => {}
                Task::Declare(_, _) => {}
                Task::Simple(_) => {}
                Task::Again(_) => {}
                Task::EndTurn => {}
                Task::TakeResult(_, _) => {}
                Task::Always(_) => return false,
                Task::Test(_) => return false,
                Task::Waits(_) => return false,
                Task::EndCall(_, _) => return false,
            }
        }
        false
    }

    // Goes to the end of the turn of the innermost loop, if there is one.
    fn end_turn(&mut self) -> bool
        ensures { at_turn (values_of self.old) (tasks_of self.old)
            ≡ (if result then Some (values_of self.new, tasks_of self.new) else None) }
    {
        while let Some(task) = self.tasks.pop() {
            match task {
                Task::EndTurn => return true,
                Task::EndBlock(variables) => undefine(&mut self.values, variables),
                Task::Perform(_, _) => {}
                Task::Declare(_, _) => {}
                Task::Simple(_) => {}
                Task::Again(_) => {}
                Task::EndLoop(_) => {}
                Task::TakeResult(_, _) => {}
                Task::Always(_) => return false,
                Task::Test(_) => return false,
                Task::Waits(_) => return false,
                Task::EndCall(_, _) => return false,
            }
        }
        false
    }

    /// The condition that was next has this answer. Where none was, the run stops.
    pub fn decide(&mut self, answer: bool) -> Result<Decided, NoMemory>
        ensures branch { IfOk result (λ decided.
            led_to decided (tasks_of self.new) ≡ chosen answer (branches_of self.old)) }
        ensures values { values_of self.new ≡ values_of self.old }
    {
        let mut holds = answer;
        while let Some(task) = self.tasks.pop() {
            let Task::Waits(waiting) = task else {
                return Ok(Decided::Stops);
            };
            match lead(&mut self.tasks, waiting, holds)? {
                Led::To(decided) => return Ok(decided),
                Led::Around(answer) => holds = answer,
            }
        }
        Ok(Decided::Stops)
    }

    /// A function begins, and its result goes to the target.
    pub fn begin_call(
        &mut self,
        function: &'a Function,
        arguments: &[i64],
        target: Target<'a>,
    ) -> Result<(), NoMemory>
        ensures values { OnOk result (let f = function_of function.now in
            values_of self.new ≡ passed f.parameters f.locals arguments.now) }
        ensures tasks { OnOk result (let end = end_call (values_of self.old) (target_of target.entry) in
            tasks_of self.new ≡ in_a_row (function_of function.now).body (task end (tasks_of self.old))) }
    {
        let locals = function.locals.as_slice();
        let values = first_values(self.alloc, locals, function.parameters, arguments)?;
        let saved = mem::replace(&mut self.values, values);
        self.tasks.push(Task::EndCall(saved, target))?;
        push_row(&mut self.tasks, function.body.as_slice())
    }

    /// The function goes back with its result; from the entry, nothing is left.
    pub fn go_back(&mut self, value: Option<i64>) -> Result<(), NoMemory>
        ensures { OnOk result ((values_of self.new, tasks_of self.new) ≡ returning (tasks_of self.old) value) }
    {
        while let Some(task) = self.tasks.pop() {
            match task {
                Task::EndCall(saved, target) => {
                    self.values = saved;
                    push_result(&mut self.tasks, target, value)?;
                    return Ok(());
                }
                Task::Perform(_, _) => {}
                Task::Declare(_, _) => {}
                Task::Simple(_) => {}
                Task::Again(_) => {}
                Task::EndBlock(_) => {}
                Task::EndLoop(_) => {}
                Task::EndTurn => {}
                Task::TakeResult(_, _) => {}
                Task::Always(_) => break,
                Task::Test(_) => break,
                Task::Waits(_) => break,
            }
        }
        self.end();
        Ok(())
    }

    // Nothing is left.
    fn end(&mut self)
        ensures values { values_of self.new ≡ [] }
        ensures tasks { tasks_of self.new ≡ done }
    {
        'tasks: while let Some(_task) = self.tasks.pop() {}
        self.values = Vec::new(self.alloc);
    }
}
