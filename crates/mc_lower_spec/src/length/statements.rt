// The points of statements are counted: a loop over what is left, with a stack of its own.
ghost use Rattle.std.specs.Prelude.{◌≡◌, ◌∷◌, ◌+◌, ◌++◌, [], suc, List, IfOk, OnOk, map, option_map};
ghost use Rattle.mc_lower_spec.specs.Length.Lengths.{acting, all_declared, below, clearing, declared, declaring, items_declared, leaving, operations, returning, start_declared, starting, stretch, stretch_all, testing};
ghost use Rattle.mc_lower_spec.specs.Length.Waiting.{IsOuter, IsSingle, left, total};
ghost use Rattle.mc_semantics.specs.Resolved.Programs.{for_loop};
ghost use Rattle.mc_lower_spec.specs.declared.length.statements.Waiting.{Waiting};
ghost use Rattle.mc_lower_spec.specs.declared.length.statements.Waiting.TheVariants.{Loop, Statement as One, Statements as Several};
ghost use Rattle.mc_semantics.specs.Resolved.Views.{action_of, condition_of, expression_of, head_of, initial_of, right_of, start_of, statement_of, stmts_of};

use crate::length::actions::{acting, finishing, initializing, returning, testing_perhaps};
use crate::length::values::{clearing, operations, sum, testing};
use mc_base::NoMemory;
use mc_base::stack::Stack;
use mc_semantics::resolved::{
    Condition, Expression, ForHead, ForStart, Initial, RightSide, Simple, Statement,
};
use std::alloc::{AllocError, Global};
use std::mem;

/// What is still to be counted.
#[derive(Drop)]
pub enum Waiting<'a> {
    Statements(&'a [Statement]),
    Statement(&'a Statement),
    /// The body of a loop, after which these variables are left.
    Loop(&'a [usize], &'a Statement),
    /// These variables are left, inside blocks with those.
    End(&'a [usize], Vec<usize>),
}

/// How many points there are so far; the variables that are made by now, and those of the blocks around in the same loop.
#[derive(Drop)]
pub struct Counter<'a> {
    pub alloc: Global,
    pub table: &'a [usize],
    pub points: usize,
    pub made: Vec<usize>,
    pub blocks: Vec<usize>,
}

// The point by which variables are left.
fn leaving(numbers: &[usize], made: &[usize]) -> usize
    ensures { result ≡ leaving numbers.now made.now }
{
    for at in 0..numbers.len() {
        if made.contains(&numbers[at]) {
            return 1;
        }
    }
    0
}

// Something is next.
fn push<'a>(tasks: &mut Stack<Waiting<'a>>, task: Waiting<'a>) -> Result<(), NoMemory>
    ensures { OnOk result (tasks.new ≡ task.entry ∷ tasks.old) }
{
    tasks.push(task)
}

impl<'a> Counter<'a> {
    // So many points more.
    fn add(&mut self, more: usize) -> Result<(), NoMemory>
        ensures { OnOk result ((tasks : List Waiting) → total self.new tasks ≡ more + total self.old tasks) }
    {
        self.points = sum(self.points, more)?;
        Ok(())
    }

    // Declarators.
    fn declare(&mut self, items: &[Initial]) -> Result<(), NoMemory>
        ensures { OnOk result
            ((tasks : List Waiting) → total self.new tasks
            ≡ self.old.points + declaring self.old.table.now (map initial_of items.now) + left self.old.table.now
            (self.old.made.items ++ items_declared (map initial_of items.now)) self.old.blocks.items tasks) }
    {
        for at in 0..items.len() {
            let more = initializing(self.alloc, self.table, &items[at])?;
            self.points = sum(self.points, more)?;
            self.made.push(items[at].variable)?;
        }
        Ok(())
    }

    // The first part of a `for`.
    fn start(&mut self, start: &ForStart) -> Result<(), NoMemory>
        ensures { OnOk result
            ((tasks : List Waiting) → total self.new tasks
            ≡ self.old.points + starting self.old.table.now (start_of start.now) + left self.old.table.now
            (self.old.made.items ++ start_declared (start_of start.now)) self.old.blocks.items tasks) }
    {
        match start {
            ForStart::Nothing => Ok(()),
            ForStart::Declaration(_, items) => self.declare(items.as_slice()),
            ForStart::Simple(simple) => {
                let more = acting(self.alloc, self.table, &simple.action)?;
                self.add(more)
            }
        }
    }

    // These blocks are around; those that were around before.
    fn enter(&mut self, blocks: Vec<usize>) -> Vec<usize>
        ensures outer { result.items ≡ self.old.blocks.items }
        ensures inner { (tasks : List Waiting) → total self.new tasks
            ≡ self.old.points + left self.old.table.now self.old.made.items blocks.items tasks }
    {
        mem::replace(&mut self.blocks, blocks)
    }

    // A block with these variables.
    fn block(
        &mut self,
        tasks: &mut Stack<Waiting<'a>>,
        numbers: &'a [usize],
        statements: &'a [Statement],
    ) -> Result<(), NoMemory>
        ensures { OnOk result
            (total self.new tasks.new
            ≡ self.old.points + stretch_all self.old.table.now self.old.made.items
            (numbers.now ++ self.old.blocks.items) (stmts_of (map statement_of statements.now)) +
            (leaving numbers.now (self.old.made.items
            ++ all_declared (stmts_of (map statement_of statements.now))) + left self.old.table.now
            (self.old.made.items
            ++ all_declared (stmts_of (map statement_of statements.now))) self.old.blocks.items tasks.old)) }
    {
        let mut inner = Vec::from_slice(self.alloc, numbers)?;
        inner.extend_from_slice(self.blocks.as_slice())?;
        let outer = self.enter(inner);
        push(tasks, Waiting::End(numbers, outer))?;
        push(tasks, Waiting::Statements(statements))
    }

    // The body of a loop.
    fn body(
        &mut self,
        tasks: &mut Stack<Waiting<'a>>,
        numbers: &'a [usize],
        body: &'a Statement,
    ) -> Result<(), NoMemory>
        ensures { OnOk result (total self.new tasks.new ≡ total self.old (Loop numbers.entry body.entry ∷ tasks.old)) }
    {
        let outer = self.enter(Vec::new(self.alloc));
        push(tasks, Waiting::End(numbers, outer))?;
        push(tasks, Waiting::Statement(body))
    }

    // Variables are left, and the blocks are those around.
    fn end(&mut self, numbers: &[usize], outer: Vec<usize>) -> Result<(), NoMemory>
        ensures { OnOk result ((tasks : List Waiting) → total self.new tasks
            ≡ self.old.points +
            (leaving numbers.now self.old.made.items + left self.old.table.now self.old.made.items outer.items tasks)) }
    {
        let more = leaving(numbers, self.made.as_slice());
        self.enter(outer);
        self.add(more)
    }

    // A condition, and so many points beside it.
    fn test(&mut self, condition: &Condition, beside: usize) -> Result<(), NoMemory>
        ensures { OnOk result ((tasks : List Waiting) → total self.new tasks
            ≡ testing (condition_of condition.now) + beside + total self.old tasks) }
    {
        let count = testing(self.alloc, condition)?;
        let more = sum(count, beside)?;
        self.add(more)
    }

    // `free`.
    fn free(&mut self, pointer: &Expression) -> Result<(), NoMemory>
        ensures { OnOk result ((tasks : List Waiting) → total self.new tasks
            ≡ operations (expression_of pointer.now) + suc
            (clearing (operations (expression_of pointer.now))) + total self.old tasks) }
    {
        let temporaries = operations(self.alloc, pointer)?;
        let more = sum(temporaries, 1 + clearing(temporaries))?;
        self.add(more)
    }

    // `for`.
    fn for_loop(
        &mut self,
        tasks: &mut Stack<Waiting<'a>>,
        head: &'a ForHead,
        body: &'a Statement,
    ) -> Result<(), NoMemory>
        ensures { OnOk result
            (total self.new tasks.new
            ≡ self.old.points + stretch self.old.table.now self.old.made.items self.old.blocks.items
            (for_loop (head_of head.now) (statement_of body.now)) + left self.old.table.now
            (self.old.made.items ++ declared
            (for_loop (head_of head.now) (statement_of body.now))) self.old.blocks.items tasks.old) }
    {
        let tested = testing_perhaps(self.alloc, head.condition.as_ref())?;
        let finished = finishing(self.alloc, self.table, head.last.as_ref())?;
        let both = sum(tested, finished)?;
        let more = sum(both, 3)?;
        push(tasks, Waiting::Loop(head.variables.as_slice(), body))?;
        self.start(&head.start)?;
        self.add(more)
    }

    // `break` and `continue`.
    fn jump(&mut self) -> Result<(), NoMemory>
        ensures { OnOk result
            ((tasks : List Waiting) → total self.new tasks
            ≡ leaving self.old.blocks.items self.old.made.items + total self.old tasks) }
    {
        let more = leaving(self.blocks.as_slice(), self.made.as_slice());
        self.add(more)
    }

    // `return`, perhaps with a value.
    fn returns(&mut self, value: Option<&RightSide>) -> Result<(), NoMemory>
        ensures { OnOk result ((tasks : List Waiting) → total self.new tasks
            ≡ returning self.old.table.now (option_map (λ r. right_of r.now) value.entry) + total self.old tasks) }
    {
        let more = returning(self.alloc, self.table, value)?;
        self.add(more)
    }

    // A simple statement.
    fn simple(&mut self, simple: &Simple) -> Result<(), NoMemory>
        ensures { OnOk result ((tasks : List Waiting) → total self.new tasks
            ≡ acting self.old.table.now (action_of simple.now.action) + total self.old tasks) }
    {
        let more = acting(self.alloc, self.table, &simple.action)?;
        self.add(more)
    }

    // A statement that declares nothing and has none inside.
    fn single(&mut self, statement: &Statement) -> Result<(), NoMemory>
        requires { IsSingle (statement_of statement.now) }
        ensures { OnOk result ((tasks : List Waiting) → total self.new tasks ≡ total self.old (One statement.entry ∷ tasks)) }
    {
        match statement {
            Statement::Simple(simple) => self.simple(simple),
            Statement::Free(_, pointer) => self.free(pointer),
            Statement::Assert(_, condition) => self.test(condition, 1),
            Statement::Assume(_, condition) => self.test(condition, 1),
            Statement::AssumeShape(_) => self.add(1),
            Statement::AssertShape(_) => self.add(1),
            Statement::AssertEmpty(_) => self.add(1),
            Statement::Break(_) => self.jump(),
            Statement::Continue(_) => self.jump(),
            Statement::Return(_, value) => self.returns(value.as_ref()),
            Statement::Declaration(_, _)
            | Statement::Block(_, _)
            | Statement::Empty
            | Statement::If(_, _, _)
            | Statement::IfElse(_, _, _, _)
            | Statement::While(_, _, _)
            | Statement::Do(_, _, _)
            | Statement::For(_, _) => unreachable!(),
        }
    }

    // A statement with others inside, which are next.
    fn outer(
        &mut self,
        tasks: &mut Stack<Waiting<'a>>,
        statement: &'a Statement,
    ) -> Result<(), NoMemory>
        requires { IsOuter (statement_of statement.now) }
        ensures { OnOk result (total self.new tasks.new ≡ total self.old (One statement.entry ∷ tasks.old)) }
    {
        match statement {
            Statement::Block(numbers, inner) => {
                self.block(tasks, numbers.as_slice(), inner.as_slice())
            }
            Statement::If(_, condition, part) => {
                self.test(condition, 1)?;
                push(tasks, Waiting::Statement(part))
            }
            Statement::IfElse(_, condition, first, second) => {
                self.test(condition, 1)?;
                push(tasks, Waiting::Statement(second))?;
                push(tasks, Waiting::Statement(first))
            }
            Statement::While(_, condition, body) => {
                self.test(condition, 2)?;
                push(tasks, Waiting::Loop(&[], body))
            }
            Statement::Do(_, body, condition) => {
                self.test(condition, 3)?;
                push(tasks, Waiting::Loop(&[], body))
            }
            Statement::For(head, body) => self.for_loop(tasks, head, body),
            Statement::Declaration(_, _)
            | Statement::Empty
            | Statement::Simple(_)
            | Statement::Free(_, _)
            | Statement::Assert(_, _)
            | Statement::Assume(_, _)
            | Statement::AssumeShape(_)
            | Statement::AssertShape(_)
            | Statement::AssertEmpty(_)
            | Statement::Break(_)
            | Statement::Continue(_)
            | Statement::Return(_, _) => unreachable!(),
        }
    }

    // A statement.
    fn statement(
        &mut self,
        tasks: &mut Stack<Waiting<'a>>,
        statement: &'a Statement,
    ) -> Result<(), NoMemory>
        ensures { OnOk result (total self.new tasks.new ≡ total self.old (One statement.entry ∷ tasks.old)) }
    {
        match statement {
            Statement::Empty => Ok(()),
            Statement::Declaration(_, items) => self.declare(items.as_slice()),
            Statement::Block(_, _)
            | Statement::If(_, _, _)
            | Statement::IfElse(_, _, _, _)
            | Statement::While(_, _, _)
            | Statement::Do(_, _, _)
            | Statement::For(_, _) => self.outer(tasks, statement),
            Statement::Simple(_)
            | Statement::Free(_, _)
            | Statement::Assert(_, _)
            | Statement::Assume(_, _)
            | Statement::AssumeShape(_)
            | Statement::AssertShape(_)
            | Statement::AssertEmpty(_)
            | Statement::Break(_)
            | Statement::Continue(_)
            | Statement::Return(_, _) => self.single(statement),
        }
    }

    // Statements in a row.
    fn statements(
        &mut self,
        tasks: &mut Stack<Waiting<'a>>,
        statements: &'a [Statement],
    ) -> Result<(), NoMemory>
        ensures { OnOk result (total self.new tasks.new ≡ total self.old (Several statements.entry ∷ tasks.old)) }
    {
        let [first, more @ ..] = statements else {
            return Ok(());
        };
        push(tasks, Waiting::Statements(more))?;
        push(tasks, Waiting::Statement(first))
    }

    // What is next.
    fn step(&mut self, tasks: &mut Stack<Waiting<'a>>, task: Waiting<'a>) -> Result<(), NoMemory>
        ensures { OnOk result (total self.new tasks.new ≡ total self.old (task.entry ∷ tasks.old)) }
    {
        match task {
            Waiting::Statements(statements) => self.statements(tasks, statements),
            Waiting::Statement(statement) => self.statement(tasks, statement),
            Waiting::Loop(numbers, body) => self.body(tasks, numbers, body),
            Waiting::End(numbers, outer) => self.end(numbers, outer),
        }
    }

    // All that is left.
    fn run(&mut self, tasks: &mut Stack<Waiting<'a>>) -> Result<(), NoMemory>
        ensures { OnOk result (self.new.points ≡ total self.old tasks.old) }
    {
        'tasks: for _ in 0..u64::MAX {
            match tasks.pop() {
                Some(task) => self.step(tasks, task)?,
                None => return Ok(()),
            }
        }
        Err(AllocError)
    }
}

/// The points of a body where the first so many variables are made.
pub fn body_points(
    alloc: Global,
    table: &[usize],
    parameters: usize,
    body: &[Statement],
) -> Result<usize, NoMemory>
    ensures { IfOk result (λ n. n ≡ stretch_all table.now (below parameters) [] (stmts_of (map statement_of body.now))) }
{
    let mut made = Vec::new(alloc);
    for number in 0..parameters {
        made.push(number)?;
    }
    let mut counter = Counter {
        alloc,
        table,
        points: 0,
        made,
        blocks: Vec::new(alloc),
    };
    let mut tasks = Stack::new(alloc);
    push(&mut tasks, Waiting::Statements(body))?;
    counter.run(&mut tasks)?;
    Ok(counter.points)
}
