// The walk itself, with what is still to do on a stack.
use crate::parts::Part;
use crate::tasks::{Task, push_condition, push_items, push_simple};
use crate::variables::Variables;
use mc_base::stack::Stack;
use mc_base::text::Text;
use mc_c_syntax::ast::{
    Base, Condition, Declarator, ForHead, ForStart, Function, Parameter, Parameters, Statement,
};
use mc_c_types::{NameTables, Named, Visible};
use std::alloc::{AllocError, Global};

/// A walk through the body of a function.
pub struct Walk<'a> {
    scope: Variables<'a>,
    tasks: Stack<Task<'a>>,
}

/// Drops its parts. What holds one calls this.
impl Drop for Walk<'_> {
    fn drop(self) {
        let Walk { scope, tasks } = self;
        drop(scope);
        drop(tasks);
    }
}

ghost use Rattle.std.specs.Prelude.{◌≡◌, ◌++◌, IfOk, OnOk, [], map, reverse};
ghost use Rattle.mc_c_types.specs.Held.{tables_held, variable_held};
ghost use Rattle.mc_c_types.specs.Tables.{listed_parameters, variable_of};
ghost use Rattle.mc_c_syntax.specs.Ast.Views.{parameters_of};

/// The variable that a declarator makes.
fn variable_of<'a>(tables: &NameTables, base: &Base, declarator: &'a Declarator) -> Named<'a>
    ensures { variable_held result ≡ variable_of (tables_held tables.now) base.now declarator.now }
{
    Named {
        name: &declarator.name.text,
        place: declarator.name.place,
        variable_type: tables.declared(base, declarator.pointer),
    }
}

/// The parameters that are listed.
fn listed(parameters: &Parameters) -> &[Parameter]
    ensures { result.now ≡ listed_parameters (parameters_of parameters.now) }
{
    match parameters {
        Parameters::Empty => &[],
        Parameters::Void(_) => &[],
        Parameters::Listed(listed) => listed.as_slice(),
    }
}

/// The variables of parameters.
fn declare_parameters<'a>(
    alloc: Global,
    tables: &NameTables,
    parameters: &'a [Parameter],
) -> Result<Variables<'a>, AllocError>
    ensures { IfOk result (λ variables. variables
        ≡ record {
          heads = [];
          own = reverse
              (map (λ p. variable_of (tables_held tables.now) p.base p.declarator) parameters.now);
          outer = [];
        }) }
{
    let mut variables = Variables::new(alloc);
    for parameter in parameters {
        variables.declare(variable_of(tables, &parameter.base, &parameter.declarator))?;
    }
    Ok(variables)
}

impl<'a> Walk<'a> {
    ghost use Rattle.std.specs.Prelude.{true, MatchOption, ◌∷◌, ◌+◌, ◌<◌, is_some};
    ghost use Rattle.mc_c_syntax.specs.Ast.Views.{condition_of, function_of, head_of, start_of, statement_of};
    ghost use Rattle.mc_c_syntax.specs.Ast.Trees.{for_loop, stmts_of};
    ghost use Rattle.mc_c_types.specs.Held.{variables_held};
    ghost use Rattle.mc_c_types.specs.Scopes.{behind_start, inside, visible};
    ghost use Rattle.mc_c_types.specs.Tables.{Tables, type_in};
    ghost use Rattle.mc_c_walk.specs.Parts.{part_of};
    ghost use Rattle.mc_c_walk.specs.Visits.{body_visits, start_visits, statement_visits, statements_visits, visit};
    ghost use Rattle.mc_c_walk.specs.Tasks.{HasNext, behind_all, given, pending, rest, start_steps, statement_steps, statements_steps, task_steps, tasks_steps};

    /// A walk that stands before the body of a function, if it has one.
    pub fn new(
        alloc: Global,
        tables: &NameTables,
        function: &'a Function,
    ) -> Result<Walk<'a>, AllocError>
        ensures { IfOk result (λ walk. rest (tables_held tables.now) walk
            ≡ body_visits (tables_held tables.now) (function_of function.now) (function_of function.now).body) }
    {
        let scope = declare_parameters(alloc, tables, listed(&function.parameters))?;
        let mut tasks = Stack::new(alloc);
        let Some(body) = &function.body else {
            return Ok(Walk { scope, tasks });
        };
        tasks.push(Task::Several(body.statements.as_slice(), false))?;
        Ok(Walk { scope, tasks })
    }

    /// The variables that are visible at the part that was given last, inner ones last.
    pub fn visible(&self) -> &Visible<'a>
        ensures { variables_held result.now ≡ visible self.now.scope }
    {
        self.scope.all()
    }

    /// Whether the block there has a variable of this name.
    pub fn is_own(&self, name: &Text) -> bool
        ensures { result ≡ is_some (type_in self.now.scope.own name.now) }
    {
        self.scope.is_own(name)
    }

    /// A block is next.
    fn enter_block(&mut self, several: &'a [Statement], in_loop: bool) -> Result<(), AllocError>
        ensures pending { OnOk result ((t : Tables)
            → rest t self.new ≡ statements_visits t in_loop (inside self.old.scope)
            (stmts_of (map statement_of several.now)) ++ pending t self.old.scope self.old.tasks) }
        ensures steps { OnOk result (tasks_steps self.new.tasks < statements_steps
            (stmts_of (map statement_of several.now)) + 2 + tasks_steps self.old.tasks) }
    {
        let marks = self.scope.marks();
        self.scope.enter();
        self.tasks.push(Task::EndBlock(marks))?;
        self.tasks.push(Task::Several(several, in_loop))?;
        Ok(())
    }

    /// What a `for` begins with is next.
    fn enter_start(&mut self, start: &'a ForStart) -> Result<(), AllocError>
        ensures pending { OnOk result ((t : Tables)
            → rest t self.new ≡ start_visits t self.old.scope (start_of start.now)
            ++ pending t (behind_start t self.old.scope (start_of start.now)) self.old.tasks) }
        ensures steps { OnOk result (tasks_steps self.new.tasks < start_steps (start_of start.now) + tasks_steps self.old.tasks) }
    {
        match start {
            ForStart::Nothing => Ok(()),
            ForStart::Declaration(declaration) => {
                let marks = self.scope.marks();
                self.scope.enter();
                self.tasks.push(Task::EndStart(marks))?;
                self.tasks.push(Task::Items(&declaration.base, declaration.items.as_slice()))?;
                Ok(())
            }
            ForStart::Simple(simple) => {
                self.tasks.push(Task::Visit(Part::Performed(simple)))?;
                Ok(())
            }
        }
    }

    /// A `for` is next.
    fn enter_for(&mut self, head: &'a ForHead, part: &'a Box<Statement>) -> Result<(), AllocError>
        ensures pending { OnOk result (HasNext self.old true (for_loop (head_of head.now) (statement_of part.now.value)) self.new) }
        ensures steps { OnOk result (tasks_steps self.new.tasks < statement_steps
            (for_loop (head_of head.now) (statement_of part.now.value)) + tasks_steps self.old.tasks) }
    {
        self.tasks.push(Task::EndFor(self.scope.marks().heads))?;
        self.tasks.push(Task::Whole(part, true))?;
        push_simple(&mut self.tasks, &head.last)?;
        push_condition(&mut self.tasks, &head.condition)?;
        self.enter_start(&head.start)?;
        Ok(())
    }

    /// A condition is next, and then a statement.
    fn enter_tested(
        &mut self,
        condition: &'a Condition,
        part: &'a Box<Statement>,
        in_loop: bool,
    ) -> Result<(), AllocError>
        ensures { OnOk result (self.new
            ≡ record {
              scope = self.old.scope;
              tasks = Task.Visit (Part.Tested condition.entry)
                  ∷ Task.Whole part.entry in_loop ∷ self.old.tasks;
            }) }
    {
        self.tasks.push(Task::Whole(part, in_loop))?;
        self.tasks.push(Task::Visit(Part::Tested(condition)))
    }

    /// A statement in a loop is next, and then a condition.
    fn enter_until(
        &mut self,
        part: &'a Box<Statement>,
        condition: &'a Condition,
    ) -> Result<(), AllocError>
        ensures { OnOk result (self.new
            ≡ record {
              scope = self.old.scope;
              tasks = Task.Whole part.entry true ∷ Task.Visit (Part.Tested condition.entry)
                  ∷ self.old.tasks;
            }) }
    {
        self.tasks.push(Task::Visit(Part::Tested(condition)))?;
        self.tasks.push(Task::Whole(part, true))
    }

    /// A part is next.
    fn give(&mut self, part: Part<'a>) -> Result<(), AllocError>
        ensures { OnOk result (self.new ≡ record { scope = self.old.scope; tasks = Task.Visit part.entry ∷ self.old.tasks }) }
    {
        self.tasks.push(Task::Visit(part))
    }

    /// A statement is next.
    fn enter_statement(&mut self, statement: &'a Statement, in_loop: bool) -> Result<(), AllocError>
        ensures pending { OnOk result (HasNext self.old in_loop (statement_of statement.now) self.new) }
        ensures steps { OnOk result
            (tasks_steps self.new.tasks < statement_steps (statement_of statement.now) + tasks_steps self.old.tasks) }
    {
        match statement {
            Statement::Declaration(declaration) => {
                self.tasks.push(Task::Items(&declaration.base, declaration.items.as_slice()))
            }
            Statement::Block(_, several) => self.enter_block(several.as_slice(), in_loop),
            Statement::Empty(_) => Ok(()),
            Statement::Simple(simple) => self.give(Part::Performed(simple)),
            Statement::Free(_, pointer) => self.give(Part::Freed(pointer)),
            Statement::Assert(_, condition) => self.give(Part::Tested(condition)),
            Statement::Assume(_, condition) => self.give(Part::Tested(condition)),
            Statement::AssumeShape(shape) => self.give(Part::Assumed(shape)),
            Statement::AssertShape(shape) => self.give(Part::Asserted(shape)),
            Statement::AssertEmpty(_) => Ok(()),
            Statement::If(_, condition, part) => self.enter_tested(condition, part, in_loop),
            Statement::IfElse(_, condition, first, second) => {
                self.tasks.push(Task::Whole(second, in_loop))?;
                self.enter_tested(condition, first, in_loop)
            }
            Statement::While(_, condition, part) => self.enter_tested(condition, part, true),
            Statement::Do(_, part, condition) => self.enter_until(part, condition),
            Statement::For(head, part) => self.enter_for(head, part),
            Statement::Break(place) => self.give(Part::LoopExit(*place, in_loop)),
            Statement::Continue(place) => self.give(Part::LoopExit(*place, in_loop)),
            Statement::Return(place, value) => self.give(Part::Returning(*place, value)),
        }
    }

    /// Several statements are next.
    fn enter_several(&mut self, several: &'a [Statement], in_loop: bool) -> Result<(), AllocError>
        ensures pending { OnOk result ((t : Tables)
            → rest t self.new ≡ statements_visits t in_loop self.old.scope (stmts_of (map statement_of several.now))
            ++ pending t (behind_all t self.old.scope (stmts_of (map statement_of several.now))) self.old.tasks) }
        ensures steps { OnOk result (tasks_steps self.new.tasks < statements_steps
            (stmts_of (map statement_of several.now)) + tasks_steps self.old.tasks) }
    {
        if let [first, rest @ ..] = several {
            self.tasks.push(Task::Several(rest, in_loop))?;
            self.enter_statement(first, in_loop)?;
        }
        Ok(())
    }

    /// Does a task, which may give a part.
    fn perform(
        &mut self,
        tables: &NameTables,
        task: Task<'a>,
    ) -> Result<Option<Part<'a>>, AllocError>
        ensures pending { IfOk result (λ found. pending (tables_held tables.now) self.old.scope
            (task.entry ∷ self.old.tasks) ≡ given self.new.scope found ++ rest (tables_held tables.now) self.new) }
        ensures steps { OnOk result (tasks_steps self.new.tasks < task_steps task.entry + tasks_steps self.old.tasks) }
    {
        match task {
            Task::Visit(part) => Ok(Some(part)),
            Task::Whole(statement, in_loop) => {
                self.enter_statement(statement, in_loop)?;
                Ok(None)
            }
            Task::Several(several, in_loop) => {
                self.enter_several(several, in_loop)?;
                Ok(None)
            }
            Task::Items(base, items) => {
                push_items(&mut self.tasks, base, items)?;
                Ok(None)
            }
            Task::Declare(base, declarator) => {
                self.scope.declare(variable_of(tables, base, declarator))?;
                Ok(None)
            }
            Task::EndBlock(marks) => {
                self.scope.leave(marks);
                Ok(None)
            }
            Task::EndStart(marks) => {
                self.scope.make_head(marks);
                Ok(None)
            }
            Task::EndFor(heads) => {
                self.scope.leave_heads(heads);
                Ok(None)
            }
        }
    }

    /// The next part, where the walk then stands, or none at the end. After that fails for memory, nothing is known of the walk.
    pub fn next(&mut self, tables: &NameTables) -> Result<Option<Part<'a>>, AllocError>
        ensures { IfOk result (λ found. MatchOption found ((rest (tables_held tables.now) self.old ≡ [])
            × (rest (tables_held tables.now) self.new ≡ []))
            (λ part. rest (tables_held tables.now) self.old ≡ visit self.new.scope (part_of part)
            ∷ rest (tables_held tables.now) self.new)) }
    {
        while let Some(task) = self.tasks.pop() {
            if let Some(part) = self.perform(tables, task)? {
                return Ok(Some(part));
            }
        }
        Ok(None)
    }
}
