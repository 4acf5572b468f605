// The variables that the body of a function declares, in the order of the text; a loop, so that no statement is too deep.
ghost use Rattle.std.specs.Prelude.{◌≡◌, ◌+◌, ◌<◌, ◌++◌, ◌∷◌, OnOk, map};
ghost use Rattle.mc_c_syntax.specs.Ast.Trees.{stmts_of};
ghost use Rattle.mc_c_syntax.specs.Ast.Views.{declaration_of, function_of, start_of, statement_of};
ghost use Rattle.mc_semantics.specs.Resolved.Resolving.{body_statements, declaration_variables, start_variables, statement_variables, statements_variables};
ghost use Rattle.mc_c_types.specs.Held.{tables_held, variable_held};
ghost use Rattle.mc_c_walk.specs.Tasks.{statement_steps, statements_steps};
ghost use Rattle.mc_resolve.specs.Gathers.{left_variables, rest_steps};

use crate::locals::{Locals, named};
use mc_base::stack::Stack;
use mc_c_syntax::ast::{Declaration, ForStart, Function, Statement};
use mc_c_types::NameTables;
use std::alloc::{AllocError, Global};

/// Statements whose variables are still to be listed.
#[derive(Clone, Copy)]
pub enum Rest<'a> {
    One(&'a Statement),
    Several(&'a [Statement]),
}

/// The statements of the body of a function, and none where it has no body.
pub fn body_of(function: &Function) -> &[Statement]
    ensures { stmts_of (map statement_of result.now) ≡ body_statements (function_of function.now) }
{
    match &function.body {
        None => &[],
        Some(body) => body.statements.as_slice(),
    }
}

/// The first of several statements is next, and then the others.
fn part_several<'a>(
    rest: &mut Stack<Rest<'a>>,
    statements: &'a [Statement],
) -> Result<(), AllocError>
    ensures variables { OnOk result (
        (t : Tables) → left_variables t rest.new
        ≡ statements_variables t (stmts_of (map statement_of statements.now)) ++ left_variables t rest.old) }
    ensures steps { OnOk result (rest_steps rest.new < statements_steps
        (stmts_of (map statement_of statements.now)) + rest_steps rest.old) }
{
    if let [first, more @ ..] = statements {
        rest.push(Rest::Several(more))?;
        rest.push(Rest::One(first))?;
    }
    Ok(())
}

ghost use Rattle.mc_c_types.specs.Tables.{Tables};

impl<'a> Locals<'a> {
    /// The variables of a declaration come to the end.
    fn add_items(
        &mut self,
        tables: &NameTables,
        declaration: &'a Declaration,
    ) -> Result<(), AllocError>
        ensures { OnOk result (map variable_held self.new ≡ map variable_held self.old
            ++ declaration_variables (tables_held tables.now) (declaration_of declaration.now)) }
    {
        for item in declaration.items.as_slice() {
            self.push(named(tables, &declaration.base, &item.declarator))?;
        }
        Ok(())
    }

    /// The variables that a `for` begins with come to the end.
    fn add_start(&mut self, tables: &NameTables, start: &'a ForStart) -> Result<(), AllocError>
        ensures { OnOk result (map variable_held self.new ≡ map variable_held self.old
            ++ start_variables (tables_held tables.now) (start_of start.now)) }
    {
        match start {
            ForStart::Nothing => Ok(()),
            ForStart::Declaration(declaration) => Ok(self.add_items(tables, declaration)?),
            ForStart::Simple(_) => Ok(()),
        }
    }

    /// The variables of a statement come to the end, and the statements in it are next.
    fn enter(
        &mut self,
        tables: &NameTables,
        statement: &'a Statement,
        rest: &mut Stack<Rest<'a>>,
    ) -> Result<(), AllocError>
        ensures variables { OnOk result (map variable_held self.new ++ left_variables (tables_held tables.now) rest.new
            ≡ map variable_held self.old
            ++ (statement_variables (tables_held tables.now) (statement_of statement.now)
            ++ left_variables (tables_held tables.now) rest.old)) }
        ensures steps { OnOk result (rest_steps rest.new < statement_steps (statement_of statement.now) + rest_steps rest.old) }
    {
        match statement {
            Statement::Declaration(declaration) => self.add_items(tables, declaration)?,
            Statement::Block(_, statements) => rest.push(Rest::Several(statements.as_slice()))?,
            Statement::Empty(_) => {}
            Statement::Simple(_) => {}
            Statement::Free(_, _) => {}
            Statement::Assert(_, _) => {}
            Statement::Assume(_, _) => {}
            Statement::AssumeShape(_) => {}
            Statement::AssertShape(_) => {}
            Statement::AssertEmpty(_) => {}
            Statement::If(_, _, part) => rest.push(Rest::One(part))?,
            Statement::IfElse(_, _, first, second) => {
                rest.push(Rest::One(second))?;
                rest.push(Rest::One(first))?;
            }
            Statement::While(_, _, part) => rest.push(Rest::One(part))?,
            Statement::Do(_, part, _) => rest.push(Rest::One(part))?,
            Statement::For(head, part) => {
                self.add_start(tables, &head.start)?;
                rest.push(Rest::One(part))?;
            }
            Statement::Break(_) => {}
            Statement::Continue(_) => {}
            Statement::Return(_, _) => {}
        }
        Ok(())
    }

    /// What is next is done.
    fn step(
        &mut self,
        tables: &NameTables,
        next: Rest<'a>,
        rest: &mut Stack<Rest<'a>>,
    ) -> Result<(), AllocError>
        ensures variables { OnOk result (map variable_held self.new ++ left_variables (tables_held tables.now) rest.new
            ≡ map variable_held self.old ++ left_variables (tables_held tables.now) (next.entry ∷ rest.old)) }
        ensures steps { OnOk result (rest_steps rest.new < rest_steps (next.entry ∷ rest.old)) }
    {
        match next {
            Rest::One(statement) => self.enter(tables, statement, rest)?,
            Rest::Several(statements) => part_several(rest, statements)?,
        }
        Ok(())
    }

    /// The variables of the body of a function come to the end.
    pub fn add_body(
        &mut self,
        alloc: Global,
        tables: &NameTables,
        function: &'a Function,
    ) -> Result<(), AllocError>
        ensures { OnOk result (map variable_held self.new ≡ map variable_held self.old
            ++ statements_variables (tables_held tables.now) (body_statements (function_of function.now))) }
    {
        let mut rest = Stack::new(alloc);
        rest.push(Rest::Several(body_of(function)))?;
        while let Some(next) = rest.pop() {
            self.step(tables, next, &mut rest)?;
        }
        Ok(())
    }
}
