// Statements, whose names become numbers; a loop, so that none is too deep.
ghost use Rattle.std.specs.Prelude.{◌≡◌, ◌+◌, ◌*◌, ◌<◌, ◌∷◌, [], IfOk, OnOk, map};
ghost use Rattle.mc_c_syntax.specs.Ast.Trees.{Stmt, declaration as declaration_tree, for_loop, stmts_of};
ghost use Rattle.mc_c_syntax.specs.Ast.Views.{declaration_of, head_of as named_head, statement_of as named_statement};
ghost use Rattle.mc_semantics.specs.Resolved.Programs.{block};
ghost use Rattle.mc_semantics.specs.Resolved.Resolving.{resolved_statement, resolved_statements};
ghost use Rattle.mc_semantics.specs.Resolved.Views.{statement_of, stmts_of as resolved_stmts};
ghost use Rattle.mc_c_types.specs.Scopes.{behind, inside};
ghost use Rattle.mc_c_walk.specs.Tasks.{behind_all, statements_steps};
ghost use Rattle.mc_resolve.specs.Frames.{block_left, finished, frame_steps, frames_steps, left_steps, plugged};
ghost use Rattle.mc_resolve.specs.Named.{IsNumbered, naming_held};
ghost use Rattle.mc_c_walk.specs.Parting.{outside};
ghost use Rattle.mc_resolve.specs.declared.statements.Next.TheVariants as Next;

use crate::condition::{condition_place, resolve_condition};
use crate::declarations::{
    base_place, numbers_of, resolve_head, resolve_items, resolve_maybe_right,
};
use crate::expression::resolve_expression;
use crate::naming::{NamesHere, Naming};
use crate::right::resolve_simple;
use crate::shapes::{resolve_assert_shape, resolve_assume_shape};
use mc_base::stack::Stack;
use mc_base::text::Place;
use mc_c_syntax::ast as tree;
use mc_c_walk::{Marks, Variables};
use mc_semantics::resolved::{Condition, ForHead, Statement};
use std::alloc::{AllocError, Global};

/// A statement that waits for one that stands in it.
#[derive(Drop)]
pub enum Frame<'a> {
    /// A block, with the statements that are still to come, those that are resolved, and what the scope around it had.
    Block(&'a [tree::Statement], Vec<Statement>, Marks),
    If(Place, Condition),
    /// An `if` that waits for its first statement, with the second one.
    First(Place, Condition, &'a tree::Statement),
    /// An `if` that waits for its second statement, with the first one.
    Second(Place, Condition, Box<Statement>),
    While(Place, Condition),
    Do(Place, &'a tree::Condition),
    /// A `for`, and how many variables belong to heads around it.
    For(Box<ForHead>, usize),
}

/// Where the work stands: before a statement, or after one that is resolved.
#[derive(Drop)]
pub enum Next<'a> {
    Enter(&'a tree::Statement),
    Made(Statement),
}

/// A block of these statements, with the variables that its end undefines.
fn block_of(variables: Vec<usize>, done: Vec<Statement>) -> Statement
    ensures { statement_of result ≡ block variables.items (resolved_stmts (map statement_of done.items)) }
{
    Statement::Block(variables, done)
}

/// The next statement of a block is entered, or the block ends.
fn go_on<'a>(
    alloc: Global,
    naming: Naming<'_, 'a>,
    scope: &mut Variables<'a>,
    frames: &mut Stack<Frame<'a>>,
    rest: &'a [tree::Statement],
    done: Vec<Statement>,
    marks: Marks,
) -> Result<Next<'a>, AllocError>
    ensures finished { IfOk result (λ next. finished (naming_held naming.entry) scope.new frames.new next
        ≡ plugged (naming_held naming.entry)
        (outside marks (behind_all (naming_held naming.entry).tables scope.old
        (stmts_of (map named_statement rest.now)))) frames.old
        (block_left (naming_held naming.entry) scope.old (stmts_of (map named_statement rest.now))
        (map statement_of done.items)
        (resolved_statements (naming_held naming.entry) scope.old (stmts_of (map named_statement rest.now))))) }
    ensures steps { IfOk result (λ next. left_steps frames.new next < 2 * statements_steps
        (stmts_of (map named_statement rest.now)) + 1 + frames_steps frames.old) }
{
    match rest {
        [] => {
            let variables = numbers_of(alloc, naming, scope.own())?;
            scope.leave(marks);
            Ok(Next::Made(block_of(variables, done)))
        }
        [first, more @ ..] => {
            frames.push(Frame::Block(more, done, marks))?;
            Ok(Next::Enter(first))
        }
    }
}

/// A block is entered.
#[tactic(auto, using(crate::proofs::Frames::block_entered))]
fn enter_block<'a>(
    alloc: Global,
    naming: Naming<'_, 'a>,
    scope: &mut Variables<'a>,
    frames: &mut Stack<Frame<'a>>,
    statements: &'a [tree::Statement],
) -> Result<Next<'a>, AllocError>
    ensures finished { IfOk result (λ next. finished (naming_held naming.entry) scope.new frames.new next
        ≡ plugged (naming_held naming.entry) scope.old frames.old
        (block_left (naming_held naming.entry) (inside scope.old) (stmts_of (map named_statement statements.now)) []
        (resolved_statements (naming_held naming.entry) (inside scope.old)
        (stmts_of (map named_statement statements.now))))) }
    ensures steps { IfOk result (λ next. left_steps frames.new next < 2 * statements_steps
        (stmts_of (map named_statement statements.now)) + 1 + frames_steps frames.old) }
{
    let done = Vec::with_capacity(alloc, statements.len())?;
    let marks = scope.marks();
    scope.enter();
    Ok(go_on(alloc, naming, scope, frames, statements, done, marks)?)
}

/// A `for` is entered.
#[tactic(auto, using(crate::proofs::Frames::for_left))]
fn enter_for<'a>(
    alloc: Global,
    naming: Naming<'_, 'a>,
    scope: &mut Variables<'a>,
    frames: &mut Stack<Frame<'a>>,
    head: &'a tree::ForHead,
) -> Result<(), AllocError>
    requires { IsNumbered naming }
    ensures finished { OnOk result ((a : Stmt)
        → plugged (naming_held naming.entry) (behind (naming_held naming.entry).tables scope.new a) frames.new
        (resolved_statement (naming_held naming.entry) scope.new a)
        ≡ plugged (naming_held naming.entry)
        (behind (naming_held naming.entry).tables scope.old (for_loop (named_head head.now) a)) frames.old
        (resolved_statement (naming_held naming.entry) scope.old (for_loop (named_head head.now) a))) }
    ensures steps { OnOk result (frames_steps frames.new ≡ 1 + frames_steps frames.old) }
{
    let kept = scope.marks().heads;
    let head = resolve_head(alloc, naming, scope, head)?;
    frames.push(Frame::For(Box::new(alloc, head)?, kept))?;
    Ok(())
}

/// A declaration.
fn resolve_declaration<'a>(
    alloc: Global,
    naming: Naming<'_, 'a>,
    scope: &mut Variables<'a>,
    declaration: &'a tree::Declaration,
) -> Result<Statement, AllocError>
    requires { IsNumbered naming }
    ensures made { IfOk result (λ made. statement_of made
        ≡ resolved_statement (naming_held naming.entry) scope.old
        (declaration_tree (declaration_of declaration.now))) }
    ensures scope { OnOk result (scope.new
        ≡ behind (naming_held naming.entry).tables scope.old (declaration_tree (declaration_of declaration.now))) }
{
    let place = base_place(&declaration.base);
    let items = declaration.items.as_slice();
    let items = resolve_items(alloc, naming, scope, &declaration.base, items)?;
    Ok(Statement::Declaration(place, items))
}

/// A statement is entered, or made where no other one stands in it.
fn enter<'a>(
    alloc: Global,
    naming: Naming<'_, 'a>,
    scope: &mut Variables<'a>,
    frames: &mut Stack<Frame<'a>>,
    statement: &'a tree::Statement,
) -> Result<Next<'a>, AllocError>
    requires { IsNumbered naming }
    ensures finished { IfOk result (λ next. finished (naming_held naming.entry) scope.new frames.new next
        ≡ finished (naming_held naming.entry) scope.old frames.old (Next.Enter statement.entry)) }
    ensures steps { IfOk result (λ next. left_steps frames.new next < left_steps frames.old (Next.Enter statement.entry)) }
{
    match statement {
        tree::Statement::Declaration(declaration) => {
            Ok(Next::Made(resolve_declaration(alloc, naming, scope, declaration)?))
        }
        tree::Statement::Block(_, statements) => {
            Ok(enter_block(alloc, naming, scope, frames, statements.as_slice())?)
        }
        tree::Statement::Empty(_) => Ok(Next::Made(Statement::Empty)),
        tree::Statement::Simple(simple) => {
            let names = NamesHere { naming, scope };
            Ok(Next::Made(Statement::Simple(resolve_simple(alloc, names, simple)?)))
        }
        tree::Statement::Free(place, pointer) => {
            let names = NamesHere { naming, scope };
            Ok(Next::Made(Statement::Free(*place, resolve_expression(alloc, names, pointer)?)))
        }
        tree::Statement::Assert(_, condition) => {
            let made = resolve_condition(alloc, NamesHere { naming, scope }, condition)?;
            Ok(Next::Made(Statement::Assert(condition_place(condition), made)))
        }
        tree::Statement::Assume(_, condition) => {
            let made = resolve_condition(alloc, NamesHere { naming, scope }, condition)?;
            Ok(Next::Made(Statement::Assume(condition_place(condition), made)))
        }
        tree::Statement::AssumeShape(shape) => {
            Ok(Next::Made(resolve_assume_shape(alloc, NamesHere { naming, scope }, shape)?))
        }
        tree::Statement::AssertShape(shape) => {
            Ok(Next::Made(resolve_assert_shape(alloc, NamesHere { naming, scope }, shape)?))
        }
        tree::Statement::AssertEmpty(place) => Ok(Next::Made(Statement::AssertEmpty(*place))),
        tree::Statement::If(place, condition, part) => {
            let condition = resolve_condition(alloc, NamesHere { naming, scope }, condition)?;
            frames.push(Frame::If(*place, condition))?;
            Ok(Next::Enter(part))
        }
        tree::Statement::IfElse(place, condition, first, second) => {
            let condition = resolve_condition(alloc, NamesHere { naming, scope }, condition)?;
            frames.push(Frame::First(*place, condition, second))?;
            Ok(Next::Enter(first))
        }
        tree::Statement::While(place, condition, part) => {
            let condition = resolve_condition(alloc, NamesHere { naming, scope }, condition)?;
            frames.push(Frame::While(*place, condition))?;
            Ok(Next::Enter(part))
        }
        tree::Statement::Do(place, part, condition) => {
            frames.push(Frame::Do(*place, condition))?;
            Ok(Next::Enter(part))
        }
        tree::Statement::For(head, part) => {
            enter_for(alloc, naming, scope, frames, head)?;
            Ok(Next::Enter(part))
        }
        tree::Statement::Break(place) => Ok(Next::Made(Statement::Break(*place))),
        tree::Statement::Continue(place) => Ok(Next::Made(Statement::Continue(*place))),
        tree::Statement::Return(place, value) => {
            let names = NamesHere { naming, scope };
            Ok(Next::Made(Statement::Return(*place, resolve_maybe_right(alloc, names, value)?)))
        }
    }
}

/// A frame gets the statement that it waits for.
#[tactic(auto, using(crate::proofs::Frames::before_push))]
fn close<'a>(
    alloc: Global,
    naming: Naming<'_, 'a>,
    scope: &mut Variables<'a>,
    frames: &mut Stack<Frame<'a>>,
    frame: Frame<'a>,
    made: Statement,
) -> Result<Next<'a>, AllocError>
    requires { IsNumbered naming }
    ensures finished { IfOk result (λ next. finished (naming_held naming.entry) scope.new frames.new next
        ≡ plugged (naming_held naming.entry) scope.old (frame.entry ∷ frames.old) (statement_of made)) }
    ensures steps { IfOk result (λ next. left_steps frames.new next < frame_steps frame.entry + frames_steps frames.old) }
{
    match frame {
        Frame::Block(rest, mut done, marks) => {
            done.push(made)?;
            Ok(go_on(alloc, naming, scope, frames, rest, done, marks)?)
        }
        Frame::If(place, condition) => {
            Ok(Next::Made(Statement::If(place, condition, Box::new(alloc, made)?)))
        }
        Frame::First(place, condition, second) => {
            frames.push(Frame::Second(place, condition, Box::new(alloc, made)?))?;
            Ok(Next::Enter(second))
        }
        Frame::Second(place, condition, first) => {
            let second = Box::new(alloc, made)?;
            Ok(Next::Made(Statement::IfElse(place, condition, first, second)))
        }
        Frame::While(place, condition) => {
            Ok(Next::Made(Statement::While(place, condition, Box::new(alloc, made)?)))
        }
        Frame::Do(place, condition) => {
            let condition = resolve_condition(alloc, NamesHere { naming, scope }, condition)?;
            Ok(Next::Made(Statement::Do(place, Box::new(alloc, made)?, condition)))
        }
        Frame::For(head, kept) => {
            scope.leave_heads(kept);
            Ok(Next::Made(Statement::For(head, Box::new(alloc, made)?)))
        }
    }
}

/// The statement with its names resolved; the scope is the one after it then.
fn resolve_statement<'a>(
    alloc: Global,
    naming: Naming<'_, 'a>,
    scope: &mut Variables<'a>,
    statement: &'a tree::Statement,
) -> Result<Statement, AllocError>
    requires { IsNumbered naming }
    ensures made { IfOk result (λ made. statement_of made
        ≡ resolved_statement (naming_held naming.entry) scope.old (named_statement statement.now)) }
    ensures scope { OnOk result (scope.new ≡ behind (naming_held naming.entry).tables scope.old (named_statement statement.now)) }
{
    let mut frames = Stack::new(alloc);
    let mut next = Next::Enter(statement);
    loop {
        match next {
            Next::Enter(statement) => next = enter(alloc, naming, scope, &mut frames, statement)?,
            Next::Made(made) => match frames.pop() {
                None => return Ok(made),
                Some(frame) => next = close(alloc, naming, scope, &mut frames, frame, made)?,
            },
        }
    }
}

/// The statements of a body with their names resolved.
#[tactic(auto, using(crate::proofs::Frames::before_end, crate::proofs::Frames::before_push))]
pub fn resolve_body<'a>(
    alloc: Global,
    naming: Naming<'_, 'a>,
    mut scope: Variables<'a>,
    statements: &'a [tree::Statement],
) -> Result<Vec<Statement>, AllocError>
    requires { IsNumbered naming }
    ensures { IfOk result (λ made. resolved_stmts (map statement_of made.items)
        ≡ resolved_statements (naming_held naming.entry) scope.entry
        (stmts_of (map named_statement statements.now))) }
{
    let mut made = Vec::with_capacity(alloc, statements.len())?;
    for statement in statements {
        made.push(resolve_statement(alloc, naming, &mut scope, statement)?)?;
    }
    Ok(made)
}
