// Statements made of their parts.
ghost use Rattle.std.specs.Prelude.{◌≡◌, IfOk, map};
ghost use Rattle.mc_c_syntax.specs.Ast.Trees.{block, do_loop, for_loop, if_else, if_only, stmts_of, while_loop};
ghost use Rattle.mc_c_syntax.specs.Ast.Views.{condition_of, head_of, statement_of};

use mc_base::text::Place;
use mc_c_syntax::ast::{Condition, ForHead, Statement};
use std::alloc::{AllocError, Global};

/// The block of these statements.
pub fn block_of(place: Place, statements: Vec<Statement>) -> Statement
    ensures { statement_of result ≡ block place (stmts_of (map statement_of statements.items)) }
{
    Statement::Block(place, statements)
}

/// The `if` without an `else`.
pub fn if_of(
    alloc: Global,
    place: Place,
    condition: Condition,
    part: Statement,
) -> Result<Statement, AllocError>
    ensures { IfOk result (λ s. statement_of s ≡ if_only place (condition_of condition) (statement_of part)) }
{
    Ok(Statement::If(place, condition, Box::new(alloc, part)?))
}

/// The `if` with an `else`.
pub fn if_else_of(
    alloc: Global,
    place: Place,
    condition: Condition,
    first: Box<Statement>,
    second: Statement,
) -> Result<Statement, AllocError>
    ensures { IfOk result (λ s. statement_of s ≡ if_else place (condition_of condition) (statement_of first.value) (statement_of second)) }
{
    Ok(Statement::IfElse(place, condition, first, Box::new(alloc, second)?))
}

pub fn while_of(
    alloc: Global,
    place: Place,
    condition: Condition,
    part: Statement,
) -> Result<Statement, AllocError>
    ensures { IfOk result (λ s. statement_of s ≡ while_loop place (condition_of condition) (statement_of part)) }
{
    Ok(Statement::While(place, condition, Box::new(alloc, part)?))
}

pub fn do_of(
    alloc: Global,
    place: Place,
    part: Statement,
    condition: Condition,
) -> Result<Statement, AllocError>
    ensures { IfOk result (λ s. statement_of s ≡ do_loop place (statement_of part) (condition_of condition)) }
{
    Ok(Statement::Do(place, Box::new(alloc, part)?, condition))
}

pub fn for_of(alloc: Global, head: Box<ForHead>, part: Statement) -> Result<Statement, AllocError>
    ensures { IfOk result (λ s. statement_of s ≡ for_loop (head_of head.value) (statement_of part)) }
{
    Ok(Statement::For(head, Box::new(alloc, part)?))
}
