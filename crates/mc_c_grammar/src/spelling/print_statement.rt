// How statements are printed, with what is still to print on a stack.
ghost use Rattle.mc_c_grammar.specs.Spelling.Printing.{statement_part_steps, statement_part_words, statement_parts_steps, statement_parts_words, statement_steps, statements_steps};
ghost use Rattle.mc_c_syntax.specs.Ast.Trees.{stmts_of};
ghost use Rattle.mc_c_syntax.specs.Ast.Views.{condition_of, expression_of, right_of, statement_of};
ghost use Rattle.mc_c_grammar.specs.Spelling.Words.{Continues, Prints, Words, argument_words, condition_words, expression_words, maybe_words, more_words, right_words, statement_words, statements_words};
ghost use Rattle.std.specs.Option.{option_map};
ghost use Rattle.std.specs.Prelude.{◌≡◌, ◌<◌, ◌+◌, ◌∷◌, IfOk, codes, map};

use crate::spelling::print_condition::print_condition;
use crate::spelling::print_expression::print_expression;
use crate::spelling::print_right::print_right;
use crate::spelling::print_simple::{
    print_argument, print_declaration, print_head, print_more_arguments, print_simple,
};
use crate::spelling::print_word::{print_ending, print_name, print_opening, print_word};
use mc_c_syntax::ast::{AssertShape, AssumeShape, Condition, Expression, RightSide, Statement};
use std::alloc::{AllocError, Global};

/// What is still to print of a statement.
#[derive(Clone, Copy)]
pub enum StatementPart<'a> {
    Whole(&'a Statement),
    Several(&'a [Statement]),
    Mark(&'static [u8]),
    /// What stands after the statement of a `do`.
    Until(&'a Condition),
}

pub fn print_statements(
    alloc: Global,
    out: &mut Vec<u8>,
    statements: &[Statement],
) -> Result<(), AllocError>
    ensures { IfOk result (λ _. Prints out.old.items (statements_words (stmts_of (map statement_of statements.now))) out.new.items) }
{
    let mut parts = Vec::new(alloc);
    push(&mut parts, StatementPart::Several(statements))?;
    while let Some(part) = parts.pop() {
        match part {
            StatementPart::Mark(mark) => print_word(out, mark)?,
            StatementPart::Whole(whole) => print_first(alloc, out, &mut parts, whole)?,
            StatementPart::Several(several) => push_several(&mut parts, several)?,
            StatementPart::Until(condition) => print_checked(alloc, out, b"while", condition)?,
        }
    }
    Ok(())
}

// Prints a statement up to the first one in it; what is left of it goes onto the stack.
fn print_first<'a>(
    alloc: Global,
    out: &mut Vec<u8>,
    parts: &mut Vec<StatementPart<'a>>,
    statement: &'a Statement,
) -> Result<(), AllocError>
    ensures prints { IfOk result (λ _. Continues out.old.items
        (λ more. statement_words (statement_of statement.now)
        (statement_parts_words parts.old.items more)) out.new.items (statement_parts_words parts.new.items)) }
    ensures steps { IfOk result
        (λ _. statement_parts_steps parts.new.items < statement_parts_steps parts.old.items + statement_steps
        (statement_of statement.now)) }
{
    match statement {
        Statement::Declaration(declaration) => print_declaration(alloc, out, declaration)?,
        Statement::Block(_, several) => {
            print_word(out, b"{")?;
            push(parts, StatementPart::Mark(b"}"))?;
            push(parts, StatementPart::Several(several.as_slice()))?;
        }
        Statement::Empty(_) => print_word(out, b";")?,
        Statement::Simple(simple) => {
            print_simple(alloc, out, simple)?;
            print_word(out, b";")?;
        }
        Statement::Free(_, pointer) => print_free(alloc, out, pointer)?,
        Statement::Assert(_, condition) => print_checked(alloc, out, b"assert", condition)?,
        Statement::Assume(_, condition) => print_checked(alloc, out, b"assume", condition)?,
        Statement::AssumeShape(shape) => print_assume_shape(alloc, out, shape)?,
        Statement::AssertShape(shape) => print_assert_shape(alloc, out, shape)?,
        Statement::AssertEmpty(_) => print_assert_empty(out)?,
        Statement::If(_, condition, part) => {
            print_guard(alloc, out, b"if", condition)?;
            push(parts, StatementPart::Whole(part))?;
        }
        Statement::IfElse(_, condition, first, second) => {
            print_guard(alloc, out, b"if", condition)?;
            push_else(parts, first, second)?;
        }
        Statement::While(_, condition, part) => {
            print_guard(alloc, out, b"while", condition)?;
            push(parts, StatementPart::Whole(part))?;
        }
        Statement::Do(_, part, condition) => {
            print_word(out, b"do")?;
            push(parts, StatementPart::Until(condition))?;
            push(parts, StatementPart::Whole(part))?;
        }
        Statement::For(head, part) => {
            print_head(alloc, out, head)?;
            push(parts, StatementPart::Whole(part))?;
        }
        Statement::Break(_) => {
            print_word(out, b"break")?;
            print_word(out, b";")?;
        }
        Statement::Continue(_) => {
            print_word(out, b"continue")?;
            print_word(out, b";")?;
        }
        Statement::Return(_, value) => print_return(alloc, out, value)?,
    }
    Ok(())
}

fn print_free(alloc: Global, out: &mut Vec<u8>, pointer: &Expression) -> Result<(), AllocError>
    ensures { IfOk result (λ _. Prints out.old.items
        (λ more. codes "free" ∷ codes "(" ∷ expression_words (expression_of pointer.now) (codes ")" ∷ codes ";"
        ∷ more)) out.new.items) }
{
    print_opening(out, b"free")?;
    print_expression(alloc, out, pointer)?;
    print_ending(out)
}

// A word, a condition in parentheses, and `;`.
fn print_checked(
    alloc: Global,
    out: &mut Vec<u8>,
    word: &[u8],
    condition: &Condition,
) -> Result<(), AllocError>
    ensures { IfOk result (λ _. Prints out.old.items
        (λ more. word.now ∷ codes "(" ∷ condition_words (condition_of condition.now) (codes ")" ∷ codes ";"
        ∷ more)) out.new.items) }
{
    print_opening(out, word)?;
    print_condition(alloc, out, condition)?;
    print_ending(out)
}

// A word, and a condition in parentheses.
fn print_guard(
    alloc: Global,
    out: &mut Vec<u8>,
    word: &[u8],
    condition: &Condition,
) -> Result<(), AllocError>
    ensures { IfOk result (λ _. Prints out.old.items
        (λ more. word.now ∷ codes "(" ∷ condition_words (condition_of condition.now) (codes ")"
        ∷ more)) out.new.items) }
{
    print_opening(out, word)?;
    print_condition(alloc, out, condition)?;
    print_word(out, b")")
}

fn print_assume_shape(
    alloc: Global,
    out: &mut Vec<u8>,
    shape: &AssumeShape,
) -> Result<(), AllocError>
    ensures { IfOk result (λ _. Prints out.old.items (λ more. codes "assume_shape"
        ∷ codes "(" ∷ shape.now.predicate.text ∷ codes "," ∷ shape.now.variable.text
        ∷ more_words argument_words shape.now.arguments.items (codes ")" ∷ codes ";" ∷ more)) out.new.items) }
{
    print_opening(out, b"assume_shape")?;
    print_name(out, &shape.predicate)?;
    print_variable(alloc, out, shape)?;
    Ok(())
}

// What stands after the predicate.
fn print_variable(alloc: Global, out: &mut Vec<u8>, shape: &AssumeShape) -> Result<(), AllocError>
    ensures { IfOk result (λ _. Prints out.old.items
        (λ more. codes "," ∷ shape.now.variable.text
        ∷ more_words argument_words shape.now.arguments.items (codes ")" ∷ codes ";" ∷ more)) out.new.items) }
{
    print_word(out, b",")?;
    print_name(out, &shape.variable)?;
    print_more_arguments(alloc, out, shape.arguments.as_slice())?;
    print_ending(out)
}

fn print_assert_shape(
    alloc: Global,
    out: &mut Vec<u8>,
    shape: &AssertShape,
) -> Result<(), AllocError>
    ensures { IfOk result (λ _. Prints out.old.items (λ more. codes "assert_shape"
        ∷ codes "(" ∷ shape.now.predicate.text ∷ codes ","
        ∷ argument_words shape.now.start (more_words argument_words shape.now.arguments.items (codes ")"
        ∷ codes ";" ∷ more))) out.new.items) }
{
    print_opening(out, b"assert_shape")?;
    print_name(out, &shape.predicate)?;
    print_start(alloc, out, shape)?;
    Ok(())
}

// What stands after the predicate.
fn print_start(alloc: Global, out: &mut Vec<u8>, shape: &AssertShape) -> Result<(), AllocError>
    ensures { IfOk result (λ _. Prints out.old.items (λ more. codes ","
        ∷ argument_words shape.now.start (more_words argument_words shape.now.arguments.items (codes ")"
        ∷ codes ";" ∷ more))) out.new.items) }
{
    print_word(out, b",")?;
    print_argument(alloc, out, &shape.start)?;
    print_more_arguments(alloc, out, shape.arguments.as_slice())?;
    print_ending(out)
}

fn print_assert_empty(out: &mut Vec<u8>) -> Result<(), AllocError>
    ensures { IfOk result (λ _. Prints out.old.items
        (λ more. codes "assert_empty" ∷ codes "(" ∷ codes ")" ∷ codes ";" ∷ more) out.new.items) }
{
    print_opening(out, b"assert_empty")?;
    print_ending(out)?;
    Ok(())
}

fn print_return(
    alloc: Global,
    out: &mut Vec<u8>,
    value: &Option<RightSide>,
) -> Result<(), AllocError>
    ensures { IfOk result (λ _. Prints out.old.items
        (λ more. codes "return" ∷ maybe_words right_words (option_map right_of value.now)
        (codes ";" ∷ more)) out.new.items) }
{
    print_word(out, b"return")?;
    print_returned(alloc, out, value)?;
    print_word(out, b";")
}

fn print_returned(
    alloc: Global,
    out: &mut Vec<u8>,
    value: &Option<RightSide>,
) -> Result<(), AllocError>
    ensures { IfOk result (λ _. Prints out.old.items (maybe_words right_words (option_map right_of value.now)) out.new.items) }
{
    match value {
        Some(right) => print_right(alloc, out, right)?,
        None => {}
    }
    Ok(())
}

// Both are still to print, with an `else` between them.
fn push_else<'a>(
    parts: &mut Vec<StatementPart<'a>>,
    first: &'a Statement,
    second: &'a Statement,
) -> Result<(), AllocError>
    ensures words { IfOk result (λ _. (more : Words)
        → statement_parts_words parts.new.items more ≡ statement_words (statement_of first.now) (codes "else"
        ∷ statement_words (statement_of second.now) (statement_parts_words parts.old.items more))) }
    ensures steps { IfOk result
        (λ _. statement_parts_steps parts.new.items
        ≡ statement_parts_steps parts.old.items + statement_steps (statement_of first.now) + statement_steps
        (statement_of second.now) + 1) }
{
    push(parts, StatementPart::Whole(second))?;
    push(parts, StatementPart::Mark(b"else"))?;
    push(parts, StatementPart::Whole(first))
}

// The first of several statements is to be printed, and then the others.
fn push_several<'a>(
    parts: &mut Vec<StatementPart<'a>>,
    several: &'a [Statement],
) -> Result<(), AllocError>
    ensures words { IfOk result (λ _. (more : Words)
        → statement_parts_words parts.new.items more
        ≡ statements_words (stmts_of (map statement_of several.now))
        (statement_parts_words parts.old.items more)) }
    ensures steps { IfOk result
        (λ _. statement_parts_steps parts.new.items < statement_parts_steps parts.old.items + statements_steps
        (stmts_of (map statement_of several.now))) }
{
    if let [first, rest @ ..] = several {
        push(parts, StatementPart::Several(rest))?;
        push(parts, StatementPart::Whole(first))?;
    }
    Ok(())
}

fn push<'a>(parts: &mut Vec<StatementPart<'a>>, part: StatementPart<'a>) -> Result<(), AllocError>
    ensures words { IfOk result (λ _. (more : Words) → statement_parts_words parts.new.items more
        ≡ statement_part_words part.entry (statement_parts_words parts.old.items more)) }
    ensures steps { IfOk result
        (λ _. statement_parts_steps parts.new.items
        ≡ statement_parts_steps parts.old.items + statement_part_steps part.entry) }
{
    parts.push(part)?;
    Ok(())
}
