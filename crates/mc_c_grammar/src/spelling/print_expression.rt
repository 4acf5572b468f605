// How expressions are printed: what is still to print stands on a stack, so that a tree of any depth needs no more stack than a leaf does.
ghost use Rattle.mc_c_grammar.specs.Spelling.Printing.{expression_part_steps, expression_part_words, expression_parts_steps, expression_parts_words, expression_steps};
ghost use Rattle.mc_c_syntax.specs.Ast.Views.{expression_of};
ghost use Rattle.mc_c_grammar.specs.Spelling.Words.{Continues, Prints, Words, expression_words};
ghost use Rattle.std.specs.Prelude.{◌≡◌, ◌<◌, ◌+◌, ◌∷◌, IfOk};

use crate::spelling::print_word::{print_left, print_number, print_opening, print_word};
use mc_c_syntax::ast::Expression;
use std::alloc::{AllocError, Global};

/// What is still to print of an expression.
#[derive(Clone, Copy)]
pub enum ExpressionPart<'a> {
    Whole(&'a Expression),
    Mark(&'static [u8]),
}

pub fn print_expression(
    alloc: Global,
    out: &mut Vec<u8>,
    expression: &Expression,
) -> Result<(), AllocError>
    ensures { IfOk result (λ _. Prints out.old.items (expression_words (expression_of expression.now)) out.new.items) }
{
    let mut parts = Vec::new(alloc);
    push(&mut parts, ExpressionPart::Whole(expression))?;
    while let Some(part) = parts.pop() {
        match part {
            ExpressionPart::Mark(mark) => print_word(out, mark)?,
            ExpressionPart::Whole(whole) => print_first(alloc, out, &mut parts, whole)?,
        }
    }
    Ok(())
}

// Prints the first word of an expression; what is left of it goes onto the stack.
fn print_first<'a>(
    alloc: Global,
    out: &mut Vec<u8>,
    parts: &mut Vec<ExpressionPart<'a>>,
    expression: &'a Expression,
) -> Result<(), AllocError>
    ensures prints { IfOk result (λ _. Continues out.old.items
        (λ more. expression_words (expression_of expression.now)
        (expression_parts_words parts.old.items more)) out.new.items (expression_parts_words parts.new.items)) }
    ensures steps { IfOk result
        (λ _. expression_parts_steps parts.new.items < expression_parts_steps parts.old.items + expression_steps
        (expression_of expression.now)) }
{
    match expression {
        Expression::Number(number, _) => print_number(alloc, out, *number)?,
        Expression::Null(_) => print_word(out, b"NULL")?,
        Expression::Input(_) => {
            print_opening(out, b"input")?;
            print_word(out, b")")?;
        }
        Expression::Value(left) => print_left(out, left)?,
        Expression::Minus(_, part) => {
            print_word(out, b"-")?;
            push(parts, ExpressionPart::Whole(part))?;
        }
        Expression::Parens(_, part) => {
            print_word(out, b"(")?;
            push(parts, ExpressionPart::Mark(b")"))?;
            push(parts, ExpressionPart::Whole(part))?;
        }
        Expression::Times(first, second) => push_both(parts, first, b"*", second)?,
        Expression::Plus(first, second) => push_both(parts, first, b"+", second)?,
        Expression::Difference(first, second) => push_both(parts, first, b"-", second)?,
    }
    Ok(())
}

// Both are still to print, with a mark between them.
fn push_both<'a>(
    parts: &mut Vec<ExpressionPart<'a>>,
    first: &'a Expression,
    mark: &'static [u8],
    second: &'a Expression,
) -> Result<(), AllocError>
    ensures words { IfOk result (λ _. (more : Words)
        → expression_parts_words parts.new.items more ≡ expression_words (expression_of first.now) (mark.now
        ∷ expression_words (expression_of second.now) (expression_parts_words parts.old.items more))) }
    ensures steps { IfOk result
        (λ _. expression_parts_steps parts.new.items
        ≡ expression_parts_steps parts.old.items + expression_steps (expression_of first.now) + expression_steps
        (expression_of second.now) + 1) }
{
    push(parts, ExpressionPart::Whole(second))?;
    push(parts, ExpressionPart::Mark(mark))?;
    push(parts, ExpressionPart::Whole(first))
}

fn push<'a>(parts: &mut Vec<ExpressionPart<'a>>, part: ExpressionPart<'a>) -> Result<(), AllocError>
    ensures words { IfOk result (λ _. (more : Words) → expression_parts_words parts.new.items more
        ≡ expression_part_words part.entry (expression_parts_words parts.old.items more)) }
    ensures steps { IfOk result
        (λ _. expression_parts_steps parts.new.items
        ≡ expression_parts_steps parts.old.items + expression_part_steps part.entry) }
{
    parts.push(part)?;
    Ok(())
}
