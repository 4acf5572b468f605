// How conditions are printed, with what is still to print on a stack.
ghost use Rattle.mc_c_grammar.specs.Spelling.Printing.{condition_part_steps, condition_part_words, condition_parts_steps, condition_parts_words, condition_steps};
ghost use Rattle.mc_c_syntax.specs.Ast.Names.{mark_of};
ghost use Rattle.mc_c_syntax.specs.Ast.Views.{condition_of};
ghost use Rattle.mc_c_grammar.specs.Spelling.Words.{Continues, Prints, Words, condition_words};
ghost use Rattle.std.specs.Prelude.{◌≡◌, ◌<◌, ◌+◌, ◌∷◌, IfOk};

use crate::spelling::print_expression::print_expression;
use crate::spelling::print_word::print_word;
use mc_c_syntax::ast::{Comparison, Condition};
use std::alloc::{AllocError, Global};

/// What is still to print of a condition.
#[derive(Clone, Copy)]
pub enum ConditionPart<'a> {
    Whole(&'a Condition),
    Mark(&'static [u8]),
}

pub fn print_condition(
    alloc: Global,
    out: &mut Vec<u8>,
    condition: &Condition,
) -> Result<(), AllocError>
    ensures { IfOk result (λ _. Prints out.old.items (condition_words (condition_of condition.now)) out.new.items) }
{
    let mut parts = Vec::new(alloc);
    push(&mut parts, ConditionPart::Whole(condition))?;
    while let Some(part) = parts.pop() {
        match part {
            ConditionPart::Mark(mark) => print_word(out, mark)?,
            ConditionPart::Whole(whole) => print_first(alloc, out, &mut parts, whole)?,
        }
    }
    Ok(())
}

// Prints a condition up to the first one in it; what is left of it goes onto the stack.
fn print_first<'a>(
    alloc: Global,
    out: &mut Vec<u8>,
    parts: &mut Vec<ConditionPart<'a>>,
    condition: &'a Condition,
) -> Result<(), AllocError>
    ensures prints { IfOk result (λ _. Continues out.old.items
        (λ more. condition_words (condition_of condition.now)
        (condition_parts_words parts.old.items more)) out.new.items (condition_parts_words parts.new.items)) }
    ensures steps { IfOk result
        (λ _. condition_parts_steps parts.new.items < condition_parts_steps parts.old.items + condition_steps
        (condition_of condition.now)) }
{
    match condition {
        Condition::Plain(expression) => print_expression(alloc, out, expression)?,
        Condition::Compare(comparison, first, second) => {
            print_expression(alloc, out, first)?;
            print_word(out, mark_of(*comparison))?;
            print_expression(alloc, out, second)?;
        }
        Condition::Not(_, part) => {
            print_word(out, b"!")?;
            push(parts, ConditionPart::Whole(part))?;
        }
        Condition::Parens(_, part) => {
            print_word(out, b"(")?;
            push(parts, ConditionPart::Mark(b")"))?;
            push(parts, ConditionPart::Whole(part))?;
        }
        Condition::Both(first, second) => push_both(parts, first, b"&&", second)?,
        Condition::Either(first, second) => push_both(parts, first, b"||", second)?,
    }
    Ok(())
}

fn mark_of(comparison: Comparison) -> &'static [u8]
    ensures { result.now ≡ mark_of comparison }
{
    match comparison {
        Comparison::Equal => b"==",
        Comparison::Unequal => b"!=",
        Comparison::Below => b"<",
        Comparison::AtMost => b"<=",
        Comparison::Above => b">",
        Comparison::AtLeast => b">=",
    }
}

// Both are still to print, with a mark between them.
fn push_both<'a>(
    parts: &mut Vec<ConditionPart<'a>>,
    first: &'a Condition,
    mark: &'static [u8],
    second: &'a Condition,
) -> Result<(), AllocError>
    ensures words { IfOk result (λ _. (more : Words)
        → condition_parts_words parts.new.items more ≡ condition_words (condition_of first.now) (mark.now
        ∷ condition_words (condition_of second.now) (condition_parts_words parts.old.items more))) }
    ensures steps { IfOk result
        (λ _. condition_parts_steps parts.new.items
        ≡ condition_parts_steps parts.old.items + condition_steps (condition_of first.now) + condition_steps
        (condition_of second.now) + 1) }
{
    push(parts, ConditionPart::Whole(second))?;
    push(parts, ConditionPart::Mark(mark))?;
    push(parts, ConditionPart::Whole(first))
}

fn push<'a>(parts: &mut Vec<ConditionPart<'a>>, part: ConditionPart<'a>) -> Result<(), AllocError>
    ensures words { IfOk result (λ _. (more : Words) → condition_parts_words parts.new.items more
        ≡ condition_part_words part.entry (condition_parts_words parts.old.items more)) }
    ensures steps { IfOk result
        (λ _. condition_parts_steps parts.new.items
        ≡ condition_parts_steps parts.old.items + condition_part_steps part.entry) }
{
    parts.push(part)?;
    Ok(())
}
