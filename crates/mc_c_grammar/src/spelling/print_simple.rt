// How declarations and simple statements are printed.
ghost use Rattle.mc_c_syntax.specs.Ast.Views.{condition_of, declaration_of, head_of, initial_of, right_of, simple_of, start_of};
ghost use Rattle.mc_c_grammar.specs.Spelling.Words.{Prints, argument_words, condition_words, declaration_words, head_words};
ghost use Rattle.mc_c_grammar.specs.Spelling.Words.{initial_words, listed_words, maybe_words, more_words, simple_words};
ghost use Rattle.mc_c_grammar.specs.Spelling.Words.{start_words, value_words};
ghost use Rattle.std.specs.Option.{option_map};
ghost use Rattle.std.specs.Prelude.{◌∷◌, IfOk, codes, map};

use crate::spelling::print_condition::print_condition;
use crate::spelling::print_expression::print_expression;
use crate::spelling::print_right::{print_base, print_call, print_declarator, print_right};
use crate::spelling::print_word::{
    print_left, print_name, print_number, print_opening, print_word,
};
use mc_c_syntax::ast::{
    Argument, Condition, Declaration, ForHead, ForStart, Initial, RightSide, Simple,
};
use std::alloc::{AllocError, Global};

pub fn print_declaration(
    alloc: Global,
    out: &mut Vec<u8>,
    declaration: &Declaration,
) -> Result<(), AllocError>
    ensures { IfOk result (λ _. Prints out.old.items (declaration_words (declaration_of declaration.now)) out.new.items) }
{
    print_base(out, &declaration.base)?;
    print_initials(alloc, out, declaration.items.as_slice())?;
    print_word(out, b";")
}

fn print_initials(alloc: Global, out: &mut Vec<u8>, initials: &[Initial]) -> Result<(), AllocError>
    ensures { IfOk result (λ _. Prints out.old.items (listed_words initial_words (map initial_of initials.now)) out.new.items) }
{
    let [first, rest @ ..] = initials else {
        return Ok(());
    };
    print_initial(alloc, out, first)?;
    print_more_initials(alloc, out, rest)
}

fn print_more_initials(
    alloc: Global,
    out: &mut Vec<u8>,
    initials: &[Initial],
) -> Result<(), AllocError>
    ensures { IfOk result (λ _. Prints out.old.items (more_words initial_words (map initial_of initials.now)) out.new.items) }
{
    for initial in initials {
        print_word(out, b",")?;
        print_initial(alloc, out, initial)?;
    }
    Ok(())
}

fn print_initial(alloc: Global, out: &mut Vec<u8>, initial: &Initial) -> Result<(), AllocError>
    ensures { IfOk result (λ _. Prints out.old.items (initial_words (initial_of initial.now)) out.new.items) }
{
    print_declarator(out, &initial.declarator)?;
    print_value(alloc, out, &initial.value)
}

fn print_value(
    alloc: Global,
    out: &mut Vec<u8>,
    value: &Option<RightSide>,
) -> Result<(), AllocError>
    ensures { IfOk result (λ _. Prints out.old.items (value_words (option_map right_of value.now)) out.new.items) }
{
    match value {
        Some(right) => {
            print_word(out, b"=")?;
            print_right(alloc, out, right)?;
        }
        None => {}
    }
    Ok(())
}

pub fn print_simple(alloc: Global, out: &mut Vec<u8>, simple: &Simple) -> Result<(), AllocError>
    ensures { IfOk result (λ _. Prints out.old.items (simple_words (simple_of simple.now)) out.new.items) }
{
    match simple {
        Simple::Assign(left, right) => {
            print_left(out, left)?;
            print_word(out, b"=")?;
            print_right(alloc, out, right)?;
        }
        Simple::Add(left, expression) => {
            print_left(out, left)?;
            print_word(out, b"+=")?;
            print_expression(alloc, out, expression)?;
        }
        Simple::Subtract(left, expression) => {
            print_left(out, left)?;
            print_word(out, b"-=")?;
            print_expression(alloc, out, expression)?;
        }
        Simple::Increment(left) => {
            print_left(out, left)?;
            print_word(out, b"++")?;
        }
        Simple::Decrement(left) => {
            print_left(out, left)?;
            print_word(out, b"--")?;
        }
        Simple::IncrementFirst(_, left) => {
            print_word(out, b"++")?;
            print_left(out, left)?;
        }
        Simple::DecrementFirst(_, left) => {
            print_word(out, b"--")?;
            print_left(out, left)?;
        }
        Simple::Call(call) => print_call(alloc, out, call)?,
    }
    Ok(())
}

fn print_maybe_simple(
    alloc: Global,
    out: &mut Vec<u8>,
    simple: &Option<Simple>,
) -> Result<(), AllocError>
    ensures { IfOk result (λ _. Prints out.old.items (maybe_words simple_words (option_map simple_of simple.now)) out.new.items) }
{
    match simple {
        Some(simple) => print_simple(alloc, out, simple)?,
        None => {}
    }
    Ok(())
}

fn print_maybe_condition(
    alloc: Global,
    out: &mut Vec<u8>,
    condition: &Option<Condition>,
) -> Result<(), AllocError>
    ensures { IfOk result (λ _. Prints out.old.items (maybe_words condition_words (option_map condition_of condition.now)) out.new.items) }
{
    match condition {
        Some(condition) => print_condition(alloc, out, condition)?,
        None => {}
    }
    Ok(())
}

pub fn print_argument(
    alloc: Global,
    out: &mut Vec<u8>,
    argument: &Argument,
) -> Result<(), AllocError>
    ensures { IfOk result (λ _. Prints out.old.items (argument_words argument.now) out.new.items) }
{
    match argument {
        Argument::Name(name) => print_name(out, name)?,
        Argument::Null(_) => print_word(out, b"NULL")?,
        Argument::Number(number, _) => print_number(alloc, out, *number)?,
        Argument::Negative(number, _) => {
            print_word(out, b"-")?;
            print_number(alloc, out, *number)?;
        }
    }
    Ok(())
}

pub fn print_more_arguments(
    alloc: Global,
    out: &mut Vec<u8>,
    arguments: &[Argument],
) -> Result<(), AllocError>
    ensures { IfOk result (λ _. Prints out.old.items (more_words argument_words arguments.now) out.new.items) }
{
    for argument in arguments {
        print_word(out, b",")?;
        print_argument(alloc, out, argument)?;
    }
    Ok(())
}

fn print_start(alloc: Global, out: &mut Vec<u8>, start: &ForStart) -> Result<(), AllocError>
    ensures { IfOk result (λ _. Prints out.old.items (start_words (start_of start.now)) out.new.items) }
{
    match start {
        ForStart::Nothing => print_word(out, b";")?,
        ForStart::Declaration(declaration) => print_declaration(alloc, out, declaration)?,
        ForStart::Simple(simple) => {
            print_simple(alloc, out, simple)?;
            print_word(out, b";")?;
        }
    }
    Ok(())
}

pub fn print_head(alloc: Global, out: &mut Vec<u8>, head: &ForHead) -> Result<(), AllocError>
    ensures { IfOk result (λ _. Prints out.old.items (head_words (head_of head.now)) out.new.items) }
{
    print_opening(out, b"for")?;
    print_start(alloc, out, &head.start)?;
    print_rest(alloc, out, head)
}

// What stands after the first `;` of a `for`.
fn print_rest(alloc: Global, out: &mut Vec<u8>, head: &ForHead) -> Result<(), AllocError>
    ensures { IfOk result
        (λ _. Prints out.old.items
        (λ more. maybe_words condition_words (option_map condition_of head.now.condition)
        (codes ";" ∷ maybe_words simple_words (option_map simple_of head.now.last) (codes ")"
        ∷ more))) out.new.items) }
{
    print_maybe_condition(alloc, out, &head.condition)?;
    print_word(out, b";")?;
    print_maybe_simple(alloc, out, &head.last)?;
    print_word(out, b")")?;
    Ok(())
}
