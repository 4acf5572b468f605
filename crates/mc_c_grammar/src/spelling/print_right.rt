// How calls, allocations and right sides are printed.
ghost use Rattle.mc_c_syntax.specs.Ast.Views.{call_of, expression_of, right_of};
ghost use Rattle.mc_c_grammar.specs.Spelling.Words.{Prints, base_words, call_words, cast_words, declarator_words, expression_words};
ghost use Rattle.mc_c_grammar.specs.Spelling.Words.{listed_words, malloc_words, maybe_words, more_words, right_words, size_words};
ghost use Rattle.mc_c_grammar.specs.Spelling.Words.{star_words};
ghost use Rattle.std.specs.Prelude.{IfOk, map};

use crate::spelling::print_expression::print_expression;
use crate::spelling::print_word::{print_name, print_opening, print_word};
use mc_base::text::Place;
use mc_c_syntax::ast::{Base, Call, Cast, Declarator, Expression, Malloc, RightSide, Size};
use std::alloc::{AllocError, Global};

pub fn print_call(alloc: Global, out: &mut Vec<u8>, call: &Call) -> Result<(), AllocError>
    ensures { IfOk result (λ _. Prints out.old.items (call_words (call_of call.now)) out.new.items) }
{
    print_name(out, &call.function)?;
    print_word(out, b"(")?;
    print_expressions(alloc, out, call.arguments.as_slice())?;
    print_word(out, b")")
}

fn print_expressions(
    alloc: Global,
    out: &mut Vec<u8>,
    expressions: &[Expression],
) -> Result<(), AllocError>
    ensures { IfOk result (λ _. Prints out.old.items (listed_words expression_words (map expression_of expressions.now)) out.new.items) }
{
    let [first, rest @ ..] = expressions else {
        return Ok(());
    };
    print_expression(alloc, out, first)?;
    print_more_expressions(alloc, out, rest)
}

fn print_more_expressions(
    alloc: Global,
    out: &mut Vec<u8>,
    expressions: &[Expression],
) -> Result<(), AllocError>
    ensures { IfOk result (λ _. Prints out.old.items (more_words expression_words (map expression_of expressions.now)) out.new.items) }
{
    for expression in expressions {
        print_word(out, b",")?;
        print_expression(alloc, out, expression)?;
    }
    Ok(())
}

pub fn print_base(out: &mut Vec<u8>, base: &Base) -> Result<(), AllocError>
    ensures { IfOk result (λ _. Prints out.old.items (base_words base.now) out.new.items) }
{
    match base {
        Base::Int(_) => print_word(out, b"int")?,
        Base::Struct(_, name) => {
            print_word(out, b"struct")?;
            print_name(out, name)?;
        }
        Base::Alias(name) => print_name(out, name)?,
    }
    Ok(())
}

pub fn print_star(out: &mut Vec<u8>, pointer: &Option<Place>) -> Result<(), AllocError>
    ensures { IfOk result (λ _. Prints out.old.items (star_words pointer.now) out.new.items) }
{
    match pointer {
        Some(_) => print_word(out, b"*")?,
        None => {}
    }
    Ok(())
}

pub fn print_declarator(out: &mut Vec<u8>, declarator: &Declarator) -> Result<(), AllocError>
    ensures { IfOk result (λ _. Prints out.old.items (declarator_words declarator.now) out.new.items) }
{
    print_star(out, &declarator.pointer)?;
    print_name(out, &declarator.name)
}

fn print_cast(out: &mut Vec<u8>, cast: &Cast) -> Result<(), AllocError>
    ensures { IfOk result (λ _. Prints out.old.items (cast_words cast.now) out.new.items) }
{
    print_word(out, b"(")?;
    print_base(out, &cast.base)?;
    print_star(out, &cast.pointer)?;
    print_word(out, b")")
}

fn print_maybe_cast(out: &mut Vec<u8>, cast: &Option<Cast>) -> Result<(), AllocError>
    ensures { IfOk result (λ _. Prints out.old.items (maybe_words cast_words cast.now) out.new.items) }
{
    match cast {
        Some(cast) => print_cast(out, cast)?,
        None => {}
    }
    Ok(())
}

fn print_size(out: &mut Vec<u8>, size: &Size) -> Result<(), AllocError>
    ensures { IfOk result (λ _. Prints out.old.items (size_words size.now) out.new.items) }
{
    match size {
        Size::OfType(_, base) => {
            print_opening(out, b"sizeof")?;
            print_base(out, base)?;
            print_word(out, b")")?;
        }
        Size::OfParens(_, name) => {
            print_opening(out, b"sizeof")?;
            print_word(out, b"*")?;
            print_name(out, name)?;
            print_word(out, b")")?;
        }
        Size::OfValue(_, name) => {
            print_word(out, b"sizeof")?;
            print_word(out, b"*")?;
            print_name(out, name)?;
        }
    }
    Ok(())
}

fn print_malloc(out: &mut Vec<u8>, malloc: &Malloc) -> Result<(), AllocError>
    ensures { IfOk result (λ _. Prints out.old.items (malloc_words malloc.now) out.new.items) }
{
    print_maybe_cast(out, &malloc.cast)?;
    print_opening(out, b"malloc")?;
    print_size(out, &malloc.size)?;
    print_word(out, b")")
}

pub fn print_right(alloc: Global, out: &mut Vec<u8>, right: &RightSide) -> Result<(), AllocError>
    ensures { IfOk result (λ _. Prints out.old.items (right_words (right_of right.now)) out.new.items) }
{
    match right {
        RightSide::Expression(expression) => print_expression(alloc, out, expression)?,
        RightSide::Call(call) => print_call(alloc, out, call)?,
        RightSide::Malloc(malloc) => print_malloc(out, malloc)?,
    }
    Ok(())
}
