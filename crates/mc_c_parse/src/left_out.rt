// Parts of C that the language leaves out.
ghost use Rattle.mc_c_syntax.specs.Ast.Classes.{IsClass};
ghost use Rattle.mc_c_syntax.specs.Ast.Names.{is_in};
ghost use Rattle.mc_c_parse.specs.Faults.{EndsWithName, HasNoEnd, IsInnerCall, IsInnerPointer, IsLeftOut, IsOuterVariable, IsOutside, DeclaresBehind, left_out};
ghost use Rattle.std.specs.Prelude.{◌≡◌, IfOk, MatchBool};

use crate::prefix::{can_begin, can_stand, mark_at, name_like};
use mc_base::text::Token;
use mc_c_syntax::ast::{Class, classify, is_one_of};
use std::alloc::{AllocError, Global};

/// The words and marks of C that the language leaves out everywhere.
static LEFT_OUT: [&[u8]; 29] = [
    b"goto",
    b"switch",
    b"case",
    b"union",
    b"enum",
    b"char",
    b"short",
    b"long",
    b"unsigned",
    b"signed",
    b"float",
    b"double",
    b"const",
    b"volatile",
    b"extern",
    b"[",
    b"&",
    b"/",
    b"%",
    b"<<",
    b">>",
    b"?",
    b".",
    b"|",
    b"^",
    b"~",
    b"#",
    b"\"",
    b"'",
];

fn is_left_out_everywhere(text: &[u8]) -> bool
    ensures { result ≡ is_in left_out text.now }
{
    is_one_of(text, &LEFT_OUT)
}

fn ends_with_name(before: &[Token]) -> bool
    ensures { MatchBool result (EndsWithName before.now) (¬ EndsWithName before.now) }
{
    match before.split_last() {
        Some((last, _)) => match classify(last) {
            Class::Name => true,
            _ => false,
        },
        None => false,
    }
}

/// Whether the token, which can't stand after those before it, is the `(` of a call within an expression.
fn is_inner_call(
    alloc: Global,
    before: &[Token],
    token: &Token,
    class: Class,
) -> Result<bool, AllocError>
    requires no_end { HasNoEnd before.now }
    requires of { IsClass token.now class }
    ensures { IfOk result (λ is. MatchBool is (IsInnerCall before.now token.now) (¬ IsInnerCall before.now token.now)) }
{
    match class {
        Class::OpenParen => {
            if !ends_with_name(before) {
                return Ok(false);
            }
            if can_stand(alloc, before, b"+", token)? {
                return Ok(true);
            }
            can_stand(alloc, before, b"&&", token)
        }
        _ => Ok(false),
    }
}

/// Whether the token is the second `*` of a pointer to a pointer.
fn is_inner_pointer(
    alloc: Global,
    before: &[Token],
    token: &Token,
    class: Class,
) -> Result<bool, AllocError>
    requires no_end { HasNoEnd before.now }
    requires of { IsClass token.now class }
    ensures { IfOk result (λ is. MatchBool is (IsInnerPointer before.now token.now) (¬ IsInnerPointer before.now token.now)) }
{
    match class {
        Class::Star => match before.split_last() {
            Some((last, first)) => match classify(last) {
                Class::Star => declares_behind(alloc, first, last, token),
                _ => Ok(false),
            },
            None => Ok(false),
        },
        _ => Ok(false),
    }
}

/// Whether a name could stand in the place of the `*`, with a `,` or a `(` in that of the token after it.
fn declares_behind(
    alloc: Global,
    first: &[Token],
    star: &Token,
    token: &Token,
) -> Result<bool, AllocError>
    requires { HasNoEnd first.now }
    ensures { IfOk result
        (λ can. MatchBool can (DeclaresBehind first.now star.now token.now)
        (¬ DeclaresBehind first.now star.now token.now)) }
{
    let with_comma = [name_like(alloc, star)?, mark_at(alloc, b",", token.place)?];
    if can_begin(alloc, first, &with_comma)? {
        return Ok(true);
    }
    let with_paren = [name_like(alloc, star)?, mark_at(alloc, b"(", token.place)?];
    can_begin(alloc, first, &with_paren)
}

/// Whether the token belongs to a variable outside every function, or to the value of one.
fn is_outer_variable(alloc: Global, before: &[Token], token: &Token) -> Result<bool, AllocError>
    requires { HasNoEnd before.now }
    ensures { IfOk result (λ is. MatchBool is (IsOuterVariable before.now token.now) (¬ IsOuterVariable before.now token.now)) }
{
    if !is_one_of(token.text.as_slice(), &[b";", b"=", b","]) {
        return Ok(false);
    }
    if !ends_with_name(before) {
        return Ok(false);
    }
    if can_stand(alloc, before, b"+", token)? {
        return Ok(false);
    }
    is_outside(alloc, before, token)
}

/// Whether the parameters of a function could stand here, or the end of fields or of a typedef.
fn is_outside(alloc: Global, before: &[Token], token: &Token) -> Result<bool, AllocError>
    requires { HasNoEnd before.now }
    ensures { IfOk result (λ is. MatchBool is (IsOutside before.now token.now) (¬ IsOutside before.now token.now)) }
{
    if can_stand(alloc, before, b"(", token)? && !can_stand(alloc, before, b"=", token)? {
        return Ok(true);
    }
    let can = can_stand(alloc, before, b",", token)? && can_stand(alloc, before, b";", token)?;
    Ok(can)
}

/// Whether the token, which can't stand after those before it, is a part of C that the language leaves out.
pub fn is_left_out(alloc: Global, before: &[Token], token: &Token) -> Result<bool, AllocError>
    requires { HasNoEnd before.now }
    ensures { IfOk result (λ is. MatchBool is (IsLeftOut before.now token.now) (¬ IsLeftOut before.now token.now)) }
{
    if is_left_out_everywhere(token.text.as_slice()) {
        return Ok(true);
    }
    let class = classify(token);
    if is_inner_call(alloc, before, token, class)? {
        return Ok(true);
    }
    if is_inner_pointer(alloc, before, token, class)? {
        return Ok(true);
    }
    is_outer_variable(alloc, before, token)
}
