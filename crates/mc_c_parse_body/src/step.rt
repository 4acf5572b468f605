// What the states of a reader do with a token.
//
// What has large values of its own is kept out of line: a function clears all its values when it begins.
ghost use Rattle.std.specs.Prelude.{◌≡◌, ℕ, List, Option, None, IfOk};
ghost use Rattle.mc_c_syntax.specs.Ast.Classes.{IsClass};
ghost use Rattle.mc_c_syntax.specs.Ast.Names.{is_in};
ghost use Rattle.mc_c_syntax.specs.declared.ast.trees.Condition.{Condition};
ghost use Rattle.mc_c_syntax.specs.declared.ast.trees.ForStart.{ForStart};
ghost use Rattle.mc_c_syntax.specs.declared.ast.trees.Statement.{Statement};
ghost use Rattle.mc_c_parse_body.specs.declared.state.State.TheVariants as State;
ghost use Rattle.mc_c_parse_body.specs.Bodies.{CompletesBody, IsBodyStep};
ghost use Rattle.mc_c_parse_body.specs.Phrases.{Expects, classes_of};
ghost use Rattle.mc_c_parse_body.specs.States.{AtState};

use crate::begin::at_start;
use crate::inner::{
    at_for_condition, at_last, behind_return, in_condition, in_freed, in_last, in_line, in_shape,
    in_value,
};
use crate::phrase::Phrase;
use crate::settle::behind;
use crate::state::{BodyReader, BodyStep, State};
use mc_base::text::{Place, Token};
use mc_c_syntax::ast::{Class, ForStart, Statement};
use std::alloc::AllocError;
use std::mem;

/// Takes the first token of a phrase.
pub fn expect(reader: &mut BodyReader, phrase: Phrase, token: &Token, class: Class) -> BodyStep
    requires { IsClass token.now class }
    ensures { (aliases : List (List ℕ))
        → IsBodyStep (Expects (classes_of phrase) (AtState aliases reader.old.nest reader.old.state))
        (CompletesBody aliases reader.new) token.now result }
{
    if phrase.begins_with(class) {
        reader.expected = phrase.behind();
        BodyStep::Taken
    } else {
        BodyStep::Stuck
    }
}

/// Takes a token where none is expected.
pub fn at_state(
    reader: &mut BodyReader,
    token: &Token,
    class: Class,
    alias: bool,
) -> Result<BodyStep, AllocError>
    requires kind { IsClass token.now class }
    requires ready { reader.old.expected ≡ None }
    ensures { (aliases : List (List ℕ)) → is_in aliases token.now.text ≡ alias
        → IfOk result (IsBodyStep (AtState aliases reader.old.nest reader.old.state) (CompletesBody aliases reader.new) token.now) }
{
    match &mut reader.state {
        State::Start => at_start(reader, token, class, alias),
        State::Behind(_) => behind_whole(reader, token, class, alias),
        State::Line(_, _) => in_line(reader, token, class, alias),
        State::Freed(_, _) => in_freed(reader, token, class),
        State::Condition(_, _) => in_condition(reader, token, class),
        State::Return(place) => {
            let place = *place;
            behind_return(reader, place, token, class, alias)
        }
        State::Value(_, _) => in_value(reader, token, class, alias),
        State::ForCondition(_, _) => behind_for_start(reader, token, class),
        State::ForLast(_, _, _) => behind_for_condition(reader, token, class, alias),
        State::Last(_, _, _, _) => in_last(reader, token, class, alias),
        State::Shape(_) => in_shape(reader, token, class),
    }
}

/// After a statement.
#[inline(never)]
fn behind_whole(
    reader: &mut BodyReader,
    token: &Token,
    class: Class,
    alias: bool,
) -> Result<BodyStep, AllocError>
    requires kind { IsClass token.now class }
    requires ready { reader.old.expected ≡ None }
    ensures { (statement : Statement) → reader.old.state ≡ State.Behind statement → (aliases : List (List ℕ))
        → is_in aliases token.now.text ≡ alias
        → IfOk result (IsBodyStep (AtState aliases reader.old.nest reader.old.state) (CompletesBody aliases reader.new) token.now) }
{
    match &mut reader.state {
        State::Behind(statement) => {
            let whole = mem::replace(statement, Statement::Empty(token.place));
            behind(reader, whole, token, class, alias)
        }
        _ => Ok(BodyStep::Stuck),
    }
}

/// After what a `for` begins with.
#[inline(never)]
fn behind_for_start(
    reader: &mut BodyReader,
    token: &Token,
    class: Class,
) -> Result<BodyStep, AllocError>
    requires kind { IsClass token.now class }
    requires ready { reader.old.expected ≡ None }
    ensures { (place : Place) (start : ForStart) → reader.old.state ≡ State.ForCondition place start
        → (aliases : List (List ℕ))
        → IfOk result (IsBodyStep (AtState aliases reader.old.nest reader.old.state) (CompletesBody aliases reader.new) token.now) }
{
    match &mut reader.state {
        State::ForCondition(place, start) => {
            let place = *place;
            let start = mem::replace(start, ForStart::Nothing);
            at_for_condition(reader, place, start, token, class)
        }
        _ => Ok(BodyStep::Stuck),
    }
}

/// After the condition of a `for`.
#[inline(never)]
fn behind_for_condition(
    reader: &mut BodyReader,
    token: &Token,
    class: Class,
    alias: bool,
) -> Result<BodyStep, AllocError>
    requires kind { IsClass token.now class }
    requires ready { reader.old.expected ≡ None }
    ensures { (place : Place) (start : ForStart) (condition : Option Condition)
        → reader.old.state ≡ State.ForLast place start condition → (aliases : List (List ℕ))
        → is_in aliases token.now.text ≡ alias
        → IfOk result (IsBodyStep (AtState aliases reader.old.nest reader.old.state) (CompletesBody aliases reader.new) token.now) }
{
    match &mut reader.state {
        State::ForLast(place, start, condition) => {
            let place = *place;
            let start = mem::replace(start, ForStart::Nothing);
            let condition = mem::replace(condition, None);
            at_last(reader, place, start, condition, token, class, alias)
        }
        _ => Ok(BodyStep::Stuck),
    }
}
