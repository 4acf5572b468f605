// What the readers within a statement do with a token.
ghost use Rattle.std.specs.Prelude.{◌≡◌, ℕ, List, [], ◌∷◌, Option, None, IfOk, Box};
ghost use Rattle.std.specs.declared.alloc.Global.{Global};
ghost use Rattle.mc_c_syntax.specs.declared.ast.class.Class.TheVariants as Class;
ghost use Rattle.mc_c_syntax.specs.Ast.Classes.{IsClass};
ghost use Rattle.mc_c_syntax.specs.Ast.Names.{is_in};
ghost use Rattle.mc_c_syntax.specs.Ast.Readers.{IsSame};
ghost use Rattle.mc_c_syntax.specs.Ast.Views.{condition_of, expression_of, right_of, start_of, statement_of};
ghost use Rattle.mc_c_syntax.specs.declared.ast.trees.Condition.{Condition};
ghost use Rattle.mc_c_syntax.specs.declared.ast.trees.ForStart.{ForStart};
ghost use Rattle.mc_c_parse_body.specs.declared.line.LineReader.{LineReader};
ghost use Rattle.mc_c_parse_body.specs.declared.shape.ShapeReader.{ShapeReader};
ghost use Rattle.mc_c_parse_body.specs.declared.state.BodyStep.TheVariants as BodyStep;
ghost use Rattle.mc_c_parse_body.specs.declared.state.LinePurpose.{LinePurpose};
ghost use Rattle.mc_c_parse_body.specs.declared.state.Purpose.{Purpose};
ghost use Rattle.mc_c_parse_body.specs.declared.state.State.TheVariants as State;
ghost use Rattle.mc_c_parse_body.specs.Bodies.{CompletesBody, IsBodyStep};
ghost use Rattle.mc_c_parse_body.specs.Frames.{Around, AtStart, body_of, frames_of};
ghost use Rattle.mc_c_parse_body.specs.Phrases.{Expects};
ghost use Rattle.mc_c_parse_body.specs.States.{AtState, BehindFreed, BehindLine, BehindPurpose, BehindValue, line_of};

use crate::frames::Frame;
use crate::line::{LineReader, LineStep};
use crate::makes::do_of;
use crate::phrase::Phrase;
use crate::shape::{Command, ShapeReader, ShapeStep};
use crate::state::{BodyReader, BodyStep, LinePurpose, Purpose, State};
use crate::step::expect;
use mc_base::text::{Place, Token};
use mc_c_parse_expr::{ConditionReader, ConditionStep, ExpressionReader, ExpressionStep};
use mc_c_parse_simple::{RightReader, RightStep, SimpleReader, SimpleStep};
use mc_c_syntax::ast::{Class, Condition, Expression, ForHead, ForStart, RightSide, Statement};
use std::alloc::AllocError;
use std::mem;

/// Within the parentheses of a `free`.
pub fn in_freed(
    reader: &mut BodyReader,
    token: &Token,
    class: Class,
) -> Result<BodyStep, AllocError>
    requires kind { IsClass token.now class }
    requires ready { reader.old.expected ≡ None }
    ensures { (place : Place) (freed : Box ExpressionReader Global) → reader.old.state ≡ State.Freed place freed
        → (aliases : List (List ℕ))
        → IfOk result (IsBodyStep (AtState aliases reader.old.nest reader.old.state) (CompletesBody aliases reader.new) token.now) }
{
    match &mut reader.state {
        State::Freed(place, inner) => {
            let place = *place;
            let step = inner.step(token, class)?;
            match step {
                ExpressionStep::Taken => Ok(BodyStep::Taken),
                ExpressionStep::Found(freed) => Ok(behind_freed(
                    reader, place, freed, token, class,
                )),
                ExpressionStep::Stuck => Ok(BodyStep::Stuck),
            }
        }
        _ => Ok(BodyStep::Stuck),
    }
}

/// After the expression of a `free`.
fn behind_freed(
    reader: &mut BodyReader,
    place: Place,
    freed: Expression,
    token: &Token,
    class: Class,
) -> BodyStep
    requires { IsClass token.now class }
    ensures { (aliases : List (List ℕ))
        → IsBodyStep (BehindFreed place (Around aliases reader.old.nest) (expression_of freed))
        (CompletesBody aliases reader.new) token.now result }
{
    reader.state = State::Behind(Statement::Free(place, freed));
    expect(reader, Phrase::CloseSemicolon, token, class)
}

/// Within a condition.
pub fn in_condition(
    reader: &mut BodyReader,
    token: &Token,
    class: Class,
) -> Result<BodyStep, AllocError>
    requires kind { IsClass token.now class }
    requires ready { reader.old.expected ≡ None }
    ensures { (purpose : Purpose) (condition : Box ConditionReader Global)
        → reader.old.state ≡ State.Condition purpose condition → (aliases : List (List ℕ))
        → IfOk result (IsBodyStep (AtState aliases reader.old.nest reader.old.state) (CompletesBody aliases reader.new) token.now) }
{
    match &mut reader.state {
        State::Condition(_, inner) => {
            let step = inner.step(token, class)?;
            match step {
                ConditionStep::Taken => Ok(BodyStep::Taken),
                ConditionStep::Found(condition) => {
                    behind_condition(reader, condition, token, class)
                }
                ConditionStep::Stuck => Ok(BodyStep::Stuck),
            }
        }
        _ => Ok(BodyStep::Stuck),
    }
}

/// After a condition. It is kept out of line: a function clears all its values when it begins, and here they are large.
#[inline(never)]
fn behind_condition(
    reader: &mut BodyReader,
    condition: Condition,
    token: &Token,
    class: Class,
) -> Result<BodyStep, AllocError>
    requires { IsClass token.now class }
    ensures { (purpose : Purpose) (inner : Box ConditionReader Global)
        → reader.old.state ≡ State.Condition purpose inner → (aliases : List (List ℕ))
        → IfOk result (IsBodyStep (BehindPurpose aliases purpose (Around aliases reader.old.nest)
        (condition_of condition)) (CompletesBody aliases reader.new) token.now) }
{
    match &mut reader.state {
        State::Condition(purpose, _) => {
            let purpose = mem::replace(purpose, Purpose::Assert(token.place));
            behind_purpose(reader, purpose, condition, token, class)
        }
        _ => Ok(BodyStep::Stuck),
    }
}

/// After a condition for this purpose.
fn behind_purpose(
    reader: &mut BodyReader,
    purpose: Purpose,
    condition: Condition,
    token: &Token,
    class: Class,
) -> Result<BodyStep, AllocError>
    requires { IsClass token.now class }
    ensures { (aliases : List (List ℕ))
        → IfOk result (IsBodyStep (BehindPurpose aliases purpose (Around aliases reader.old.nest)
        (condition_of condition)) (CompletesBody aliases reader.new) token.now) }
{
    match purpose {
        Purpose::Assert(place) => {
            reader.state = State::Behind(Statement::Assert(place, condition));
            Ok(expect(reader, Phrase::CloseSemicolon, token, class))
        }
        Purpose::Assume(place) => {
            reader.state = State::Behind(Statement::Assume(place, condition));
            Ok(expect(reader, Phrase::CloseSemicolon, token, class))
        }
        Purpose::If(place) => enter(reader, Frame::If(place, condition), token, class),
        Purpose::While(place) => enter(reader, Frame::While(place, condition), token, class),
        Purpose::Do(place, part) => {
            let statement = do_of(reader.nest.alloc, place, part, condition)?;
            reader.state = State::Behind(statement);
            Ok(expect(reader, Phrase::CloseSemicolon, token, class))
        }
        Purpose::For(place, start) => {
            reader.state = State::ForLast(place, start, Some(condition));
            Ok(expect(reader, Phrase::Semicolon, token, class))
        }
    }
}

/// At the `)` after which a statement begins in this frame.
fn enter(
    reader: &mut BodyReader,
    frame: Frame,
    token: &Token,
    class: Class,
) -> Result<BodyStep, AllocError>
    requires { IsClass token.now class }
    ensures { (aliases : List (List ℕ))
        → IfOk result (IsBodyStep (Expects (Class.CloseParen
        ∷ []) (AtStart aliases (frame
        ∷ frames_of reader.old.nest) (body_of reader.old.nest))) (CompletesBody aliases reader.new) token.now) }
{
    reader.nest.enter(frame)?;
    reader.state = State::Start;
    Ok(expect(reader, Phrase::Close, token, class))
}

/// Within a line.
pub fn in_line(
    reader: &mut BodyReader,
    token: &Token,
    class: Class,
    alias: bool,
) -> Result<BodyStep, AllocError>
    requires kind { IsClass token.now class }
    requires ready { reader.old.expected ≡ None }
    ensures { (purpose : LinePurpose) (line : LineReader) → reader.old.state ≡ State.Line purpose line
        → (aliases : List (List ℕ)) → is_in aliases token.now.text ≡ alias
        → IfOk result (IsBodyStep (AtState aliases reader.old.nest reader.old.state) (CompletesBody aliases reader.new) token.now) }
{
    let alloc = reader.nest.alloc;
    match &mut reader.state {
        State::Line(purpose, inner) => {
            let purpose = *purpose;
            let step = inner.step(alloc, token, class, alias)?;
            match step {
                LineStep::Taken => Ok(BodyStep::Taken),
                LineStep::Closed(start) => Ok(behind_line(reader, purpose, start)),
                LineStep::Stuck => Ok(BodyStep::Stuck),
            }
        }
        _ => Ok(BodyStep::Stuck),
    }
}

/// After a line.
fn behind_line(reader: &mut BodyReader, purpose: LinePurpose, start: ForStart) -> BodyStep
    requires { reader.old.expected ≡ None }
    ensures step { result ≡ BodyStep.Taken }
    ensures same { (aliases : List (List ℕ))
        → IsSame (CompletesBody aliases reader.new)
        (BehindLine aliases purpose (Around aliases reader.old.nest) (start_of start)) }
{
    match purpose {
        LinePurpose::Statement(place) => {
            reader.state = State::Behind(line_statement(place, start));
            BodyStep::Taken
        }
        LinePurpose::For(place) => {
            reader.state = State::ForCondition(place, start);
            BodyStep::Taken
        }
    }
}

/// The statement that a line is.
fn line_statement(place: Place, start: ForStart) -> Statement
    ensures { statement_of result ≡ line_of place (start_of start) }
{
    match start {
        ForStart::Nothing => Statement::Empty(place),
        ForStart::Declaration(declaration) => Statement::Declaration(declaration),
        ForStart::Simple(simple) => Statement::Simple(simple),
    }
}

/// After `return`.
pub fn behind_return(
    reader: &mut BodyReader,
    place: Place,
    token: &Token,
    class: Class,
    alias: bool,
) -> Result<BodyStep, AllocError>
    requires kind { IsClass token.now class }
    requires ready { reader.old.expected ≡ None }
    ensures { (aliases : List (List ℕ)) → is_in aliases token.now.text ≡ alias
        → IfOk result (IsBodyStep (AtState aliases reader.old.nest (State.Return place)) (CompletesBody aliases reader.new) token.now) }
{
    match class {
        Class::Semicolon => {
            reader.state = State::Behind(Statement::Return(place, None));
            Ok(BodyStep::Taken)
        }
        _ => {
            let alloc = reader.nest.alloc;
            let fresh = RightReader::new(alloc);
            let value = Box::new(alloc, fresh)?;
            reader.state = State::Value(place, value);
            in_value(reader, token, class, alias)
        }
    }
}

/// Within the value of a `return`.
pub fn in_value(
    reader: &mut BodyReader,
    token: &Token,
    class: Class,
    alias: bool,
) -> Result<BodyStep, AllocError>
    requires kind { IsClass token.now class }
    requires ready { reader.old.expected ≡ None }
    ensures { (place : Place) (value : Box RightReader Global) → reader.old.state ≡ State.Value place value
        → (aliases : List (List ℕ)) → is_in aliases token.now.text ≡ alias
        → IfOk result (IsBodyStep (AtState aliases reader.old.nest reader.old.state) (CompletesBody aliases reader.new) token.now) }
{
    match &mut reader.state {
        State::Value(place, inner) => {
            let place = *place;
            let step = inner.step(token, class, alias)?;
            match step {
                RightStep::Taken => Ok(BodyStep::Taken),
                RightStep::Found(value) => Ok(behind_value(reader, place, value, token, class)),
                RightStep::Stuck => Ok(BodyStep::Stuck),
            }
        }
        _ => Ok(BodyStep::Stuck),
    }
}

/// After the value of a `return`.
fn behind_value(
    reader: &mut BodyReader,
    place: Place,
    value: RightSide,
    token: &Token,
    class: Class,
) -> BodyStep
    requires { IsClass token.now class }
    ensures { (aliases : List (List ℕ))
        → IsBodyStep (BehindValue place (Around aliases reader.old.nest) (right_of value))
        (CompletesBody aliases reader.new) token.now result }
{
    reader.state = State::Behind(Statement::Return(place, Some(value)));
    expect(reader, Phrase::Semicolon, token, class)
}

/// At the condition of a `for`.
pub fn at_for_condition(
    reader: &mut BodyReader,
    place: Place,
    start: ForStart,
    token: &Token,
    class: Class,
) -> Result<BodyStep, AllocError>
    requires kind { IsClass token.now class }
    requires ready { reader.old.expected ≡ None }
    ensures { (aliases : List (List ℕ))
        → IfOk result (IsBodyStep (AtState aliases reader.old.nest (State.ForCondition place start))
        (CompletesBody aliases reader.new) token.now) }
{
    match class {
        Class::Semicolon => {
            reader.state = State::ForLast(place, start, None);
            Ok(BodyStep::Taken)
        }
        _ => {
            let alloc = reader.nest.alloc;
            let fresh = ConditionReader::new(alloc);
            let inner = Box::new(alloc, fresh)?;
            reader.state = State::Condition(Purpose::For(place, start), inner);
            in_condition(reader, token, class)
        }
    }
}

/// At the last part of a `for`.
pub fn at_last(
    reader: &mut BodyReader,
    place: Place,
    start: ForStart,
    condition: Option<Condition>,
    token: &Token,
    class: Class,
    alias: bool,
) -> Result<BodyStep, AllocError>
    requires kind { IsClass token.now class }
    requires ready { reader.old.expected ≡ None }
    ensures { (aliases : List (List ℕ)) → is_in aliases token.now.text ≡ alias
        → IfOk result (IsBodyStep (AtState aliases reader.old.nest (State.ForLast place start condition))
        (CompletesBody aliases reader.new) token.now) }
{
    match class {
        Class::CloseParen => {
            let head = ForHead {
                place,
                start,
                condition,
                last: None,
            };
            let head = Box::new(reader.nest.alloc, head)?;
            enter(reader, Frame::For(head), token, class)
        }
        _ => {
            let alloc = reader.nest.alloc;
            let fresh = SimpleReader::new(alloc);
            let inner = Box::new(alloc, fresh)?;
            reader.state = State::Last(place, start, condition, inner);
            in_last(reader, token, class, alias)
        }
    }
}

/// Within the last part of a `for`.
pub fn in_last(
    reader: &mut BodyReader,
    token: &Token,
    class: Class,
    alias: bool,
) -> Result<BodyStep, AllocError>
    requires kind { IsClass token.now class }
    requires ready { reader.old.expected ≡ None }
    ensures { (place : Place) (start : ForStart) (condition : Option Condition) (last : Box SimpleReader Global)
        → reader.old.state ≡ State.Last place start condition last → (aliases : List (List ℕ))
        → is_in aliases token.now.text ≡ alias
        → IfOk result (IsBodyStep (AtState aliases reader.old.nest reader.old.state) (CompletesBody aliases reader.new) token.now) }
{
    match &mut reader.state {
        State::Last(place, start, condition, inner) => {
            let step = inner.step(token, class, alias)?;
            match step {
                SimpleStep::Taken => Ok(BodyStep::Taken),
                SimpleStep::Found(last) => {
                    let head = ForHead {
                        place: *place,
                        start: mem::replace(start, ForStart::Nothing),
                        condition: mem::replace(condition, None),
                        last: Some(last),
                    };
                    let head = Box::new(reader.nest.alloc, head)?;
                    enter(reader, Frame::For(head), token, class)
                }
                SimpleStep::Stuck => Ok(BodyStep::Stuck),
            }
        }
        _ => Ok(BodyStep::Stuck),
    }
}

/// Within a shape command.
pub fn in_shape(
    reader: &mut BodyReader,
    token: &Token,
    class: Class,
) -> Result<BodyStep, AllocError>
    requires kind { IsClass token.now class }
    requires ready { reader.old.expected ≡ None }
    ensures { (shape : ShapeReader) → reader.old.state ≡ State.Shape shape → (aliases : List (List ℕ))
        → IfOk result (IsBodyStep (AtState aliases reader.old.nest reader.old.state) (CompletesBody aliases reader.new) token.now) }
{
    let alloc = reader.nest.alloc;
    match &mut reader.state {
        State::Shape(inner) => {
            let start = ShapeReader::Predicate(Command::Assume, token.place);
            let shape = mem::replace(inner, start);
            let step = shape.step(alloc, token, class)?;
            match step {
                ShapeStep::Taken(next) => {
                    *inner = next;
                    Ok(BodyStep::Taken)
                }
                ShapeStep::Closed(statement) => {
                    reader.expected = Some(Phrase::Semicolon);
                    reader.state = State::Behind(statement);
                    Ok(BodyStep::Taken)
                }
                ShapeStep::Stuck => Ok(BodyStep::Stuck),
            }
        }
        _ => Ok(BodyStep::Stuck),
    }
}
