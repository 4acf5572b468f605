// The first token of a statement.
ghost use Rattle.std.specs.Prelude.{◌≡◌, ℕ, List, [], ◌∷◌, Some, None, IfOk};
ghost use Rattle.mc_c_syntax.specs.Ast.Classes.{IsClass};
ghost use Rattle.mc_c_syntax.specs.Ast.Names.{is_in};
ghost use Rattle.mc_c_syntax.specs.Ast.Readers.{IsSame};
ghost use Rattle.mc_c_parse_body.specs.Bodies.{CompletesBody, IsBodyStep};
ghost use Rattle.mc_c_parse_body.specs.Frames.{Around, AtStart, body_of, frames_of};
ghost use Rattle.mc_c_parse_body.specs.Phrases.{Conditions, Expects, Statements, Sums};
ghost use Rattle.mc_c_parse_body.specs.States.{AtState, BehindFreed, BehindPurpose};
ghost use Rattle.mc_c_parse_body.specs.declared.line.LineReader.TheVariants as LineReader;
ghost use Rattle.mc_c_parse_body.specs.declared.phrase.Phrase.TheVariants as Phrase;
ghost use Rattle.mc_c_parse_body.specs.declared.shape.ShapeReader.TheVariants as ShapeReader;
ghost use Rattle.mc_c_parse_body.specs.declared.state.BodyStep.TheVariants as BodyStep;
ghost use Rattle.mc_c_parse_body.specs.declared.state.LinePurpose.TheVariants as LinePurpose;
ghost use Rattle.mc_c_parse_body.specs.declared.state.State.TheVariants as State;
ghost use Rattle.mc_c_parse_expr.specs.Turns.{InTurn};
ghost use Rattle.mc_c_syntax.specs.declared.ast.class.Class.TheVariants as Class;

use crate::frames::Frame;
use crate::inner::in_line;
use crate::line::LineReader;
use crate::makes::block_of;
use crate::phrase::Phrase;
use crate::shape::{Command, ShapeReader};
use crate::state::{BodyReader, BodyStep, LinePurpose, Purpose, State};
use mc_base::text::{Place, Token};
use mc_c_parse_expr::{ConditionReader, ExpressionReader};
use mc_c_syntax::ast::{Class, Statement};
use std::alloc::AllocError;
use std::mem;

/// Where a statement begins, or a block or the body ends.
pub fn at_start(
    reader: &mut BodyReader,
    token: &Token,
    class: Class,
    alias: bool,
) -> Result<BodyStep, AllocError>
    requires kind { IsClass token.now class }
    requires ready { reader.old.expected ≡ None }
    ensures { (aliases : List (List ℕ)) → is_in aliases token.now.text ≡ alias
        → IfOk result (IsBodyStep (AtStart aliases (frames_of reader.old.nest) (body_of reader.old.nest))
        (CompletesBody aliases reader.new) token.now) }
{
    match class {
        Class::CloseBrace => Ok(close(reader, token)),
        _ => begin(reader, token, class, alias),
    }
}

/// At a `}`.
fn close(reader: &mut BodyReader, token: &Token) -> BodyStep
    requires kind { IsClass token.now Class.CloseBrace }
    requires ready { reader.old.expected ≡ None }
    ensures { (aliases : List (List ℕ))
        → IsBodyStep (AtStart aliases (frames_of reader.old.nest) (body_of reader.old.nest))
        (CompletesBody aliases reader.new) token.now result }
{
    match reader.nest.frames.pop() {
        None => {
            let nothing = Vec::new(reader.nest.alloc);
            BodyStep::Closed(mem::replace(&mut reader.nest.body, nothing))
        }
        Some(frame) => close_frame(reader, frame, token),
    }
}

/// At a `}` in this frame.
fn close_frame(reader: &mut BodyReader, frame: Frame, token: &Token) -> BodyStep
    requires kind { IsClass token.now Class.CloseBrace }
    requires ready { reader.old.expected ≡ None }
    ensures { (aliases : List (List ℕ))
        → IsBodyStep (AtStart aliases (frame ∷ frames_of reader.old.nest) (body_of reader.old.nest))
        (CompletesBody aliases reader.new) token.now result }
{
    match frame {
        Frame::Block(place, statements) => {
            let block = block_of(place, statements);
            reader.state = State::Behind(block);
            BodyStep::Taken
        }
        Frame::If(_, _) => BodyStep::Stuck,
        Frame::Else(_, _, _) => BodyStep::Stuck,
        Frame::While(_, _) => BodyStep::Stuck,
        Frame::Do(_) => BodyStep::Stuck,
        Frame::For(_) => BodyStep::Stuck,
    }
}

/// The first token of a statement.
fn begin(
    reader: &mut BodyReader,
    token: &Token,
    class: Class,
    alias: bool,
) -> Result<BodyStep, AllocError>
    requires kind { IsClass token.now class }
    requires ready { reader.old.expected ≡ None }
    ensures { (aliases : List (List ℕ)) → is_in aliases token.now.text ≡ alias
        → IfOk result (IsBodyStep (InTurn (Statements aliases) (Around aliases reader.old.nest))
        (CompletesBody aliases reader.new) token.now) }
{
    let place = token.place;
    match class {
        Class::OpenBrace => {
            let statements = Vec::new(reader.nest.alloc);
            reader.nest.enter(Frame::Block(place, statements))?;
            reader.state = State::Start;
            Ok(BodyStep::Taken)
        }
        Class::Do => {
            reader.nest.enter(Frame::Do(place))?;
            reader.state = State::Start;
            Ok(BodyStep::Taken)
        }
        Class::Free => begin_free(reader, place),
        Class::Assert => begin_condition(reader, Purpose::Assert(place)),
        Class::Assume => begin_condition(reader, Purpose::Assume(place)),
        Class::If => begin_condition(reader, Purpose::If(place)),
        Class::While => begin_condition(reader, Purpose::While(place)),
        Class::AssumeShape => Ok(begin_shape(reader, Command::Assume, place)),
        Class::AssertShape => Ok(begin_shape(reader, Command::Assert, place)),
        Class::AssertEmpty => Ok(begin_word(
            reader,
            Phrase::OpenCloseSemicolon,
            Statement::AssertEmpty(place),
        )),
        Class::For => Ok(begin_for(reader, place)),
        Class::Break => Ok(begin_word(reader, Phrase::Semicolon, Statement::Break(place))),
        Class::Continue => Ok(begin_word(reader, Phrase::Semicolon, Statement::Continue(place))),
        Class::Return => Ok(begin_return(reader, place)),
        _ => begin_line(reader, token, class, alias),
    }
}

/// After `free`.
fn begin_free(reader: &mut BodyReader, place: Place) -> Result<BodyStep, AllocError>
    ensures { IfOk result (λ step. (step ≡ BodyStep.Taken)
        × ((aliases : List (List ℕ)) → IsSame (CompletesBody aliases reader.new) (Expects (Class.OpenParen
        ∷ []) (InTurn Sums (BehindFreed place (Around aliases reader.old.nest)))))) }
{
    let alloc = reader.nest.alloc;
    let fresh = ExpressionReader::new(alloc);
    let inner = Box::new(alloc, fresh)?;
    reader.expected = Some(Phrase::Open);
    reader.state = State::Freed(place, inner);
    Ok(BodyStep::Taken)
}

/// After the word of a statement that a condition follows.
fn begin_condition(reader: &mut BodyReader, purpose: Purpose) -> Result<BodyStep, AllocError>
    ensures { IfOk result (λ step. (step ≡ BodyStep.Taken)
        × ((aliases : List (List ℕ)) → IsSame (CompletesBody aliases reader.new) (Expects (Class.OpenParen
        ∷ []) (InTurn Conditions (BehindPurpose aliases purpose (Around aliases reader.old.nest)))))) }
{
    let alloc = reader.nest.alloc;
    let fresh = ConditionReader::new(alloc);
    let inner = Box::new(alloc, fresh)?;
    reader.expected = Some(Phrase::Open);
    reader.state = State::Condition(purpose, inner);
    Ok(BodyStep::Taken)
}

/// After the word of a shape command.
fn begin_shape(reader: &mut BodyReader, command: Command, place: Place) -> BodyStep
    ensures step { result ≡ BodyStep.Taken }
    ensures becomes { reader.new ≡ record {
      nest = reader.old.nest;
      expected = Some Phrase.Open;
      state = State.Shape
          (ShapeReader.Predicate command place);
    } }
{
    reader.expected = Some(Phrase::Open);
    reader.state = State::Shape(ShapeReader::Predicate(command, place));
    BodyStep::Taken
}

/// After the word of a statement that has nothing else but this phrase.
fn begin_word(reader: &mut BodyReader, phrase: Phrase, statement: Statement) -> BodyStep
    ensures step { result ≡ BodyStep.Taken }
    ensures becomes { reader.new ≡ record { nest = reader.old.nest; expected = Some phrase; state = State.Behind statement } }
{
    reader.expected = Some(phrase);
    reader.state = State::Behind(statement);
    BodyStep::Taken
}

/// After `for`.
fn begin_for(reader: &mut BodyReader, place: Place) -> BodyStep
    ensures step { result ≡ BodyStep.Taken }
    ensures becomes { reader.new ≡ record {
      nest = reader.old.nest;
      expected = Some Phrase.Open;
      state = State.Line
          (LinePurpose.For place) LineReader.Start;
    } }
{
    reader.expected = Some(Phrase::Open);
    reader.state = State::Line(LinePurpose::For(place), LineReader::Start);
    BodyStep::Taken
}

/// After `return`.
fn begin_return(reader: &mut BodyReader, place: Place) -> BodyStep
    ensures step { result ≡ BodyStep.Taken }
    ensures becomes { reader.new ≡ record { nest = reader.old.nest; expected = reader.old.expected; state = State.Return place } }
{
    reader.state = State::Return(place);
    BodyStep::Taken
}

/// The first token of a line that is a statement.
fn begin_line(
    reader: &mut BodyReader,
    token: &Token,
    class: Class,
    alias: bool,
) -> Result<BodyStep, AllocError>
    requires kind { IsClass token.now class }
    requires ready { reader.old.expected ≡ None }
    ensures { (aliases : List (List ℕ)) → is_in aliases token.now.text ≡ alias
        → IfOk result (IsBodyStep (AtState aliases reader.old.nest
        (State.Line (LinePurpose.Statement token.now.place) LineReader.Start))
        (CompletesBody aliases reader.new) token.now) }
{
    reader.state = State::Line(LinePurpose::Statement(token.place), LineReader::Start);
    in_line(reader, token, class, alias)
}
