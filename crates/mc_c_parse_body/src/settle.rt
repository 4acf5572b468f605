// What becomes of a whole statement.
ghost use Rattle.std.specs.Prelude.{◌≡◌, ℕ, List, None, IfOk};
ghost use Rattle.mc_c_syntax.specs.Ast.Classes.{IsClass};
ghost use Rattle.mc_c_syntax.specs.Ast.Names.{is_in};
ghost use Rattle.mc_c_syntax.specs.Ast.Trees.{Stmt};
ghost use Rattle.mc_c_syntax.specs.Ast.Views.{condition_of, statement_of};
ghost use Rattle.mc_c_parse_body.specs.declared.frames.Frame.{Frame};
ghost use Rattle.mc_c_parse_body.specs.declared.settle.Settled.TheVariants as Settled;
ghost use Rattle.mc_c_parse_body.specs.Bodies.{CompletesBody, IsBodyStep};
ghost use Rattle.mc_c_parse_body.specs.Frames.{Around, Behind, BehindFirst, Inside};
ghost use Rattle.mc_c_parse_body.specs.Phrases.{AgreeAt};
ghost use Rattle.mc_c_parse_body.specs.Turns.{AtSettled, AtTurn};

use crate::begin::at_start;
use crate::frames::{Frame, Nest};
use crate::makes::{for_of, if_else_of, if_of, while_of};
use crate::phrase::Phrase;
use crate::state::{BodyReader, BodyStep, Purpose, State};
use crate::step::expect;
use mc_base::text::{Place, Token};
use mc_c_parse_expr::ConditionReader;
use mc_c_syntax::ast::{Class, Condition, Statement};
use std::alloc::{AllocError, Global};
use std::mem;

/// What becomes of a statement in a frame.
#[derive(Drop)]
pub enum Turn {
    /// The frame is whole with it.
    Whole(Statement),
    /// The next statement begins in this frame.
    Start(Frame),
    /// The second part of an `if` begins in this frame, after the `else`.
    Else(Frame),
    /// The condition of a `do` comes next.
    Do(Place, Statement),
}

/// The same, in a nest.
#[derive(Drop)]
pub enum Settled {
    Start(Nest),
    Else(Nest),
    Do(Nest, Place, Statement),
}

/// After a whole statement.
pub fn behind(
    reader: &mut BodyReader,
    statement: Statement,
    token: &Token,
    class: Class,
    alias: bool,
) -> Result<BodyStep, AllocError>
    requires kind { IsClass token.now class }
    requires ready { reader.old.expected ≡ None }
    ensures { (aliases : List (List ℕ)) → is_in aliases token.now.text ≡ alias
        → IfOk result (IsBodyStep (Around aliases reader.old.nest (statement_of statement)) (CompletesBody aliases reader.new) token.now) }
{
    let empty = Nest::new(reader.nest.alloc);
    let nest = mem::replace(&mut reader.nest, empty);
    let settled = settle(nest, statement, token, class)?;
    match settled {
        Settled::Start(nest) => {
            reader.nest = nest;
            at_start(reader, token, class, alias)
        }
        Settled::Else(nest) => {
            reader.nest = nest;
            Ok(behind_else(reader, token, class))
        }
        Settled::Do(nest, place, part) => {
            reader.nest = nest;
            behind_do(reader, place, part, token, class)
        }
    }
}

/// The statement as part of what it stands in, as far as the token goes.
fn settle(
    nest: Nest,
    statement: Statement,
    token: &Token,
    class: Class,
) -> Result<Settled, AllocError>
    requires { IsClass token.now class }
    ensures { IfOk result (λ settled. (aliases : List (List ℕ))
        → AgreeAt (Around aliases nest (statement_of statement)) (AtSettled aliases settled) token.now) }
{
    let Nest {
        alloc,
        mut frames,
        mut body,
    } = nest;
    let mut statement = statement;
    'turns: loop {
        match frames.pop() {
            None => {
                body.push(statement)?;
                return Ok(Settled::Start(Nest {
                    alloc,
                    frames,
                    body,
                }));
            }
            Some(frame) => {
                let turn = turned(alloc, frame, statement, token, class)?;
                match turn {
                    Turn::Whole(whole) => statement = whole,
                    Turn::Start(frame) => {
                        let mut nest = Nest {
                            alloc,
                            frames,
                            body,
                        };
                        nest.enter(frame)?;
                        return Ok(Settled::Start(nest));
                    }
                    Turn::Else(frame) => {
                        let mut nest = Nest {
                            alloc,
                            frames,
                            body,
                        };
                        nest.enter(frame)?;
                        return Ok(Settled::Else(nest));
                    }
                    Turn::Do(place, part) => {
                        let nest = Nest {
                            alloc,
                            frames,
                            body,
                        };
                        return Ok(Settled::Do(nest, place, part));
                    }
                }
            }
        }
    }
}

/// The statement in its frame.
fn turned(
    alloc: Global,
    frame: Frame,
    statement: Statement,
    token: &Token,
    class: Class,
) -> Result<Turn, AllocError>
    requires { IsClass token.now class }
    ensures { IfOk result (λ turn. (aliases : List (List ℕ)) (frames : List Frame) (body : List Stmt)
        → AgreeAt (Inside aliases frame (Behind aliases frames body) (statement_of statement))
        (AtTurn aliases frames body turn) token.now) }
{
    match frame {
        Frame::Block(place, mut statements) => {
            statements.push(statement)?;
            Ok(Turn::Start(Frame::Block(place, statements)))
        }
        Frame::If(place, condition) => first_part(alloc, place, condition, statement, token, class),
        Frame::Else(place, condition, first) => {
            let whole = if_else_of(alloc, place, condition, first, statement)?;
            Ok(Turn::Whole(whole))
        }
        Frame::While(place, condition) => {
            let whole = while_of(alloc, place, condition, statement)?;
            Ok(Turn::Whole(whole))
        }
        Frame::Do(place) => Ok(Turn::Do(place, statement)),
        Frame::For(head) => {
            let whole = for_of(alloc, head, statement)?;
            Ok(Turn::Whole(whole))
        }
    }
}

/// The first part of an `if`: an `else` makes it wait for the second.
fn first_part(
    alloc: Global,
    place: Place,
    condition: Condition,
    statement: Statement,
    token: &Token,
    class: Class,
) -> Result<Turn, AllocError>
    requires { IsClass token.now class }
    ensures { IfOk result (λ turn. (aliases : List (List ℕ)) (frames : List Frame) (body : List Stmt)
        → AgreeAt (BehindFirst aliases place (condition_of condition) (Behind aliases frames body)
        (statement_of statement)) (AtTurn aliases frames body turn) token.now) }
{
    match class {
        Class::Else => Ok(Turn::Else(Frame::Else(place, condition, Box::new(alloc, statement)?))),
        _ => {
            let whole = if_of(alloc, place, condition, statement)?;
            Ok(Turn::Whole(whole))
        }
    }
}

/// At an `else`.
fn behind_else(reader: &mut BodyReader, token: &Token, class: Class) -> BodyStep
    requires kind { IsClass token.now class }
    requires ready { reader.old.expected ≡ None }
    ensures { (aliases : List (List ℕ))
        → IsBodyStep (AtSettled aliases (Settled.Else reader.old.nest))
        (CompletesBody aliases reader.new) token.now result }
{
    match class {
        Class::Else => {
            reader.state = State::Start;
            BodyStep::Taken
        }
        _ => BodyStep::Stuck,
    }
}

/// After the body of a `do`.
fn behind_do(
    reader: &mut BodyReader,
    place: Place,
    part: Statement,
    token: &Token,
    class: Class,
) -> Result<BodyStep, AllocError>
    requires { IsClass token.now class }
    ensures { (aliases : List (List ℕ))
        → IfOk result (IsBodyStep (AtSettled aliases (Settled.Do reader.old.nest place part))
        (CompletesBody aliases reader.new) token.now) }
{
    let alloc = reader.nest.alloc;
    let fresh = ConditionReader::new(alloc);
    let inner = Box::new(alloc, fresh)?;
    reader.state = State::Condition(Purpose::Do(place, part), inner);
    Ok(expect(reader, Phrase::WhileOpen, token, class))
}
