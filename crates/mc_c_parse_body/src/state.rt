// The reader of the statements of a function.
ghost use Rattle.std.specs.Prelude.{◌≡◌, ℕ, List, IfOk};
ghost use Rattle.mc_c_syntax.specs.Ast.Classes.{IsClass};
ghost use Rattle.mc_c_syntax.specs.Ast.Names.{is_in};
ghost use Rattle.mc_c_syntax.specs.Ast.Readers.{CanEnd, IsSame};
ghost use Rattle.mc_c_parse_body.specs.declared.state.BodyReader.{BodyReader};
ghost use Rattle.mc_c_parse_body.specs.Bodies.{Bodies, CompletesBody, IsBodyStep};

use crate::frames::Nest;
use crate::line::LineReader;
use crate::phrase::Phrase;
use crate::shape::ShapeReader;
use crate::step::{at_state, expect};
use mc_base::text::{Place, Token};
use mc_c_parse_expr::{ConditionReader, ExpressionReader, conditions_can_end, expressions_can_end};
use mc_c_parse_simple::{
    RightReader, SimpleReader, declarations_can_end, rights_can_end, simples_can_end,
};
use mc_c_syntax::ast::{Class, Condition, ForStart, Statement};
use std::alloc::{AllocError, Global};

/// What a line is for.
#[derive(Clone, Copy, Drop)]
pub enum LinePurpose {
    /// A statement, at its first token.
    Statement(Place),
    /// What a `for` begins with.
    For(Place),
}

/// What a condition is for.
#[derive(Drop)]
pub enum Purpose {
    Assert(Place),
    Assume(Place),
    If(Place),
    While(Place),
    /// The condition of a `do`, after its body.
    Do(Place, Statement),
    /// The condition of a `for`, after its start.
    For(Place, ForStart),
}

/// What is read of a statement. The readers within stand in boxes, so that a state is small.
pub enum State {
    /// Nothing.
    Start,
    /// All, up to an `else` that may follow.
    Behind(Statement),
    Line(LinePurpose, LineReader),
    /// Within the parentheses of a `free`.
    Freed(Place, Box<ExpressionReader>),
    Condition(Purpose, Box<ConditionReader>),
    /// `return`
    Return(Place),
    /// Within the value of a `return`.
    Value(Place, Box<RightReader>),
    /// A `for` up to its condition.
    ForCondition(Place, ForStart),
    /// A `for` up to its last part.
    ForLast(Place, ForStart, Option<Condition>),
    /// Within the last part of a `for`.
    Last(Place, ForStart, Option<Condition>, Box<SimpleReader>),
    Shape(ShapeReader),
}

/// Drops what is read. What replaces a state calls this.
impl Drop for State {
    fn drop(self) {
        match self {
            State::Start => {}
            State::Behind(statement) => drop(statement),
            State::Line(_, reader) => drop(reader),
            State::Freed(_, reader) => drop(reader),
            State::Condition(purpose, reader) => {
                drop(purpose);
                drop(reader);
            }
            State::Return(_) => {}
            State::Value(_, reader) => drop(reader),
            State::ForCondition(_, start) => drop(start),
            State::ForLast(_, start, condition) => {
                drop(start);
                drop(condition);
            }
            State::Last(_, start, condition, reader) => {
                drop(start);
                drop(condition);
                drop(reader);
            }
            State::Shape(reader) => drop(reader),
        }
    }
}

/// Reads the statements after the `{` of a function, up to and with its `}`, token by token.
#[derive(Drop)]
pub struct BodyReader {
    pub(crate) nest: Nest,
    /// Tokens that must come before the state goes on.
    pub(crate) expected: Option<Phrase>,
    pub(crate) state: State,
}

/// What a reader does with a token.
#[derive(Drop)]
pub enum BodyStep {
    /// It takes it.
    Taken,
    /// The body ends with the token.
    Closed(Vec<Statement>),
    /// No text has this token here.
    Stuck,
}

impl BodyReader {
    /// A reader of a body.
    pub fn new(alloc: Global) -> BodyReader
        ensures { (aliases : List (List ℕ)) → IsSame (CompletesBody aliases result) (Bodies aliases) }
    {
        BodyReader {
            nest: Nest::new(alloc),
            expected: None,
            state: State::Start,
        }
    }

    /// Takes a token, or answers why not. `alias` says whether a typedef introduced the token's text.
    pub fn step(&mut self, token: &Token, class: Class, alias: bool) -> Result<BodyStep, AllocError>
        requires { IsClass token.now class }
        ensures { (aliases : List (List ℕ)) → is_in aliases token.now.text ≡ alias
            → IfOk result (IsBodyStep (CompletesBody aliases self.old) (CompletesBody aliases self.new) token.now) }
    {
        match self.expected {
            Some(phrase) => Ok(expect(self, phrase, token, class)),
            None => at_state(self, token, class, alias),
        }
    }
}

/// Every state of a reader can be completed.
pub fn bodies_can_end()
    ensures { (aliases : List (List ℕ)) (reader : BodyReader) → CanEnd (CompletesBody aliases reader) }
{
    expressions_can_end();
    conditions_can_end();
    rights_can_end();
    simples_can_end();
    declarations_can_end();
}
