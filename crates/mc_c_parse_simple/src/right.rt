// Reads the right side of an assignment.
ghost use Rattle.std.specs.Prelude.{◌≡◌, ℕ, List, IfOk};
ghost use Rattle.mc_c_syntax.specs.Ast.Classes.{IsClass};
ghost use Rattle.mc_c_syntax.specs.Ast.Names.{is_in, IsName};
ghost use Rattle.mc_c_syntax.specs.Ast.Readers.{IsSame, CanEnd};
ghost use Rattle.mc_c_parse_simple.specs.Rights.{Rights, AsExpression, AsCall, AsAllocation, InParens, BehindTimes};
ghost use Rattle.mc_c_parse_simple.specs.Rights.{BehindRightName, BehindRightParens, BehindParensAlias, BehindParensStar};
ghost use Rattle.mc_c_parse_simple.specs.Rights.{BehindEnclosed, ClosingParens, named, CompletesRight, IsInSum, IsRightMove};
ghost use Rattle.mc_c_parse_simple.specs.Rights.{IsRightStep};
ghost use Rattle.mc_c_parse_simple.specs.Calls.{CompletesCall};
ghost use Rattle.mc_c_parse_simple.specs.Allocations.{InCast, CompletesAllocation};
ghost use Rattle.mc_base.specs.declared.text.place.Place.{Place};
ghost use Rattle.mc_c_syntax.specs.Ast.Views.{expression_of};
ghost use Rattle.mc_c_syntax.specs.Ast.Trees.{parens};
ghost use Rattle.mc_c_parse_expr.specs.Expressions.{CompletesExpression};
ghost use Rattle.mc_c_parse_simple.specs.declared.right.RightReader.{RightReader};

use crate::allocation::{AllocationReader, AllocationStep};
use crate::base::BaseReader;
use crate::call::{CallReader, CallStep};
use crate::sum::fresh_sum;
use mc_base::text::{Place, Text, Token, TokenKind};
use mc_c_parse_expr::{ExpressionReader, ExpressionStep, expressions_can_end};
use mc_c_syntax::ast::{Base, Cast, Class, Expression, LeftValue, Name, RightSide, name_at};
use std::alloc::{AllocError, Global};
use std::mem;

/// Reads the right side of an assignment, or a value that is returned.
pub struct RightReader {
    alloc: Global,
    state: RightState,
}

/// Drops what is read. What holds a reader calls this.
impl Drop for RightReader {
    fn drop(self) {
        let RightReader { state, alloc: _ } = self;
        drop(state);
    }
}

/// What is read. The readers of expressions stand in boxes, so that a state is small.
#[derive(Drop)]
enum RightState {
    Start,
    /// After a first name.
    Named(Name),
    /// After a first `(`.
    Opened(Place),
    /// After a first `(` and the name of a type.
    OpenedAlias(Place, Name),
    /// After a first `(`, the name of a type and a `*`.
    OpenedStar(Place, Name, Place),
    /// After the name of a type in parentheses.
    Enclosed(Place, Name),
    /// In an expression in parentheses, with which the right side begins.
    Parens(Place, Box<ExpressionReader>),
    Sum(Box<ExpressionReader>),
    Call(CallReader),
    Allocation(AllocationReader),
    Done(RightSide),
}

/// What a token does to a right side.
#[derive(Drop)]
pub enum RightStep {
    Taken,
    Found(RightSide),
    Stuck,
}

/// The same, with the reader after the token.
#[derive(Drop)]
enum RightMove {
    Taken(RightReader),
    Found(RightSide),
    Stuck,
}

impl RightReader {
    pub fn new(alloc: Global) -> RightReader
        ensures { (aliases : List (List ℕ)) → IsSame (CompletesRight aliases result) (Rights aliases) }
    {
        RightReader {
            alloc,
            state: RightState::Start,
        }
    }

    /// Takes a token. `alias` says whether a typedef introduced it.
    pub fn step(
        &mut self,
        token: &Token,
        class: Class,
        alias: bool,
    ) -> Result<RightStep, AllocError>
        requires { IsClass token.now class }
        ensures { (aliases : List (List ℕ)) → is_in aliases token.now.text ≡ alias
            → IfOk result
            (IsRightStep (CompletesRight aliases self.old) (CompletesRight aliases self.new) token.now) }
    {
        match &mut self.state {
            RightState::Sum(reader) => match reader.step(token, class)? {
                ExpressionStep::Taken => Ok(RightStep::Taken),
                ExpressionStep::Found(sum) => Ok(RightStep::Found(RightSide::Expression(sum))),
                ExpressionStep::Stuck => Ok(RightStep::Stuck),
            },
            _ => self.step_beside_sums(token, class, alias),
        }
    }

    /// The same where no sum is read.
    fn step_beside_sums(
        &mut self,
        token: &Token,
        class: Class,
        alias: bool,
    ) -> Result<RightStep, AllocError>
        requires class { IsClass token.now class }
        requires beside { IsInSum self.old → ⊥ }
        ensures { (aliases : List (List ℕ)) → is_in aliases token.now.text ≡ alias
            → IfOk result
            (IsRightStep (CompletesRight aliases self.old) (CompletesRight aliases self.new) token.now) }
    {
        let alloc = self.alloc;
        let reader = mem::replace(self, RightReader::new(alloc));
        let step = reader.moved(token, class, alias)?;
        match step {
            RightMove::Taken(next) => {
                *self = next;
                Ok(RightStep::Taken)
            }
            RightMove::Found(made) => Ok(RightStep::Found(made)),
            RightMove::Stuck => Ok(RightStep::Stuck),
        }
    }

    /// The same, by value.
    fn moved(self, token: &Token, class: Class, alias: bool) -> Result<RightMove, AllocError>
        requires class { IsClass token.now class }
        requires beside { IsInSum self → ⊥ }
        ensures { (aliases : List (List ℕ)) → is_in aliases token.now.text ≡ alias
            → IfOk result (IsRightMove aliases (CompletesRight aliases self) token.now) }
    {
        let RightReader { alloc, state } = self;
        match state {
            RightState::Start => start(alloc, token, class),
            RightState::Named(name) => behind_name(alloc, name, token, class),
            RightState::Opened(place) => opened(alloc, place, token, class, alias),
            RightState::OpenedAlias(place, name) => opened_alias(alloc, place, name, token, class),
            RightState::OpenedStar(place, name, star) => opened_star(
                alloc, place, name, star, token, class,
            ),
            RightState::Enclosed(place, name) => enclosed(alloc, place, name, token, class),
            RightState::Parens(place, reader) => in_parens(alloc, place, reader, token, class),
            RightState::Sum(_) => unreachable!(),
            RightState::Call(reader) => in_call(alloc, reader, token, class),
            RightState::Allocation(reader) => in_allocation(alloc, reader, token, class, alias),
            RightState::Done(right) => Ok(RightMove::Found(right)),
        }
    }
}

fn start(alloc: Global, token: &Token, class: Class) -> Result<RightMove, AllocError>
    requires { IsClass token.now class }
    ensures { (aliases : List (List ℕ)) → IfOk result (IsRightMove aliases (Rights aliases) token.now) }
{
    match class {
        Class::Name => {
            let name = name_at(alloc, token)?;
            Ok(RightMove::Taken(RightReader {
                alloc,
                state: RightState::Named(name),
            }))
        }
        Class::OpenParen => Ok(RightMove::Taken(RightReader {
            alloc,
            state: RightState::Opened(token.place),
        })),
        Class::Malloc => Ok(RightMove::Taken(RightReader {
            alloc,
            state: RightState::Allocation(AllocationReader::Malloc(None, token.place)),
        })),
        _ => {
            let reader = ExpressionReader::new(alloc);
            let step = in_sum(alloc, reader, token, class)?;
            Ok(step)
        }
    }
}

fn behind_name(
    alloc: Global,
    name: Name,
    token: &Token,
    class: Class,
) -> Result<RightMove, AllocError>
    requires { IsClass token.now class }
    ensures { (aliases : List (List ℕ)) → IfOk result (IsRightMove aliases (BehindRightName name) token.now) }
{
    match class {
        Class::OpenParen => {
            let reader = CallReader::new(alloc, name);
            Ok(RightMove::Taken(RightReader {
                alloc,
                state: RightState::Call(reader),
            }))
        }
        _ => {
            let reader = ExpressionReader::behind_name(alloc, name);
            let step = in_sum(alloc, reader, token, class)?;
            Ok(step)
        }
    }
}

fn opened(
    alloc: Global,
    place: Place,
    token: &Token,
    class: Class,
    alias: bool,
) -> Result<RightMove, AllocError>
    requires { IsClass token.now class }
    ensures { (aliases : List (List ℕ)) → is_in aliases token.now.text ≡ alias
        → IfOk result (IsRightMove aliases (BehindRightParens aliases place) token.now) }
{
    match class {
        Class::Int => {
            let step = in_cast(alloc, place, token, class, alias)?;
            Ok(step)
        }
        Class::Struct => {
            let step = in_cast(alloc, place, token, class, alias)?;
            Ok(step)
        }
        Class::Name => {
            let step = opened_name(alloc, place, token, alias)?;
            Ok(step)
        }
        _ => {
            let reader = fresh_sum(alloc)?;
            let step = in_parens(alloc, place, reader, token, class)?;
            Ok(step)
        }
    }
}

fn opened_name(
    alloc: Global,
    place: Place,
    token: &Token,
    alias: bool,
) -> Result<RightMove, AllocError>
    requires { IsName token.now }
    ensures { (aliases : List (List ℕ)) → is_in aliases token.now.text ≡ alias
        → IfOk result (IsRightMove aliases (BehindRightParens aliases place) token.now) }
{
    let name = name_at(alloc, token)?;
    if alias {
        Ok(RightMove::Taken(RightReader {
            alloc,
            state: RightState::OpenedAlias(place, name),
        }))
    } else {
        let fresh = ExpressionReader::behind_name(alloc, name);
        let reader = Box::new(alloc, fresh)?;
        Ok(RightMove::Taken(RightReader {
            alloc,
            state: RightState::Parens(place, reader),
        }))
    }
}

fn in_cast(
    alloc: Global,
    place: Place,
    token: &Token,
    class: Class,
    alias: bool,
) -> Result<RightMove, AllocError>
    requires { IsClass token.now class }
    ensures { (aliases : List (List ℕ)) → is_in aliases token.now.text ≡ alias
        → IfOk result (IsRightMove aliases (AsAllocation (InCast aliases place)) token.now) }
{
    let reader = AllocationReader::Base(place, BaseReader::Start);
    in_allocation(alloc, reader, token, class, alias)
}

fn opened_alias(
    alloc: Global,
    place: Place,
    name: Name,
    token: &Token,
    class: Class,
) -> Result<RightMove, AllocError>
    requires { IsClass token.now class }
    ensures { (aliases : List (List ℕ)) → IfOk result (IsRightMove aliases (BehindParensAlias aliases place name) token.now) }
{
    match class {
        Class::Star => Ok(RightMove::Taken(RightReader {
            alloc,
            state: RightState::OpenedStar(place, name, token.place),
        })),
        Class::CloseParen => Ok(RightMove::Taken(RightReader {
            alloc,
            state: RightState::Enclosed(place, name),
        })),
        _ => {
            let fresh = ExpressionReader::behind_name(alloc, name);
            let reader = Box::new(alloc, fresh)?;
            let step = in_parens(alloc, place, reader, token, class)?;
            Ok(step)
        }
    }
}

fn opened_star(
    alloc: Global,
    place: Place,
    name: Name,
    star: Place,
    token: &Token,
    class: Class,
) -> Result<RightMove, AllocError>
    requires { IsClass token.now class }
    ensures { (aliases : List (List ℕ)) → IfOk result (IsRightMove aliases (BehindParensStar aliases place name star) token.now) }
{
    match class {
        Class::CloseParen => {
            let cast = Cast {
                place,
                base: Base::Alias(name),
                pointer: Some(star),
            };
            Ok(RightMove::Taken(RightReader {
                alloc,
                state: RightState::Allocation(AllocationReader::Cast(cast)),
            }))
        }
        _ => {
            let fresh = behind_times(alloc, name, star)?;
            let reader = Box::new(alloc, fresh)?;
            let step = in_parens(alloc, place, reader, token, class)?;
            Ok(step)
        }
    }
}

// A reader of what is left of an expression after a name and a `*`.
fn behind_times(alloc: Global, name: Name, star: Place) -> Result<ExpressionReader, AllocError>
    ensures { IfOk result (λ reader. (place : Place)
        → IsSame (InParens place (CompletesExpression reader)) (InParens place (BehindTimes name))) }
{
    let text = Text::of(alloc, b"*")?;
    let token = Token {
        kind: TokenKind::Mark,
        text,
        place: star,
    };
    let mut reader = ExpressionReader::behind_name(alloc, name);
    match reader.step(&token, Class::Star)? {
        ExpressionStep::Taken => Ok(reader),
        ExpressionStep::Found(_) => unreachable!(),
        ExpressionStep::Stuck => unreachable!(),
    }
}

fn enclosed(
    alloc: Global,
    place: Place,
    name: Name,
    token: &Token,
    class: Class,
) -> Result<RightMove, AllocError>
    requires { IsClass token.now class }
    ensures { (aliases : List (List ℕ)) → IfOk result (IsRightMove aliases (BehindEnclosed aliases place name) token.now) }
{
    match class {
        Class::Malloc => {
            let cast = Cast {
                place,
                base: Base::Alias(name),
                pointer: None,
            };
            Ok(RightMove::Taken(RightReader {
                alloc,
                state: RightState::Allocation(AllocationReader::Malloc(Some(cast), token.place)),
            }))
        }
        _ => {
            let value = named(alloc, name);
            let operand = parens(alloc, place, value)?;
            let reader = ExpressionReader::behind_operand(alloc, operand);
            let step = in_sum(alloc, reader, token, class)?;
            Ok(step)
        }
    }
}

fn in_parens(
    alloc: Global,
    place: Place,
    mut reader: Box<ExpressionReader>,
    token: &Token,
    class: Class,
) -> Result<RightMove, AllocError>
    requires { IsClass token.now class }
    ensures { (aliases : List (List ℕ))
        → IfOk result (IsRightMove aliases
        (AsExpression (InParens place (CompletesExpression reader.value))) token.now) }
{
    match reader.step(token, class)? {
        ExpressionStep::Taken => Ok(RightMove::Taken(RightReader {
            alloc,
            state: RightState::Parens(place, reader),
        })),
        ExpressionStep::Found(inner) => {
            let step = behind_parens(alloc, place, inner, token, class)?;
            Ok(step)
        }
        ExpressionStep::Stuck => Ok(RightMove::Stuck),
    }
}

fn behind_parens(
    alloc: Global,
    place: Place,
    inner: Expression,
    token: &Token,
    class: Class,
) -> Result<RightMove, AllocError>
    requires { IsClass token.now class }
    ensures { (aliases : List (List ℕ))
        → IfOk result (IsRightMove aliases (AsExpression (ClosingParens place (expression_of inner))) token.now) }
{
    match class {
        Class::CloseParen => {
            let operand = parens(alloc, place, inner)?;
            let fresh = ExpressionReader::behind_operand(alloc, operand);
            let reader = Box::new(alloc, fresh)?;
            Ok(RightMove::Taken(RightReader {
                alloc,
                state: RightState::Sum(reader),
            }))
        }
        _ => Ok(RightMove::Stuck),
    }
}

fn in_sum(
    alloc: Global,
    mut reader: ExpressionReader,
    token: &Token,
    class: Class,
) -> Result<RightMove, AllocError>
    requires { IsClass token.now class }
    ensures { (aliases : List (List ℕ)) → IfOk result (IsRightMove aliases (AsExpression (CompletesExpression reader)) token.now) }
{
    match reader.step(token, class)? {
        ExpressionStep::Taken => {
            let reader = Box::new(alloc, reader)?;
            Ok(RightMove::Taken(RightReader {
                alloc,
                state: RightState::Sum(reader),
            }))
        }
        ExpressionStep::Found(sum) => Ok(RightMove::Found(RightSide::Expression(sum))),
        ExpressionStep::Stuck => Ok(RightMove::Stuck),
    }
}

fn in_call(
    alloc: Global,
    reader: CallReader,
    token: &Token,
    class: Class,
) -> Result<RightMove, AllocError>
    requires { IsClass token.now class }
    ensures { (aliases : List (List ℕ)) → IfOk result (IsRightMove aliases (AsCall (CompletesCall reader)) token.now) }
{
    match reader.step(token, class)? {
        CallStep::Taken(reader) => Ok(RightMove::Taken(RightReader {
            alloc,
            state: RightState::Call(reader),
        })),
        CallStep::Closed(call) => Ok(RightMove::Taken(RightReader {
            alloc,
            state: RightState::Done(RightSide::Call(call)),
        })),
        CallStep::Stuck => Ok(RightMove::Stuck),
    }
}

fn in_allocation(
    alloc: Global,
    reader: AllocationReader,
    token: &Token,
    class: Class,
    alias: bool,
) -> Result<RightMove, AllocError>
    requires { IsClass token.now class }
    ensures { (aliases : List (List ℕ)) → is_in aliases token.now.text ≡ alias
        → IfOk result (IsRightMove aliases (AsAllocation (CompletesAllocation aliases reader)) token.now) }
{
    match reader.step(alloc, token, class, alias)? {
        AllocationStep::Taken(reader) => Ok(RightMove::Taken(RightReader {
            alloc,
            state: RightState::Allocation(reader),
        })),
        AllocationStep::Closed(malloc) => {
            let malloc = Box::new(alloc, malloc)?;
            Ok(RightMove::Taken(RightReader {
                alloc,
                state: RightState::Done(RightSide::Malloc(malloc)),
            }))
        }
        AllocationStep::Stuck => Ok(RightMove::Stuck),
    }
}

fn named(alloc: Global, name: Name) -> Expression
    ensures { expression_of result ≡ named name }
{
    Expression::Value(LeftValue {
        name,
        fields: Vec::new(alloc),
    })
}

fn parens(alloc: Global, place: Place, inner: Expression) -> Result<Expression, AllocError>
    ensures { IfOk result (λ e. expression_of e ≡ parens place (expression_of inner)) }
{
    Ok(Expression::Parens(place, Box::new(alloc, inner)?))
}

/// Every reader can come to the end of a right side.
pub fn rights_can_end()
    ensures { (aliases : List (List ℕ)) (reader : RightReader) → CanEnd (CompletesRight aliases reader) }
{
    expressions_can_end();
}
