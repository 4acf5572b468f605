// Reads a call after its `(`.
ghost use Rattle.std.specs.Prelude.{◌≡◌, IfOk};
ghost use Rattle.mc_c_syntax.specs.Ast.Classes.{IsClass};
ghost use Rattle.mc_c_syntax.specs.Ast.Readers.{IsSame, CanEnd};
ghost use Rattle.mc_c_parse_simple.specs.Calls.{BehindCallParens, FirstArgument, BehindArgument, BehindArguments, CompletesCall, IsCallStep};
ghost use Rattle.mc_c_syntax.specs.Ast.Views.{expressions_of};
ghost use Rattle.mc_c_parse_expr.specs.Turns.{InTurn};
ghost use Rattle.mc_c_parse_expr.specs.Expressions.{CompletesExpression};
ghost use Rattle.mc_c_parse_simple.specs.declared.call.CallReader.{CallReader};

use crate::sum::fresh_sum;
use mc_base::text::Token;
use mc_c_parse_expr::{ExpressionReader, ExpressionStep, expressions_can_end};
use mc_c_syntax::ast::{Call, Class, Expression, Name};
use std::alloc::{AllocError, Global};

/// Reads a call after its `(`.
pub struct CallReader {
    alloc: Global,
    function: Name,
    arguments: Vec<Expression>,
    state: CallState,
}

/// Drops what is read. What holds a reader calls this.
impl Drop for CallReader {
    fn drop(self) {
        let CallReader {
            function,
            arguments,
            state,
            alloc: _,
        } = self;
        drop(function);
        drop(arguments);
        drop(state);
    }
}

#[derive(Drop)]
enum CallState {
    /// At the first argument or the `)`.
    First,
    /// In an argument.
    Argument(Box<ExpressionReader>),
}

/// What a token does to a call.
#[derive(Drop)]
pub enum CallStep {
    Taken(CallReader),
    Closed(Call),
    Stuck,
}

impl CallReader {
    /// After the `(`.
    pub fn new(alloc: Global, function: Name) -> CallReader
        ensures { IsSame (CompletesCall result) (BehindCallParens function) }
    {
        CallReader {
            alloc,
            function,
            arguments: Vec::new(alloc),
            state: CallState::First,
        }
    }

    /// Takes a token.
    pub fn step(self, token: &Token, class: Class) -> Result<CallStep, AllocError>
        requires { IsClass token.now class }
        ensures { IfOk result (IsCallStep (CompletesCall self) token.now) }
    {
        let CallReader {
            alloc,
            function,
            arguments,
            state,
        } = self;
        match state {
            CallState::First => first(alloc, function, arguments, token, class),
            CallState::Argument(reader) => in_argument(
                alloc, function, arguments, reader, token, class,
            ),
        }
    }
}

fn first(
    alloc: Global,
    function: Name,
    arguments: Vec<Expression>,
    token: &Token,
    class: Class,
) -> Result<CallStep, AllocError>
    requires { IsClass token.now class }
    ensures { IfOk result (IsCallStep (FirstArgument function (expressions_of arguments.items)) token.now) }
{
    match class {
        Class::CloseParen => Ok(CallStep::Closed(Call {
            function,
            arguments,
        })),
        _ => {
            let reader = fresh_sum(alloc)?;
            let step = in_argument(alloc, function, arguments, reader, token, class)?;
            Ok(step)
        }
    }
}

fn in_argument(
    alloc: Global,
    function: Name,
    mut arguments: Vec<Expression>,
    mut reader: Box<ExpressionReader>,
    token: &Token,
    class: Class,
) -> Result<CallStep, AllocError>
    requires { IsClass token.now class }
    ensures { IfOk result (IsCallStep (InTurn (CompletesExpression reader.value)
        (BehindArgument function (expressions_of arguments.items))) token.now) }
{
    match reader.step(token, class)? {
        ExpressionStep::Taken => Ok(CallStep::Taken(CallReader {
            alloc,
            function,
            arguments,
            state: CallState::Argument(reader),
        })),
        ExpressionStep::Found(argument) => {
            arguments.push(argument)?;
            let step = behind_argument(alloc, function, arguments, token, class)?;
            Ok(step)
        }
        ExpressionStep::Stuck => Ok(CallStep::Stuck),
    }
}

fn behind_argument(
    alloc: Global,
    function: Name,
    arguments: Vec<Expression>,
    token: &Token,
    class: Class,
) -> Result<CallStep, AllocError>
    requires { IsClass token.now class }
    ensures { IfOk result (IsCallStep (BehindArguments function (expressions_of arguments.items)) token.now) }
{
    match class {
        Class::Comma => {
            let reader = fresh_sum(alloc)?;
            Ok(CallStep::Taken(CallReader {
                alloc,
                function,
                arguments,
                state: CallState::Argument(reader),
            }))
        }
        Class::CloseParen => Ok(CallStep::Closed(Call {
            function,
            arguments,
        })),
        _ => Ok(CallStep::Stuck),
    }
}

/// Every reader can come to the end of a call.
pub fn calls_can_end()
    ensures { (reader : CallReader) → CanEnd (CompletesCall reader) }
{
    expressions_can_end();
}
