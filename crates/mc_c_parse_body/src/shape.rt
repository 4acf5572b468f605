// A reader of shape commands.
ghost use Rattle.std.specs.Prelude.{◌≡◌, IfOk};
ghost use Rattle.mc_c_syntax.specs.Ast.Classes.{IsClass};
ghost use Rattle.mc_c_syntax.specs.Ast.Readers.{IsSame};
ghost use Rattle.mc_c_syntax.specs.Ast.Views.{statement_of};
ghost use Rattle.mc_c_parse_body.specs.Shapes.{BehindUse, CompletesShape, IsShapeStep, shaped};
ghost use Rattle.mc_c_parse_body.specs.declared.shape.ShapeReader.TheVariants as ShapeReader;

use mc_base::text::{Place, Token};
use mc_c_syntax::ast::{Argument, AssertShape, AssumeShape, Class, Name, Statement, name_at};
use std::alloc::{AllocError, Global};

/// Which of the two commands.
#[derive(Clone, Copy, Drop)]
pub enum Command {
    Assume,
    Assert,
}

/// A command up to its last arguments.
#[derive(Drop)]
pub enum Shape {
    /// With the predicate and the variable.
    Assume(Place, Name, Name),
    /// With the predicate and where it starts.
    Assert(Place, Name, Argument),
}

/// What an argument is for.
#[derive(Drop)]
pub enum Use {
    /// Where an assertion starts.
    Start(Place, Name),
    /// One of the last arguments, after those before it.
    Last(Shape, Vec<Argument>),
}

/// Reads what stands after the `(` of a shape command up to and with its `)`, token by token.
#[derive(Drop)]
pub enum ShapeReader {
    /// The predicate comes next.
    Predicate(Command, Place),
    /// The `,` after the predicate comes next.
    Comma(Command, Place, Name),
    /// The variable comes next.
    Variable(Place, Name),
    /// An argument comes next.
    Argument(Use),
    /// After a `-`.
    Negative(Use, Place),
    /// After these last arguments.
    Arguments(Shape, Vec<Argument>),
}

/// What a reader does with a token.
#[derive(Drop)]
pub enum ShapeStep {
    /// It takes it.
    Taken(ShapeReader),
    /// The command ends with the token.
    Closed(Statement),
    /// No text has this token here.
    Stuck,
}

impl ShapeReader {
    /// Takes a token, or answers why not.
    pub fn step(self, alloc: Global, token: &Token, class: Class) -> Result<ShapeStep, AllocError>
        requires { IsClass token.now class }
        ensures { IfOk result (IsShapeStep (CompletesShape self) token.now) }
    {
        match self {
            ShapeReader::Predicate(command, place) => at_predicate(
                alloc, command, place, token, class,
            ),
            ShapeReader::Comma(command, place, predicate) => Ok(at_comma(
                command, place, predicate, token, class,
            )),
            ShapeReader::Variable(place, predicate) => at_variable(
                alloc, place, predicate, token, class,
            ),
            ShapeReader::Argument(usage) => at_argument(alloc, usage, token, class),
            ShapeReader::Negative(usage, place) => behind_minus(alloc, usage, place, token, class),
            ShapeReader::Arguments(shape, arguments) => Ok(behind_arguments(
                shape, arguments, token, class,
            )),
        }
    }
}

fn at_predicate(
    alloc: Global,
    command: Command,
    place: Place,
    token: &Token,
    class: Class,
) -> Result<ShapeStep, AllocError>
    requires { IsClass token.now class }
    ensures { IfOk result (IsShapeStep (CompletesShape (ShapeReader.Predicate command place)) token.now) }
{
    match class {
        Class::Name => {
            let predicate = name_at(alloc, token)?;
            Ok(ShapeStep::Taken(ShapeReader::Comma(command, place, predicate)))
        }
        _ => Ok(ShapeStep::Stuck),
    }
}

fn at_comma(
    command: Command,
    place: Place,
    predicate: Name,
    token: &Token,
    class: Class,
) -> ShapeStep
    requires { IsClass token.now class }
    ensures { IsShapeStep (CompletesShape (ShapeReader.Comma command place predicate)) token.now result }
{
    match class {
        Class::Comma => match command {
            Command::Assume => ShapeStep::Taken(ShapeReader::Variable(place, predicate)),
            Command::Assert => ShapeStep::Taken(ShapeReader::Argument(Use::Start(
                place, predicate,
            ))),
        },
        _ => ShapeStep::Stuck,
    }
}

fn at_variable(
    alloc: Global,
    place: Place,
    predicate: Name,
    token: &Token,
    class: Class,
) -> Result<ShapeStep, AllocError>
    requires { IsClass token.now class }
    ensures { IfOk result (IsShapeStep (CompletesShape (ShapeReader.Variable place predicate)) token.now) }
{
    match class {
        Class::Name => {
            let variable = name_at(alloc, token)?;
            let shape = Shape::Assume(place, predicate, variable);
            Ok(ShapeStep::Taken(ShapeReader::Arguments(shape, Vec::new(alloc))))
        }
        _ => Ok(ShapeStep::Stuck),
    }
}

fn at_argument(
    alloc: Global,
    usage: Use,
    token: &Token,
    class: Class,
) -> Result<ShapeStep, AllocError>
    requires { IsClass token.now class }
    ensures { IfOk result (IsShapeStep (CompletesShape (ShapeReader.Argument usage)) token.now) }
{
    match class {
        Class::Name => {
            let name = name_at(alloc, token)?;
            let reader = behind_use(alloc, usage, Argument::Name(name))?;
            Ok(ShapeStep::Taken(reader))
        }
        Class::Null => {
            let reader = behind_use(alloc, usage, Argument::Null(token.place))?;
            Ok(ShapeStep::Taken(reader))
        }
        Class::Number(number) => {
            let reader = behind_use(alloc, usage, Argument::Number(number, token.place))?;
            Ok(ShapeStep::Taken(reader))
        }
        Class::Minus => Ok(ShapeStep::Taken(ShapeReader::Negative(usage, token.place))),
        _ => Ok(ShapeStep::Stuck),
    }
}

fn behind_minus(
    alloc: Global,
    usage: Use,
    place: Place,
    token: &Token,
    class: Class,
) -> Result<ShapeStep, AllocError>
    requires { IsClass token.now class }
    ensures { IfOk result (IsShapeStep (CompletesShape (ShapeReader.Negative usage place)) token.now) }
{
    match class {
        Class::Number(number) => {
            let reader = behind_use(alloc, usage, Argument::Negative(number, place))?;
            Ok(ShapeStep::Taken(reader))
        }
        _ => Ok(ShapeStep::Stuck),
    }
}

/// The reader after an argument.
fn behind_use(alloc: Global, usage: Use, argument: Argument) -> Result<ShapeReader, AllocError>
    ensures { IfOk result (λ reader. IsSame (CompletesShape reader) (BehindUse usage argument)) }
{
    match usage {
        Use::Start(place, predicate) => {
            let shape = Shape::Assert(place, predicate, argument);
            Ok(ShapeReader::Arguments(shape, Vec::new(alloc)))
        }
        Use::Last(shape, mut arguments) => {
            arguments.push(argument)?;
            Ok(ShapeReader::Arguments(shape, arguments))
        }
    }
}

fn behind_arguments(
    shape: Shape,
    arguments: Vec<Argument>,
    token: &Token,
    class: Class,
) -> ShapeStep
    requires { IsClass token.now class }
    ensures { IsShapeStep (CompletesShape (ShapeReader.Arguments shape arguments)) token.now result }
{
    match class {
        Class::Comma => ShapeStep::Taken(ShapeReader::Argument(Use::Last(shape, arguments))),
        Class::CloseParen => ShapeStep::Closed(shape_of(shape, arguments)),
        _ => ShapeStep::Stuck,
    }
}

/// The command with these last arguments.
fn shape_of(shape: Shape, arguments: Vec<Argument>) -> Statement
    ensures { statement_of result ≡ shaped shape arguments.items }
{
    match shape {
        Shape::Assume(place, predicate, variable) => Statement::AssumeShape(AssumeShape {
            place,
            predicate,
            variable,
            arguments,
        }),
        Shape::Assert(place, predicate, start) => Statement::AssertShape(AssertShape {
            place,
            predicate,
            start,
            arguments,
        }),
    }
}
