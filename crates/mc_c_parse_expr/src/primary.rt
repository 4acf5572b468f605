// Variables, fields and `input()`, of which the first token is read.
ghost use Rattle.std.specs.Prelude.{◌≡◌, ◌∷◌, ◌++◌, [], IfOk};
ghost use Rattle.mc_c_syntax.specs.Ast.Names.{name_of};
ghost use Rattle.mc_c_syntax.specs.Ast.Views.{left_of};
ghost use Rattle.mc_c_syntax.specs.Ast.Classes.{IsClass};
ghost use Rattle.mc_c_parse_expr.specs.Primaries.{CompletesPrimary, StepsPrimary};

use mc_base::text::{Place, Token};
use mc_c_syntax::ast::{Class, Expression, LeftValue, name_at};
use std::alloc::{AllocError, Global};

/// What is read of a variable, a field or `input()`.
#[derive(Drop)]
pub enum Primary {
    /// A whole variable or field.
    Left(LeftValue),
    /// One with a `->` after it.
    Arrow(LeftValue),
    /// `input`, at its place.
    Input(Place),
    /// `input(`
    InputOpen(Place),
}

#[derive(Drop)]
pub enum PrimaryStep {
    Taken(Primary),
    Closed(Expression),
    Found(Expression),
    Stuck,
}

impl Primary {
    pub fn step(self, alloc: Global, token: &Token, class: Class) -> Result<PrimaryStep, AllocError>
        requires { IsClass token.now class }
        ensures { IfOk result (λ step. StepsPrimary (CompletesPrimary self) token.now step) }
    {
        match self {
            Primary::Left(left) => Ok(behind_left(left, token, class)),
            Primary::Arrow(left) => {
                let step = behind_arrow(alloc, left, token, class)?;
                Ok(step)
            }
            Primary::Input(place) => Ok(behind_input(place, token, class)),
            Primary::InputOpen(place) => Ok(behind_open(place, token, class)),
        }
    }
}

fn behind_left(left: LeftValue, token: &Token, class: Class) -> PrimaryStep
    requires { IsClass token.now class }
    ensures { StepsPrimary (CompletesPrimary (Primary.Left left)) token.now result }
{
    match class {
        Class::Arrow => PrimaryStep::Taken(Primary::Arrow(left)),
        _ => PrimaryStep::Found(Expression::Value(left)),
    }
}

fn behind_arrow(
    alloc: Global,
    left: LeftValue,
    token: &Token,
    class: Class,
) -> Result<PrimaryStep, AllocError>
    requires { IsClass token.now class }
    ensures { IfOk result (λ step. StepsPrimary (CompletesPrimary (Primary.Arrow left)) token.now step) }
{
    match class {
        Class::Name => {
            let left = with_field(alloc, left, token)?;
            Ok(PrimaryStep::Taken(Primary::Left(left)))
        }
        _ => Ok(PrimaryStep::Stuck),
    }
}

/// The variable that a name is.
pub fn variable(alloc: Global, token: &Token) -> Result<LeftValue, AllocError>
    ensures { IfOk result (λ left. left_of left ≡ record { name = name_of token.now; fields = [] }) }
{
    let name = name_at(alloc, token)?;
    Ok(LeftValue {
        name,
        fields: Vec::new(alloc),
    })
}

fn with_field(alloc: Global, left: LeftValue, token: &Token) -> Result<LeftValue, AllocError>
    ensures { IfOk result (λ field. left_of field ≡ record { name = left.name; fields = left.fields.items ++ name_of token.now ∷ [] }) }
{
    let LeftValue { name, mut fields } = left;
    fields.push(name_at(alloc, token)?)?;
    Ok(LeftValue { name, fields })
}

fn behind_input(place: Place, token: &Token, class: Class) -> PrimaryStep
    requires { IsClass token.now class }
    ensures { StepsPrimary (CompletesPrimary (Primary.Input place)) token.now result }
{
    match class {
        Class::OpenParen => PrimaryStep::Taken(Primary::InputOpen(place)),
        _ => PrimaryStep::Stuck,
    }
}

fn behind_open(place: Place, token: &Token, class: Class) -> PrimaryStep
    requires { IsClass token.now class }
    ensures { StepsPrimary (CompletesPrimary (Primary.InputOpen place)) token.now result }
{
    match class {
        Class::CloseParen => PrimaryStep::Closed(Expression::Input(place)),
        _ => PrimaryStep::Stuck,
    }
}
