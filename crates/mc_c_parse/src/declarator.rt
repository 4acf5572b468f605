// Declarators: `x`, or `*x`.
ghost use Rattle.mc_c_syntax.specs.Ast.Classes.{IsClass};
ghost use Rattle.mc_c_parse.specs.Declarators.{DeclaratorStepIs};
ghost use Rattle.std.specs.Prelude.{IfOk};

use crate::step::Step;
use mc_base::text::{Place, Token};
use mc_c_syntax::ast::{Class, Declarator, name_at};
use std::alloc::{AllocError, Global};

/// What has been read of a declarator.
#[derive(Drop)]
pub enum DeclaratorReader {
    Start,
    /// After the `*`.
    Star(Place),
}

/// What a reader of declarators makes of a token.
pub type DeclaratorStep = Step<DeclaratorReader, Declarator>;

impl DeclaratorReader {
    /// Takes the next token.
    pub fn step(
        self,
        alloc: Global,
        token: &Token,
        class: Class,
    ) -> Result<DeclaratorStep, AllocError>
        requires { IsClass token.now class }
        ensures { IfOk result (λ step. DeclaratorStepIs self token.now step) }
    {
        match self {
            DeclaratorReader::Start => declarator_start(alloc, token, class),
            DeclaratorReader::Star(place) => declarator_name(alloc, place, token, class),
        }
    }
}

fn declarator_start(
    alloc: Global,
    token: &Token,
    class: Class,
) -> Result<DeclaratorStep, AllocError>
    requires { IsClass token.now class }
    ensures { IfOk result (λ step. DeclaratorStepIs DeclaratorReader.Start token.now step) }
{
    match class {
        Class::Star => Ok(Step::Taken(DeclaratorReader::Star(token.place))),
        Class::Name => {
            let name = name_at(alloc, token)?;
            Ok(Step::Closed(Declarator {
                pointer: None,
                name,
            }))
        }
        _ => Ok(Step::Stuck),
    }
}

fn declarator_name(
    alloc: Global,
    place: Place,
    token: &Token,
    class: Class,
) -> Result<DeclaratorStep, AllocError>
    requires { IsClass token.now class }
    ensures { IfOk result (λ step. DeclaratorStepIs (DeclaratorReader.Star place) token.now step) }
{
    match class {
        Class::Name => {
            let name = name_at(alloc, token)?;
            Ok(Step::Closed(Declarator {
                pointer: Some(place),
                name,
            }))
        }
        _ => Ok(Step::Stuck),
    }
}
