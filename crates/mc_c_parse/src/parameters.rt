// The parameters of a function, after their `(`.
ghost use Rattle.mc_c_syntax.specs.Ast.Classes.{IsClass};
ghost use Rattle.mc_c_syntax.specs.Ast.Names.{is_in};
ghost use Rattle.mc_c_parse.specs.Parameters.{ParametersStepIs};
ghost use Rattle.std.specs.Prelude.{◌≡◌, ℕ, List, IfOk};

use crate::base::BaseReader;
use crate::parameter::ParameterReader;
use crate::step::Step;
use mc_base::text::{Place, Token};
use mc_c_syntax::ast::{Class, Parameter, Parameters};
use std::alloc::{AllocError, Global};

/// What has been read of the parameters of a function.
#[derive(Drop)]
pub enum ParametersReader {
    Start,
    /// After the word `void`.
    Void(Place),
    /// Within a parameter, after complete ones.
    Parameter(Vec<Parameter>, ParameterReader),
    /// After a complete one.
    Behind(Vec<Parameter>),
}

/// What a reader of the parameters of a function makes of a token.
pub type ParametersStep = Step<ParametersReader, Parameters>;

impl ParametersReader {
    /// Takes the next token.
    pub fn step(
        self,
        alloc: Global,
        token: &Token,
        class: Class,
        alias: bool,
    ) -> Result<ParametersStep, AllocError>
        requires { IsClass token.now class }
        ensures { IfOk result (λ step. (aliases : List (List ℕ)) → is_in aliases token.now.text ≡ alias
            → ParametersStepIs aliases self token.now step) }
    {
        match self {
            ParametersReader::Start => first_parameter(alloc, token, class, alias),
            ParametersReader::Void(place) => Ok(behind_void(place, class)),
            ParametersReader::Parameter(done, reader) => {
                within_parameter(alloc, done, reader, token, class, alias)
            }
            ParametersReader::Behind(done) => Ok(behind_parameter(done, class)),
        }
    }
}

fn first_parameter(
    alloc: Global,
    token: &Token,
    class: Class,
    alias: bool,
) -> Result<ParametersStep, AllocError>
    requires { IsClass token.now class }
    ensures { IfOk result (λ step. (aliases : List (List ℕ)) → is_in aliases token.now.text ≡ alias
        → ParametersStepIs aliases ParametersReader.Start token.now step) }
{
    match class {
        Class::CloseParen => Ok(Step::Closed(Parameters::Empty)),
        Class::Void => Ok(Step::Taken(ParametersReader::Void(token.place))),
        _ => {
            let reader = ParameterReader::Base(BaseReader::Start);
            within_parameter(alloc, Vec::new(alloc), reader, token, class, alias)
        }
    }
}

fn behind_void(place: Place, class: Class) -> ParametersStep
    ensures { (aliases : List (List ℕ)) (token : Token) → IsClass token class
        → ParametersStepIs aliases (ParametersReader.Void place) token result }
{
    match class {
        Class::CloseParen => Step::Closed(Parameters::Void(place)),
        _ => Step::Stuck,
    }
}

fn within_parameter(
    alloc: Global,
    mut done: Vec<Parameter>,
    reader: ParameterReader,
    token: &Token,
    class: Class,
    alias: bool,
) -> Result<ParametersStep, AllocError>
    requires { IsClass token.now class }
    ensures { IfOk result (λ step. (aliases : List (List ℕ)) → is_in aliases token.now.text ≡ alias
        → ParametersStepIs aliases (ParametersReader.Parameter done reader) token.now step) }
{
    match reader.step(alloc, token, class, alias)? {
        Step::Taken(reader) => Ok(Step::Taken(ParametersReader::Parameter(done, reader))),
        Step::Closed(parameter) => {
            done.push(parameter)?;
            Ok(Step::Taken(ParametersReader::Behind(done)))
        }
        Step::Stuck => Ok(Step::Stuck),
    }
}

fn behind_parameter(done: Vec<Parameter>, class: Class) -> ParametersStep
    ensures { (aliases : List (List ℕ)) (token : Token) → IsClass token class
        → ParametersStepIs aliases (ParametersReader.Behind done) token result }
{
    match class {
        Class::Comma => Step::Taken(ParametersReader::Parameter(
            done,
            ParameterReader::Base(BaseReader::Start),
        )),
        Class::CloseParen => Step::Closed(Parameters::Listed(done)),
        _ => Step::Stuck,
    }
}
