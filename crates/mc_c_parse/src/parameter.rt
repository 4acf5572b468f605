// A parameter.
ghost use Rattle.mc_c_syntax.specs.Ast.Classes.{IsClass};
ghost use Rattle.mc_c_syntax.specs.Ast.Names.{is_in};
ghost use Rattle.mc_c_parse.specs.Parameters.{ParameterStepIs};
ghost use Rattle.std.specs.Prelude.{◌≡◌, ℕ, List, IfOk};

use crate::base::BaseReader;
use crate::declarator::DeclaratorReader;
use crate::step::Step;
use mc_base::text::Token;
use mc_c_syntax::ast::{Base, Class, Parameter};
use std::alloc::{AllocError, Global};

/// What has been read of a parameter.
#[derive(Drop)]
pub enum ParameterReader {
    Base(BaseReader),
    Declarator(Base, DeclaratorReader),
}

/// What a reader of parameters makes of a token.
pub type ParameterStep = Step<ParameterReader, Parameter>;

impl ParameterReader {
    /// Takes the next token.
    pub fn step(
        self,
        alloc: Global,
        token: &Token,
        class: Class,
        alias: bool,
    ) -> Result<ParameterStep, AllocError>
        requires { IsClass token.now class }
        ensures { IfOk result (λ step. (aliases : List (List ℕ)) → is_in aliases token.now.text ≡ alias
            → ParameterStepIs aliases self token.now step) }
    {
        match self {
            ParameterReader::Base(reader) => match reader.step(alloc, token, class, alias)? {
                Step::Taken(reader) => Ok(Step::Taken(ParameterReader::Base(reader))),
                Step::Closed(base) => Ok(Step::Taken(ParameterReader::Declarator(
                    base,
                    DeclaratorReader::Start,
                ))),
                Step::Stuck => Ok(Step::Stuck),
            },
            ParameterReader::Declarator(base, reader) => match reader.step(alloc, token, class)? {
                Step::Taken(reader) => Ok(Step::Taken(ParameterReader::Declarator(base, reader))),
                Step::Closed(declarator) => Ok(Step::Closed(Parameter { base, declarator })),
                Step::Stuck => Ok(Step::Stuck),
            },
        }
    }
}
