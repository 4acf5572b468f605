// Fields of one base, up to their `;`.
ghost use Rattle.mc_c_syntax.specs.Ast.Classes.{IsClass};
ghost use Rattle.mc_c_syntax.specs.Ast.Names.{is_in};
ghost use Rattle.mc_c_parse.specs.Fields.{FieldStepIs};
ghost use Rattle.std.specs.Prelude.{◌≡◌, ℕ, List, IfOk};

use crate::base::BaseReader;
use crate::declarators::DeclaratorsReader;
use crate::step::Step;
use mc_base::text::Token;
use mc_c_syntax::ast::{Base, Class, Field};
use std::alloc::{AllocError, Global};

/// What has been read of fields of one base.
#[derive(Drop)]
pub enum FieldReader {
    Base(BaseReader),
    Declarators(Base, DeclaratorsReader),
}

/// What a reader of fields of one base makes of a token.
pub type FieldStep = Step<FieldReader, Field>;

impl FieldReader {
    /// Takes the next token.
    pub fn step(
        self,
        alloc: Global,
        token: &Token,
        class: Class,
        alias: bool,
    ) -> Result<FieldStep, AllocError>
        requires { IsClass token.now class }
        ensures { IfOk result (λ step. (aliases : List (List ℕ)) → is_in aliases token.now.text ≡ alias
            → FieldStepIs aliases self token.now step) }
    {
        match self {
            FieldReader::Base(reader) => match reader.step(alloc, token, class, alias)? {
                Step::Taken(reader) => Ok(Step::Taken(FieldReader::Base(reader))),
                Step::Closed(base) => {
                    let reader = DeclaratorsReader::new(alloc);
                    Ok(Step::Taken(FieldReader::Declarators(base, reader)))
                }
                Step::Stuck => Ok(Step::Stuck),
            },
            FieldReader::Declarators(base, reader) => match reader.step(alloc, token, class)? {
                Step::Taken(reader) => Ok(Step::Taken(FieldReader::Declarators(base, reader))),
                Step::Closed(declarators) => Ok(Step::Closed(Field { base, declarators })),
                Step::Stuck => Ok(Step::Stuck),
            },
        }
    }
}
