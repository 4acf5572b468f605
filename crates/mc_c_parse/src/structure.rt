// Structs with their fields, after `struct S {`.
ghost use Rattle.mc_c_syntax.specs.Ast.Classes.{IsClass};
ghost use Rattle.mc_c_syntax.specs.Ast.Names.{is_in};
ghost use Rattle.mc_c_parse.specs.Fields.{StructStepIs};
ghost use Rattle.std.specs.Prelude.{◌≡◌, ℕ, List, IfOk};

use crate::fields::FieldsReader;
use crate::step::Step;
use mc_base::text::{Place, Token};
use mc_c_syntax::ast::{Class, Name, Struct};
use std::alloc::{AllocError, Global};

/// A struct of which the fields are being read.
#[derive(Drop)]
pub struct StructReader {
    /// The place of the word `struct`.
    pub place: Place,
    pub name: Name,
    pub fields: FieldsReader,
}

/// What a reader of structs makes of a token.
pub type StructStep = Step<StructReader, Struct>;

impl StructReader {
    /// Takes the next token.
    pub fn step(
        self,
        alloc: Global,
        token: &Token,
        class: Class,
        alias: bool,
    ) -> Result<StructStep, AllocError>
        requires { IsClass token.now class }
        ensures { IfOk result (λ step. (aliases : List (List ℕ)) → is_in aliases token.now.text ≡ alias
            → StructStepIs aliases self token.now step) }
    {
        let StructReader {
            place,
            name,
            fields,
        } = self;
        match fields.step(alloc, token, class, alias)? {
            Step::Taken(fields) => Ok(Step::Taken(StructReader {
                place,
                name,
                fields,
            })),
            Step::Closed(fields) => Ok(Step::Closed(Struct {
                place,
                name,
                fields,
            })),
            Step::Stuck => Ok(Step::Stuck),
        }
    }
}
