// The fields of a struct, up to their `}`.
ghost use Rattle.mc_c_syntax.specs.Ast.Classes.{IsClass};
ghost use Rattle.mc_c_syntax.specs.Ast.Names.{is_in};
ghost use Rattle.mc_c_syntax.specs.Ast.Views.{field_of};
ghost use Rattle.mc_c_parse.specs.Fields.{FieldsStepIs, FieldsFrom};
ghost use Rattle.std.specs.Prelude.{◌≡◌, ℕ, List, [], IfOk, map};

use crate::base::BaseReader;
use crate::field::FieldReader;
use crate::step::Step;
use mc_base::text::Token;
use mc_c_syntax::ast::{Class, Field};
use std::alloc::{AllocError, Global};

/// What has been read of the fields of a struct, after their `{`.
#[derive(Drop)]
pub struct FieldsReader {
    /// Those that are complete.
    pub done: Vec<Field>,
    /// What has been read of the next ones; nothing after a `;` or the `{`.
    pub current: Option<FieldReader>,
}

/// What a reader of the fields of a struct makes of a token.
pub type FieldsStep = Step<FieldsReader, Vec<Field>>;

impl FieldsReader {
    /// A reader after the `{`.
    pub fn new(alloc: Global) -> FieldsReader
        ensures none { result.done.items ≡ [] }
        ensures starts { result.current ≡ None }
    {
        FieldsReader {
            done: Vec::new(alloc),
            current: None,
        }
    }

    /// Takes the next token.
    pub fn step(
        self,
        alloc: Global,
        token: &Token,
        class: Class,
        alias: bool,
    ) -> Result<FieldsStep, AllocError>
        requires { IsClass token.now class }
        ensures { IfOk result (λ step. (aliases : List (List ℕ)) → is_in aliases token.now.text ≡ alias
            → FieldsStepIs aliases (map field_of self.done.items) self.current token.now step) }
    {
        let FieldsReader { done, current } = self;
        match current {
            Some(reader) => within_field(alloc, done, reader, token, class, alias),
            None => behind_field(alloc, done, token, class, alias),
        }
    }
}

fn behind_field(
    alloc: Global,
    done: Vec<Field>,
    token: &Token,
    class: Class,
    alias: bool,
) -> Result<FieldsStep, AllocError>
    requires { IsClass token.now class }
    ensures { IfOk result (λ step. (aliases : List (List ℕ)) → is_in aliases token.now.text ≡ alias
        → FieldsStepIs aliases (map field_of done.items) None token.now step) }
{
    match class {
        Class::CloseBrace => {
            if done.is_empty() {
                Ok(Step::Stuck)
            } else {
                Ok(Step::Closed(done))
            }
        }
        _ => within_field(
            alloc,
            done,
            FieldReader::Base(BaseReader::Start),
            token,
            class,
            alias,
        ),
    }
}

fn within_field(
    alloc: Global,
    mut done: Vec<Field>,
    reader: FieldReader,
    token: &Token,
    class: Class,
    alias: bool,
) -> Result<FieldsStep, AllocError>
    requires { IsClass token.now class }
    ensures { IfOk result (λ step. (aliases : List (List ℕ)) → is_in aliases token.now.text ≡ alias
        → FieldsStepIs aliases (map field_of done.items) (Some reader) token.now step) }
{
    match reader.step(alloc, token, class, alias)? {
        Step::Taken(reader) => Ok(Step::Taken(FieldsReader {
            done,
            current: Some(reader),
        })),
        Step::Closed(field) => {
            done.push(field)?;
            Ok(Step::Taken(FieldsReader {
                done,
                current: None,
            }))
        }
        Step::Stuck => Ok(Step::Stuck),
    }
}
