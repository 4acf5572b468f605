// Declarators between commas, up to a `;`.
ghost use Rattle.mc_c_syntax.specs.Ast.Classes.{IsClass};
ghost use Rattle.mc_c_parse.specs.Declarators.{DeclaratorsStepIs};
ghost use Rattle.std.specs.Prelude.{◌≡◌, [], IfOk};

use crate::declarator::DeclaratorReader;
use crate::step::Step;
use mc_base::text::Token;
use mc_c_syntax::ast::{Class, Declarator};
use std::alloc::{AllocError, Global};

/// What has been read of declarators that end with a `;`.
#[derive(Drop)]
pub struct DeclaratorsReader {
    /// Those that are complete.
    pub done: Vec<Declarator>,
    /// What has been read of the next one; nothing after a complete one.
    pub current: Option<DeclaratorReader>,
}

/// What a reader of declarators between commas makes of a token.
pub type DeclaratorsStep = Step<DeclaratorsReader, Vec<Declarator>>;

impl DeclaratorsReader {
    /// A reader before the first declarator.
    pub fn new(alloc: Global) -> DeclaratorsReader
        ensures none { result.done.items ≡ [] }
        ensures starts { result.current ≡ Some DeclaratorReader.Start }
    {
        DeclaratorsReader {
            done: Vec::new(alloc),
            current: Some(DeclaratorReader::Start),
        }
    }

    /// Takes the next token.
    pub fn step(
        self,
        alloc: Global,
        token: &Token,
        class: Class,
    ) -> Result<DeclaratorsStep, AllocError>
        requires { IsClass token.now class }
        ensures { IfOk result (λ step. DeclaratorsStepIs self.done.items self.current token.now step) }
    {
        let DeclaratorsReader { done, current } = self;
        match current {
            Some(reader) => within_declarator(alloc, done, reader, token, class),
            None => Ok(behind_declarator(done, class)),
        }
    }
}

fn within_declarator(
    alloc: Global,
    mut done: Vec<Declarator>,
    reader: DeclaratorReader,
    token: &Token,
    class: Class,
) -> Result<DeclaratorsStep, AllocError>
    requires { IsClass token.now class }
    ensures { IfOk result (λ step. DeclaratorsStepIs done.items (Some reader) token.now step) }
{
    match reader.step(alloc, token, class)? {
        Step::Taken(reader) => Ok(Step::Taken(DeclaratorsReader {
            done,
            current: Some(reader),
        })),
        Step::Closed(declarator) => {
            done.push(declarator)?;
            Ok(Step::Taken(DeclaratorsReader {
                done,
                current: None,
            }))
        }
        Step::Stuck => Ok(Step::Stuck),
    }
}

fn behind_declarator(done: Vec<Declarator>, class: Class) -> DeclaratorsStep
    ensures { (token : Token) → IsClass token class → DeclaratorsStepIs done.items None token result }
{
    match class {
        Class::Comma => Step::Taken(DeclaratorsReader {
            done,
            current: Some(DeclaratorReader::Start),
        }),
        Class::Semicolon => Step::Closed(done),
        _ => Step::Stuck,
    }
}
