// What a function gives, its name, and the `(`.
ghost use Rattle.mc_c_syntax.specs.Ast.Classes.{IsClass};
ghost use Rattle.mc_c_syntax.specs.Ast.Names.{is_in};
ghost use Rattle.mc_c_parse.specs.Functions.{HeaderStepIs};
ghost use Rattle.std.specs.Prelude.{◌≡◌, ℕ, List, IfOk};

use crate::base::BaseReader;
use crate::step::Step;
use mc_base::text::Token;
use mc_c_syntax::ast::{Base, Class, Name, Returned, name_at};
use std::alloc::{AllocError, Global};

/// What a function gives, and its name.
#[derive(Drop)]
pub struct Header {
    pub returned: Returned,
    pub name: Name,
}

/// What has been read of the head of a function.
#[derive(Drop)]
pub enum HeaderReader {
    Start,
    Base(BaseReader),
    /// After the base of what it gives.
    Value(Base),
    /// After `void` or a `*`.
    Returned(Returned),
    /// After its name.
    Named(Returned, Name),
}

/// What a reader of heads of functions makes of a token.
pub type HeaderStep = Step<HeaderReader, Header>;

impl HeaderReader {
    /// Takes the next token.
    pub fn step(
        self,
        alloc: Global,
        token: &Token,
        class: Class,
        alias: bool,
    ) -> Result<HeaderStep, AllocError>
        requires { IsClass token.now class }
        ensures { IfOk result (λ step. (aliases : List (List ℕ)) → is_in aliases token.now.text ≡ alias
            → HeaderStepIs aliases self token.now step) }
    {
        match self {
            HeaderReader::Start => header_start(alloc, token, class, alias),
            HeaderReader::Base(reader) => header_base(alloc, reader, token, class, alias),
            HeaderReader::Value(base) => header_value(alloc, base, token, class),
            HeaderReader::Returned(returned) => header_name(alloc, returned, token, class),
            HeaderReader::Named(returned, name) => Ok(header_end(returned, name, class)),
        }
    }
}

fn header_start(
    alloc: Global,
    token: &Token,
    class: Class,
    alias: bool,
) -> Result<HeaderStep, AllocError>
    requires { IsClass token.now class }
    ensures { IfOk result (λ step. (aliases : List (List ℕ)) → is_in aliases token.now.text ≡ alias
        → HeaderStepIs aliases HeaderReader.Start token.now step) }
{
    match class {
        Class::Void => {
            let returned = Returned::Void(token.place);
            Ok(Step::Taken(HeaderReader::Returned(returned)))
        }
        _ => header_base(alloc, BaseReader::Start, token, class, alias),
    }
}

fn header_base(
    alloc: Global,
    reader: BaseReader,
    token: &Token,
    class: Class,
    alias: bool,
) -> Result<HeaderStep, AllocError>
    requires { IsClass token.now class }
    ensures { IfOk result (λ step. (aliases : List (List ℕ)) → is_in aliases token.now.text ≡ alias
        → HeaderStepIs aliases (HeaderReader.Base reader) token.now step) }
{
    match reader.step(alloc, token, class, alias)? {
        Step::Taken(reader) => Ok(Step::Taken(HeaderReader::Base(reader))),
        Step::Closed(base) => Ok(Step::Taken(HeaderReader::Value(base))),
        Step::Stuck => Ok(Step::Stuck),
    }
}

fn header_value(
    alloc: Global,
    base: Base,
    token: &Token,
    class: Class,
) -> Result<HeaderStep, AllocError>
    requires { IsClass token.now class }
    ensures { IfOk result (λ step. (aliases : List (List ℕ)) → HeaderStepIs aliases (HeaderReader.Value base) token.now step) }
{
    match class {
        Class::Star => {
            let returned = Returned::Value(base, Some(token.place));
            Ok(Step::Taken(HeaderReader::Returned(returned)))
        }
        Class::Name => {
            let name = name_at(alloc, token)?;
            let returned = Returned::Value(base, None);
            Ok(Step::Taken(HeaderReader::Named(returned, name)))
        }
        _ => Ok(Step::Stuck),
    }
}

fn header_name(
    alloc: Global,
    returned: Returned,
    token: &Token,
    class: Class,
) -> Result<HeaderStep, AllocError>
    requires { IsClass token.now class }
    ensures { IfOk result (λ step. (aliases : List (List ℕ)) → HeaderStepIs aliases (HeaderReader.Returned returned) token.now step) }
{
    match class {
        Class::Name => {
            let name = name_at(alloc, token)?;
            Ok(Step::Taken(HeaderReader::Named(returned, name)))
        }
        _ => Ok(Step::Stuck),
    }
}

fn header_end(returned: Returned, name: Name, class: Class) -> HeaderStep
    ensures { (aliases : List (List ℕ)) (token : Token) → IsClass token class
        → HeaderStepIs aliases (HeaderReader.Named returned name) token result }
{
    match class {
        Class::OpenParen => Step::Closed(Header { returned, name }),
        _ => Step::Stuck,
    }
}
