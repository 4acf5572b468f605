// Functions and their prototypes.
ghost use Rattle.mc_c_syntax.specs.Ast.Classes.{IsClass};
ghost use Rattle.mc_c_syntax.specs.Ast.Names.{is_in};
ghost use Rattle.mc_c_parse.specs.Functions.{FunctionStepIs, FunctionTookIs, IsBehindBody, IsWithinBody};
ghost use Rattle.mc_c_parse.specs.declared.function.FunctionReader.TheVariants as FunctionReader;
ghost use Rattle.mc_c_parse.specs.declared.header.HeaderReader.TheVariants as HeaderReader;
ghost use Rattle.mc_c_syntax.specs.Ast.Views.{function_of, statement_of};
ghost use Rattle.std.specs.Prelude.{◌≡◌, ℕ, List, IfOk, map};

use crate::header::{Header, HeaderReader};
use crate::parameters::ParametersReader;
use crate::step::{Step, Took};
use mc_base::text::{Place, Token};
use mc_c_parse_body::{BodyReader, BodyStep};
use mc_c_syntax::ast::{Body, Class, Function, Parameters, Statement};
use std::alloc::{AllocError, Global};
use std::mem;

/// A function without its body.
#[derive(Drop)]
pub struct Signature {
    /// The place of `static`.
    pub static_place: Option<Place>,
    pub header: Header,
    pub parameters: Parameters,
}

/// What has been read of a function, after the word `static` if it has one.
#[derive(Drop)]
pub enum FunctionReader {
    Header(Option<Place>, HeaderReader),
    Parameters(Option<Place>, Header, ParametersReader),
    /// After the `)` of the parameters.
    Behind(Signature),
    /// After the `{` at this place. The reader stands in a box, so that the others are small.
    Body(Signature, Place, Box<BodyReader>),
}

/// What a reader of functions makes of a token, by value.
pub type FunctionStep = Step<FunctionReader, Function>;

/// The same in place.
pub type FunctionTook = Took<Function>;

impl FunctionReader {
    /// A reader at the start of a function, after the word `static` at this place if it has one.
    pub fn new(static_place: Option<Place>) -> FunctionReader
        ensures { result ≡ FunctionReader.Header static_place HeaderReader.Start }
    {
        FunctionReader::Header(static_place, HeaderReader::Start)
    }

    /// Takes the next token.
    pub fn step(
        &mut self,
        alloc: Global,
        token: &Token,
        class: Class,
        alias: bool,
    ) -> Result<FunctionTook, AllocError>
        requires { IsClass token.now class }
        ensures { IfOk result (λ took. (aliases : List (List ℕ)) → is_in aliases token.now.text ≡ alias
            → FunctionTookIs aliases self.old self.new token.now took) }
    {
        match self {
            FunctionReader::Body(_, _, reader) => match reader.step(token, class, alias)? {
                BodyStep::Taken => Ok(Took::Taken),
                BodyStep::Closed(statements) => Ok(Took::Closed(self.with_body(
                    alloc, statements,
                )?)),
                BodyStep::Stuck => Ok(Took::Stuck),
            },
            _ => self.step_before_body(alloc, token, class, alias),
        }
    }

    /// The function that these statements make complete.
    #[inline(never)]
    fn with_body(
        &mut self,
        alloc: Global,
        statements: Vec<Statement>,
    ) -> Result<Box<Function>, AllocError>
        requires { IsWithinBody self.old }
        ensures { IfOk result (λ function. IsBehindBody self.old (map statement_of statements.items) (function_of function.value)) }
    {
        match mem::replace(self, FunctionReader::new(None)) {
            FunctionReader::Body(signature, place, _) => {
                let body = Body { place, statements };
                let function = function_of(signature, Some(body));
                let boxed = Box::new(alloc, function)?;
                Ok(boxed)
            }
            _ => unreachable!(),
        }
    }

    /// Takes a token before the body.
    #[inline(never)]
    fn step_before_body(
        &mut self,
        alloc: Global,
        token: &Token,
        class: Class,
        alias: bool,
    ) -> Result<FunctionTook, AllocError>
        requires class { IsClass token.now class }
        requires before { IsWithinBody self.old → ⊥ }
        ensures { IfOk result (λ took. (aliases : List (List ℕ)) → is_in aliases token.now.text ≡ alias
            → FunctionTookIs aliases self.old self.new token.now took) }
    {
        let reader = mem::replace(self, FunctionReader::new(None));
        let step = reader.moved_before_body(alloc, token, class, alias)?;
        let took = step.put(alloc, self)?;
        Ok(took)
    }

    fn moved_before_body(
        self,
        alloc: Global,
        token: &Token,
        class: Class,
        alias: bool,
    ) -> Result<FunctionStep, AllocError>
        requires class { IsClass token.now class }
        requires before { IsWithinBody self → ⊥ }
        ensures { IfOk result (λ step. (aliases : List (List ℕ)) → is_in aliases token.now.text ≡ alias
            → FunctionStepIs aliases self token.now step) }
    {
        match self {
            FunctionReader::Header(static_place, reader) => {
                within_header(alloc, static_place, reader, token, class, alias)
            }
            FunctionReader::Parameters(static_place, header, reader) => {
                within_parameters(alloc, static_place, header, reader, token, class, alias)
            }
            FunctionReader::Behind(signature) => behind_signature(alloc, signature, token, class),
            FunctionReader::Body(_, _, _) => unreachable!(),
        }
    }
}

/// Takes a token within the head of a function.
pub fn within_header(
    alloc: Global,
    static_place: Option<Place>,
    reader: HeaderReader,
    token: &Token,
    class: Class,
    alias: bool,
) -> Result<FunctionStep, AllocError>
    requires { IsClass token.now class }
    ensures { IfOk result (λ step. (aliases : List (List ℕ)) → is_in aliases token.now.text ≡ alias
        → FunctionStepIs aliases (FunctionReader.Header static_place reader) token.now step) }
{
    match reader.step(alloc, token, class, alias)? {
        Step::Taken(reader) => Ok(Step::Taken(FunctionReader::Header(static_place, reader))),
        Step::Closed(header) => Ok(Step::Taken(FunctionReader::Parameters(
            static_place,
            header,
            ParametersReader::Start,
        ))),
        Step::Stuck => Ok(Step::Stuck),
    }
}

fn within_parameters(
    alloc: Global,
    static_place: Option<Place>,
    header: Header,
    reader: ParametersReader,
    token: &Token,
    class: Class,
    alias: bool,
) -> Result<FunctionStep, AllocError>
    requires { IsClass token.now class }
    ensures { IfOk result (λ step. (aliases : List (List ℕ)) → is_in aliases token.now.text ≡ alias
        → FunctionStepIs aliases (FunctionReader.Parameters static_place header reader) token.now step) }
{
    match reader.step(alloc, token, class, alias)? {
        Step::Taken(reader) => Ok(Step::Taken(FunctionReader::Parameters(
            static_place,
            header,
            reader,
        ))),
        Step::Closed(parameters) => Ok(Step::Taken(FunctionReader::Behind(Signature {
            static_place,
            header,
            parameters,
        }))),
        Step::Stuck => Ok(Step::Stuck),
    }
}

fn behind_signature(
    alloc: Global,
    signature: Signature,
    token: &Token,
    class: Class,
) -> Result<FunctionStep, AllocError>
    requires { IsClass token.now class }
    ensures { IfOk result (λ step. (aliases : List (List ℕ)) → FunctionStepIs aliases (FunctionReader.Behind signature) token.now step) }
{
    match class {
        Class::Semicolon => Ok(Step::Closed(function_of(signature, None))),
        Class::OpenBrace => {
            let fresh = BodyReader::new(alloc);
            let reader = Box::new(alloc, fresh)?;
            Ok(Step::Taken(FunctionReader::Body(signature, token.place, reader)))
        }
        _ => Ok(Step::Stuck),
    }
}

fn function_of(signature: Signature, body: Option<Body>) -> Function
    ensures { result
        ≡ record {
          static_place = signature.static_place;
          returned = signature.header.returned;
          name = signature.header.name;
          parameters = signature.parameters;
          body = body;
        } }
{
    Function {
        static_place: signature.static_place,
        returned: signature.header.returned,
        name: signature.header.name,
        parameters: signature.parameters,
        body,
    }
}
