// The heads of definitions, after `def` up to the `{`.
ghost use Rattle.mc_def_parse.specs.Heads.{HeadStepIs, head_of};
ghost use Rattle.mc_def_parse.specs.Grammar.{IsWord};
ghost use Rattle.mc_def_parse.specs.Symbols.{symbol_of};
ghost use Rattle.std.specs.Prelude.{◌≡◌, ◌↔◌, IfOk, IsTrue};

use crate::step::Step;
use crate::symbols::Symbol;
use crate::tree::{Head, Parameter};
use mc_base::text::Token;
use mc_base::{Items, Kind};
use mc_c_syntax::ast::name_at;
use std::alloc::{AllocError, Global};

/// A head, by the token of its name.
#[derive(Drop)]
pub struct WholeHead<'t> {
    pub name: &'t Token,
    pub params: Items<Parameter>,
}

impl<'t> WholeHead<'t> {
    /// The head.
    pub fn head(self, alloc: Global) -> Result<Head, AllocError>
        ensures { IfOk result (λ head. head ≡ head_of self.entry) }
    {
        let WholeHead { name, params } = self;
        Ok(Head {
            name: name_at(alloc, name)?,
            params,
        })
    }
}

/// What has been read of the head of a definition, by the token of its name.
pub enum HeadReader<'t> {
    /// Before the name.
    Name,
    /// After the name.
    Opening(&'t Token),
    /// Before `this`.
    This(&'t Token),
    /// After a parameter.
    Parameters(&'t Token, Items<Parameter>),
    /// Before a parameter.
    Kind(&'t Token, Items<Parameter>),
    /// After the kind of a parameter.
    Parameter(&'t Token, Items<Parameter>, Kind),
    /// Before the `{`.
    Brace(WholeHead<'t>),
}

/// Drops what has been read.
impl Drop for HeadReader<'_> {
    fn drop(self) {
        match self {
            HeadReader::Name | HeadReader::Opening(_) | HeadReader::This(_) => {}
            HeadReader::Parameters(_, params)
            | HeadReader::Kind(_, params)
            | HeadReader::Parameter(_, params, _) => drop(params),
            HeadReader::Brace(head) => drop(head),
        }
    }
}

pub type HeadStep<'t> = Step<HeadReader<'t>, WholeHead<'t>>;

impl<'t> HeadReader<'t> {
    /// Takes the next token.
    pub fn step(
        self,
        alloc: Global,
        token: &'t Token,
        symbol: Symbol,
    ) -> Result<HeadStep<'t>, AllocError>
        requires { symbol ≡ symbol_of token.now }
        ensures { IfOk result (λ step. HeadStepIs self.entry token.now step) }
    {
        match self {
            HeadReader::Name => Ok(before_name(token, symbol)),
            HeadReader::Opening(name) => Ok(behind_name(name, token, symbol)),
            HeadReader::This(name) => Ok(before_this(alloc, name, token, symbol)),
            HeadReader::Parameters(name, params) => {
                Ok(behind_parameter(name, params, token, symbol))
            }
            HeadReader::Kind(name, params) => Ok(before_kind(name, params, token, symbol)),
            HeadReader::Parameter(name, params, kind) => {
                behind_kind(alloc, name, params, kind, token, symbol)
            }
            HeadReader::Brace(head) => Ok(before_brace(head, token, symbol)),
        }
    }
}

/// Whether a token is this name.
pub fn is_word(token: &Token, symbol: Symbol, word: &[u8]) -> bool
    requires { symbol ≡ symbol_of token.now }
    ensures { IsTrue result ↔ IsWord word.now token.now }
{
    symbol == Symbol::Name && token.text.as_slice() == word
}

fn before_name<'t>(token: &'t Token, symbol: Symbol) -> HeadStep<'t>
    requires { symbol ≡ symbol_of token.now }
    ensures { HeadStepIs HeadReader.Name token.now result }
{
    match symbol {
        Symbol::Name => Step::Taken(HeadReader::Opening(token)),
        _ => Step::Stuck,
    }
}

fn behind_name<'t>(name: &'t Token, token: &Token, symbol: Symbol) -> HeadStep<'t>
    requires { symbol ≡ symbol_of token.now }
    ensures { HeadStepIs (HeadReader.Opening name.entry) token.now result }
{
    let _now = token;
    match symbol {
        Symbol::Open => Step::Taken(HeadReader::This(name)),
        _ => Step::Stuck,
    }
}

fn before_this<'t>(alloc: Global, name: &'t Token, token: &Token, symbol: Symbol) -> HeadStep<'t>
    requires { symbol ≡ symbol_of token.now }
    ensures { HeadStepIs (HeadReader.This name.entry) token.now result }
{
    if is_word(token, symbol, b"this") {
        Step::Taken(HeadReader::Parameters(name, Items::new(alloc)))
    } else {
        Step::Stuck
    }
}

fn behind_parameter<'t>(
    name: &'t Token,
    params: Items<Parameter>,
    token: &Token,
    symbol: Symbol,
) -> HeadStep<'t>
    requires { symbol ≡ symbol_of token.now }
    ensures { HeadStepIs (HeadReader.Parameters name.entry params) token.now result }
{
    let _now = token;
    match symbol {
        Symbol::Comma => Step::Taken(HeadReader::Kind(name, params)),
        Symbol::Close => Step::Taken(HeadReader::Brace(WholeHead { name, params })),
        _ => Step::Stuck,
    }
}

fn before_kind<'t>(
    name: &'t Token,
    params: Items<Parameter>,
    token: &Token,
    symbol: Symbol,
) -> HeadStep<'t>
    requires { symbol ≡ symbol_of token.now }
    ensures { HeadStepIs (HeadReader.Kind name.entry params) token.now result }
{
    if symbol == Symbol::Int {
        Step::Taken(HeadReader::Parameter(name, params, Kind::Int))
    } else if is_word(token, symbol, b"ptr") {
        Step::Taken(HeadReader::Parameter(name, params, Kind::Ptr))
    } else {
        Step::Stuck
    }
}

fn behind_kind<'t>(
    alloc: Global,
    name: &'t Token,
    mut params: Items<Parameter>,
    kind: Kind,
    token: &Token,
    symbol: Symbol,
) -> Result<HeadStep<'t>, AllocError>
    requires { symbol ≡ symbol_of token.now }
    ensures { IfOk result (λ step. HeadStepIs (HeadReader.Parameter name.entry params kind) token.now step) }
{
    match symbol {
        Symbol::Name => {
            let param = name_at(alloc, token)?;
            params.push(Parameter { kind, name: param })?;
            Ok(Step::Taken(HeadReader::Parameters(name, params)))
        }
        _ => Ok(Step::Stuck),
    }
}

fn before_brace<'t>(head: WholeHead<'t>, token: &Token, symbol: Symbol) -> HeadStep<'t>
    requires { symbol ≡ symbol_of token.now }
    ensures { HeadStepIs (HeadReader.Brace head.entry) token.now result }
{
    let _now = token;
    match symbol {
        Symbol::OpenBrace => Step::Closed(head),
        _ => Step::Stuck,
    }
}
