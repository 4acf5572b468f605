// The blocks of rules, after `this ->` up to the `;`.
ghost use Rattle.mc_def_parse.specs.Blocks.{BlockStepIs, block_of};
ghost use Rattle.mc_def_parse.specs.Symbols.{symbol_of};
ghost use Rattle.std.specs.Prelude.{◌≡◌, IfOk};

use crate::step::Step;
use crate::symbols::Symbol;
use crate::tree::{Block, Content};
use mc_base::Items;
use mc_base::text::{Place, Token};
use mc_c_syntax::ast::name_at;
use std::alloc::{AllocError, Global};

/// A block, by the token of its struct, with the place of its `}`.
#[derive(Drop)]
pub struct WholeBlock<'t> {
    pub shape: &'t Token,
    pub contents: Items<Content>,
    pub end: Place,
}

impl<'t> WholeBlock<'t> {
    /// The block.
    pub fn block(self, alloc: Global) -> Result<Block, AllocError>
        ensures { IfOk result (λ block. block ≡ block_of self.entry) }
    {
        let WholeBlock {
            shape,
            contents,
            end,
        } = self;
        Ok(Block {
            shape: name_at(alloc, shape)?,
            contents,
            end,
        })
    }
}

/// What has been read of a block, by the tokens of its struct and of a field.
pub enum BlockReader<'t> {
    /// Before the struct.
    Shape,
    /// After the struct.
    Opening(&'t Token),
    /// Before a field.
    Field(&'t Token, Items<Content>),
    /// After a field.
    Colon(&'t Token, Items<Content>, &'t Token),
    /// Before the name of what a field holds.
    Content(&'t Token, Items<Content>, &'t Token),
    /// After a field and the name of what it holds.
    Contents(&'t Token, Items<Content>),
    /// Before the `;`.
    Whole(WholeBlock<'t>),
}

/// Drops what has been read.
impl Drop for BlockReader<'_> {
    fn drop(self) {
        match self {
            BlockReader::Shape | BlockReader::Opening(_) => {}
            BlockReader::Field(_, contents)
            | BlockReader::Contents(_, contents)
            | BlockReader::Colon(_, contents, _)
            | BlockReader::Content(_, contents, _) => drop(contents),
            BlockReader::Whole(block) => drop(block),
        }
    }
}

pub type BlockStep<'t> = Step<BlockReader<'t>, WholeBlock<'t>>;

impl<'t> BlockReader<'t> {
    /// Takes the next token.
    pub fn step(
        self,
        alloc: Global,
        token: &'t Token,
        symbol: Symbol,
    ) -> Result<BlockStep<'t>, AllocError>
        requires { symbol ≡ symbol_of token.now }
        ensures { IfOk result (λ step. BlockStepIs self.entry token.now step) }
    {
        match self {
            BlockReader::Shape => Ok(before_shape(token, symbol)),
            BlockReader::Opening(shape) => Ok(behind_shape(alloc, shape, token, symbol)),
            BlockReader::Field(shape, contents) => Ok(before_field(shape, contents, token, symbol)),
            BlockReader::Colon(shape, contents, field) => {
                Ok(behind_field(shape, contents, field, token, symbol))
            }
            BlockReader::Content(shape, contents, field) => {
                before_content(alloc, shape, contents, field, token, symbol)
            }
            BlockReader::Contents(shape, contents) => {
                Ok(behind_content(shape, contents, token, symbol))
            }
            BlockReader::Whole(block) => Ok(before_stop(block, token, symbol)),
        }
    }
}

fn before_shape<'t>(token: &'t Token, symbol: Symbol) -> BlockStep<'t>
    requires { symbol ≡ symbol_of token.now }
    ensures { BlockStepIs BlockReader.Shape token.now result }
{
    match symbol {
        Symbol::Name => Step::Taken(BlockReader::Opening(token)),
        _ => Step::Stuck,
    }
}

fn behind_shape<'t>(alloc: Global, shape: &'t Token, token: &Token, symbol: Symbol) -> BlockStep<'t>
    requires { symbol ≡ symbol_of token.now }
    ensures { BlockStepIs (BlockReader.Opening shape.entry) token.now result }
{
    let _now = token;
    match symbol {
        Symbol::OpenBrace => Step::Taken(BlockReader::Field(shape, Items::new(alloc))),
        _ => Step::Stuck,
    }
}

fn before_field<'t>(
    shape: &'t Token,
    contents: Items<Content>,
    token: &'t Token,
    symbol: Symbol,
) -> BlockStep<'t>
    requires { symbol ≡ symbol_of token.now }
    ensures { BlockStepIs (BlockReader.Field shape.entry contents) token.now result }
{
    match symbol {
        Symbol::Name => Step::Taken(BlockReader::Colon(shape, contents, token)),
        _ => Step::Stuck,
    }
}

fn behind_field<'t>(
    shape: &'t Token,
    contents: Items<Content>,
    field: &'t Token,
    token: &Token,
    symbol: Symbol,
) -> BlockStep<'t>
    requires { symbol ≡ symbol_of token.now }
    ensures { BlockStepIs (BlockReader.Colon shape.entry contents field.entry) token.now result }
{
    let _now = token;
    match symbol {
        Symbol::Colon => Step::Taken(BlockReader::Content(shape, contents, field)),
        _ => Step::Stuck,
    }
}

fn before_content<'t>(
    alloc: Global,
    shape: &'t Token,
    mut contents: Items<Content>,
    field: &'t Token,
    token: &Token,
    symbol: Symbol,
) -> Result<BlockStep<'t>, AllocError>
    requires { symbol ≡ symbol_of token.now }
    ensures { IfOk result (λ step. BlockStepIs (BlockReader.Content shape.entry contents field.entry) token.now step) }
{
    match symbol {
        Symbol::Name => {
            let field = name_at(alloc, field)?;
            let name = name_at(alloc, token)?;
            contents.push(Content { field, name })?;
            Ok(Step::Taken(BlockReader::Contents(shape, contents)))
        }
        _ => Ok(Step::Stuck),
    }
}

fn behind_content<'t>(
    shape: &'t Token,
    contents: Items<Content>,
    token: &Token,
    symbol: Symbol,
) -> BlockStep<'t>
    requires { symbol ≡ symbol_of token.now }
    ensures { BlockStepIs (BlockReader.Contents shape.entry contents) token.now result }
{
    match symbol {
        Symbol::Comma => Step::Taken(BlockReader::Field(shape, contents)),
        Symbol::CloseBrace => Step::Taken(BlockReader::Whole(WholeBlock {
            shape,
            contents,
            end: token.place,
        })),
        _ => Step::Stuck,
    }
}

fn before_stop<'t>(block: WholeBlock<'t>, token: &Token, symbol: Symbol) -> BlockStep<'t>
    requires { symbol ≡ symbol_of token.now }
    ensures { BlockStepIs (BlockReader.Whole block.entry) token.now result }
{
    let _now = token;
    match symbol {
        Symbol::Semicolon => Step::Closed(block),
        _ => Step::Stuck,
    }
}
