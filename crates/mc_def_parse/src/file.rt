// Whole files, token by token.
ghost use Rattle.mc_def_parse.specs.Files.{FileTookIs, CompletesAt, CompletesFile, FirstRuleEnds, RulesEnd, BraceEnds, BodyEnds, ThisGoesOn, BlockEnds, ItemsEnd, ItemEnds};
ghost use Rattle.mc_c_syntax.specs.Ast.Names.{name_of};
ghost use Rattle.mc_def_parse.specs.Blocks.{CompletesBlock};
ghost use Rattle.mc_def_parse.specs.Grammar.{MoreDefs};
ghost use Rattle.mc_def_parse.specs.Heads.{CompletesHead};
ghost use Rattle.mc_def_parse.specs.Readers.{CompletesItem};
ghost use Rattle.mc_def_parse.specs.Steps.{Then};
ghost use Rattle.mc_def_parse.specs.Symbols.{symbol_of};
ghost use Rattle.std.specs.Prelude.{◌≡◌, ◌++◌, ◌∷◌, [], None, IfOk, OnOk};

use crate::block::BlockReader;
use crate::front::{HeadReader, is_word};
use crate::item::ItemReader;
use crate::step::{Step, Took};
use crate::symbols::{Symbol, classify};
use crate::tree::{Block, DefText, Head, Item, RuleText};
use mc_base::Items;
use mc_base::text::{Place, Text, Token, TokenKind};
use mc_c_syntax::ast::Name;
use std::alloc::{AllocError, Global};
use std::mem;

/// Where a reader stands.
pub enum At<'t> {
    /// Before a definition or the end.
    Outside,
    /// After `def`.
    Head(HeadReader<'t>),
    /// After the head of a definition.
    FirstRule,
    /// After a rule.
    Rules,
    /// After `rule`.
    Brace,
    /// After the `{` of a rule.
    Start,
    /// After the name `this` there.
    This(&'t Token),
    /// After `this ->`.
    Block(BlockReader<'t>),
    /// After a block or an item.
    Items,
    /// Within an item.
    Item(ItemReader<'t>),
}

/// Drops what has been read. What replaces a place calls this.
impl Drop for At<'_> {
    fn drop(self) {
        match self {
            At::Outside
            | At::FirstRule
            | At::Rules
            | At::Brace
            | At::Start
            | At::This(_)
            | At::Items => {}
            At::Head(reader) => drop(reader),
            At::Block(reader) => drop(reader),
            At::Item(reader) => drop(reader),
        }
    }
}

impl<'t> At<'t> {
    // Takes the next token, where a file is read up to here.
    fn step(
        self,
        alloc: Global,
        file: &mut FileReader<'t>,
        token: &'t Token,
        symbol: Symbol,
    ) -> Result<Took, AllocError>
        requires { symbol ≡ symbol_of token.now }
        ensures { IfOk result
            (λ took. FileTookIs
            (CompletesAt self.entry file.old.done file.old.head file.old.rules file.old.block file.old.items) file.new token.now took) }
    {
        match self {
            At::Outside => Ok(file.outside(token, symbol)),
            At::Head(reader) => file.within_head(alloc, reader, token, symbol),
            At::FirstRule => Ok(file.before_rule(alloc, token, symbol)),
            At::Rules => file.behind_rule(alloc, token, symbol),
            At::Brace => Ok(file.before_brace(token, symbol)),
            At::Start => file.at_start(alloc, token, symbol),
            At::This(this) => file.behind_this(alloc, this, token, symbol),
            At::Block(reader) => file.within_block(alloc, reader, token, symbol),
            At::Items => file.behind_item(alloc, token, symbol),
            At::Item(reader) => file.within_item(alloc, reader, token, symbol),
        }
    }
}

/// What has been read of a file: whole definitions, and the head, the whole rules, the block and the whole items of the
/// one that is open.
#[derive(Drop)]
pub struct FileReader<'t> {
    pub done: Items<DefText>,
    pub head: Head,
    pub rules: Items<RuleText>,
    pub block: Option<Block>,
    pub items: Items<Item>,
    pub at: At<'t>,
}

fn no_head(alloc: Global) -> Head {
    let name = Name {
        text: Text::new(alloc),
        place: Place { line: 1, column: 1 },
    };
    Head {
        name,
        params: Items::new(alloc),
    }
}

impl<'t> FileReader<'t> {
    /// A reader before the first token.
    pub fn new(alloc: Global) -> FileReader<'t>
        ensures at { result.at ≡ At.Outside }
        ensures done { result.done ≡ [] }
    {
        FileReader {
            done: Items::new(alloc),
            head: no_head(alloc),
            rules: Items::new(alloc),
            block: None,
            items: Items::new(alloc),
            at: At::Outside,
        }
    }

    /// Takes the next token.
    pub fn step(&mut self, alloc: Global, token: &'t Token) -> Result<Took, AllocError>
        ensures { IfOk result (λ took. FileTookIs (CompletesFile self.old) self.new token.now took) }
    {
        let symbol = classify(token);
        let at = mem::replace(&mut self.at, At::Items);
        at.step(alloc, self, token, symbol)
    }

    fn outside(&mut self, token: &'t Token, symbol: Symbol) -> Took
        requires { symbol ≡ symbol_of token.now }
        ensures { FileTookIs (MoreDefs self.old.done) self.new token.now result }
    {
        match token.kind {
            TokenKind::End => Took::Closed,
            _ => self.begin_def(token, symbol),
        }
    }

    fn begin_def(&mut self, token: &'t Token, symbol: Symbol) -> Took
        requires now { symbol ≡ symbol_of token.now }
        requires no_end { token.now.kind ≡ TokenKind.End → ⊥ }
        ensures { FileTookIs (MoreDefs self.old.done) self.new token.now result }
    {
        if is_word(token, symbol, b"def") {
            self.at = At::Head(HeadReader::Name);
            Took::Taken
        } else {
            Took::Stuck
        }
    }

    fn within_head(
        &mut self,
        alloc: Global,
        reader: HeadReader<'t>,
        token: &'t Token,
        symbol: Symbol,
    ) -> Result<Took, AllocError>
        requires { symbol ≡ symbol_of token.now }
        ensures { IfOk result (λ took. FileTookIs
            (Then (CompletesHead reader.entry) (FirstRuleEnds self.old.done)) self.new token.now took) }
    {
        match reader.step(alloc, token, symbol)? {
            Step::Taken(reader) => {
                self.at = At::Head(reader);
                Ok(Took::Taken)
            }
            Step::Closed(head) => {
                self.head = head.head(alloc)?;
                self.at = At::FirstRule;
                Ok(Took::Taken)
            }
            Step::Stuck => Ok(Took::Stuck),
        }
    }

    fn before_rule(&mut self, alloc: Global, token: &'t Token, symbol: Symbol) -> Took
        requires { symbol ≡ symbol_of token.now }
        ensures { FileTookIs (FirstRuleEnds self.old.done self.old.head) self.new token.now result }
    {
        if !is_word(token, symbol, b"rule") {
            return Took::Stuck;
        }
        self.rules = Items::new(alloc);
        self.at = At::Brace;
        Took::Taken
    }

    fn behind_rule(
        &mut self,
        alloc: Global,
        token: &'t Token,
        symbol: Symbol,
    ) -> Result<Took, AllocError>
        requires { symbol ≡ symbol_of token.now }
        ensures { IfOk result (λ took. FileTookIs (RulesEnd self.old.done self.old.head self.old.rules) self.new token.now took) }
    {
        match symbol {
            Symbol::CloseBrace => {
                self.end_def(alloc)?;
                Ok(Took::Taken)
            }
            _ => Ok(self.next_rule(token, symbol)),
        }
    }

    fn next_rule(&mut self, token: &'t Token, symbol: Symbol) -> Took
        requires now { symbol ≡ symbol_of token.now }
        requires no_brace { symbol ≡ Symbol.CloseBrace → ⊥ }
        ensures { FileTookIs (RulesEnd self.old.done self.old.head self.old.rules) self.new token.now result }
    {
        if is_word(token, symbol, b"rule") {
            self.at = At::Brace;
            Took::Taken
        } else {
            Took::Stuck
        }
    }

    // The open definition is whole.
    fn end_def(&mut self, alloc: Global) -> Result<(), AllocError>
        ensures at { OnOk result (self.new.at ≡ At.Outside) }
        ensures done { OnOk result (self.new.done ≡ self.old.done ++ record { head = self.old.head; rules = self.old.rules } ∷ []) }
    {
        let head = mem::replace(&mut self.head, no_head(alloc));
        let rules = mem::replace(&mut self.rules, Items::new(alloc));
        self.done.push(DefText { head, rules })?;
        self.at = At::Outside;
        Ok(())
    }

    fn before_brace(&mut self, token: &'t Token, symbol: Symbol) -> Took
        requires { symbol ≡ symbol_of token.now }
        ensures { FileTookIs (BraceEnds self.old.done self.old.head self.old.rules) self.new token.now result }
    {
        let _now = token;
        match symbol {
            Symbol::OpenBrace => {
                self.at = At::Start;
                Took::Taken
            }
            _ => Took::Stuck,
        }
    }

    fn at_start(
        &mut self,
        alloc: Global,
        token: &'t Token,
        symbol: Symbol,
    ) -> Result<Took, AllocError>
        requires { symbol ≡ symbol_of token.now }
        ensures { IfOk result (λ took. FileTookIs (BodyEnds self.old.done self.old.head self.old.rules) self.new token.now took) }
    {
        if is_word(token, symbol, b"this") {
            self.at = At::This(token);
            Ok(Took::Taken)
        } else {
            self.block = None;
            self.items = Items::new(alloc);
            self.behind_item(alloc, token, symbol)
        }
    }

    fn behind_this(
        &mut self,
        alloc: Global,
        this: &'t Token,
        token: &'t Token,
        symbol: Symbol,
    ) -> Result<Took, AllocError>
        requires { symbol ≡ symbol_of token.now }
        ensures { IfOk result
            (λ took. FileTookIs
            (ThisGoesOn self.old.done self.old.head self.old.rules (name_of this.now)) self.new token.now took) }
    {
        match symbol {
            Symbol::Arrow => {
                self.at = At::Block(BlockReader::Shape);
                Ok(Took::Taken)
            }
            _ => {
                self.block = None;
                self.items = Items::new(alloc);
                self.within_item(alloc, ItemReader::Name(this), token, symbol)
            }
        }
    }

    fn within_block(
        &mut self,
        alloc: Global,
        reader: BlockReader<'t>,
        token: &'t Token,
        symbol: Symbol,
    ) -> Result<Took, AllocError>
        requires { symbol ≡ symbol_of token.now }
        ensures { IfOk result (λ took. FileTookIs
            (Then (CompletesBlock reader.entry)
            (BlockEnds self.old.done self.old.head self.old.rules)) self.new token.now took) }
    {
        match reader.step(alloc, token, symbol)? {
            Step::Taken(reader) => {
                self.at = At::Block(reader);
                Ok(Took::Taken)
            }
            Step::Closed(block) => {
                self.block = Some(block.block(alloc)?);
                self.items = Items::new(alloc);
                self.at = At::Items;
                Ok(Took::Taken)
            }
            Step::Stuck => Ok(Took::Stuck),
        }
    }

    fn behind_item(
        &mut self,
        alloc: Global,
        token: &'t Token,
        symbol: Symbol,
    ) -> Result<Took, AllocError>
        requires { symbol ≡ symbol_of token.now }
        ensures { IfOk result
            (λ took. FileTookIs
            (ItemsEnd self.old.done self.old.head self.old.rules self.old.block self.old.items) self.new token.now took) }
    {
        match symbol {
            Symbol::CloseBrace => {
                self.end_rule(alloc)?;
                Ok(Took::Taken)
            }
            _ => self.within_item(alloc, ItemReader::Start, token, symbol),
        }
    }

    // The open rule is whole.
    fn end_rule(&mut self, alloc: Global) -> Result<(), AllocError>
        ensures at { OnOk result (self.new.at ≡ At.Rules) }
        ensures done { OnOk result (self.new.done ≡ self.old.done) }
        ensures head { OnOk result (self.new.head ≡ self.old.head) }
        ensures rules { OnOk result (self.new.rules ≡ self.old.rules ++ record { block = self.old.block; items = self.old.items } ∷ []) }
    {
        let block = mem::replace(&mut self.block, None);
        let items = mem::replace(&mut self.items, Items::new(alloc));
        self.rules.push(RuleText { block, items })?;
        self.at = At::Rules;
        Ok(())
    }

    fn within_item(
        &mut self,
        alloc: Global,
        reader: ItemReader<'t>,
        token: &'t Token,
        symbol: Symbol,
    ) -> Result<Took, AllocError>
        requires { symbol ≡ symbol_of token.now }
        ensures { IfOk result (λ took. FileTookIs
            (Then (CompletesItem reader.entry)
            (ItemEnds self.old.done self.old.head self.old.rules self.old.block self.old.items)) self.new token.now took) }
    {
        match reader.step(alloc, token, symbol)? {
            Step::Taken(reader) => {
                self.at = At::Item(reader);
                Ok(Took::Taken)
            }
            Step::Closed(item) => {
                self.items.push(item.item(alloc)?)?;
                self.at = At::Items;
                Ok(Took::Taken)
            }
            Step::Stuck => Ok(Took::Stuck),
        }
    }
}
