// Whole programs.
ghost use Rattle.mc_c_syntax.specs.Ast.Classes.{IsClass};
ghost use Rattle.mc_c_syntax.specs.Ast.Grammar.{introduced, IsUnit};
ghost use Rattle.mc_c_syntax.specs.Ast.Names.{is_in, Tokens};
ghost use Rattle.mc_c_syntax.specs.Ast.Trees.{UnitTree};
ghost use Rattle.mc_c_syntax.specs.Ast.Views.{item_of};
ghost use Rattle.mc_c_parse.specs.Units.{CompletesUnit, ItemsFrom, Knows, KnowsTypes, UnitStepIs, types_behind};
ghost use Rattle.std.specs.Prelude.{◌≡◌, ◌≢◌, ◌∷◌, ◌++◌, ℕ, List, [], IfOk, OnOk, map};

use crate::aliases::AliasNames;
use crate::item::ItemReader;
use crate::step::Took;
use mc_base::text::Token;
use mc_c_syntax::ast::{Class, Declarator, Item, Unit, classify};
use std::alloc::{AllocError, Global};
use std::mem;

/// What has been read of a program.
pub struct UnitReader {
    /// The items that are complete.
    pub items: Vec<Item>,
    /// What has been read of the next one; nothing after a complete one.
    pub current: Option<ItemReader>,
    /// The names that typedefs introduced so far.
    pub aliases: AliasNames,
}

/// Drops what is read. What holds a reader calls this.
impl Drop for UnitReader {
    fn drop(self) {
        let UnitReader {
            items,
            current,
            aliases,
        } = self;
        drop(items);
        drop(current);
        drop(aliases);
    }
}

/// What a reader of programs makes of a token.
#[derive(Drop)]
pub enum UnitStep {
    Taken,
    /// At the end of the text.
    Done(Unit),
    Stuck,
}

impl UnitReader {
    /// A reader at the start of a text.
    pub fn new(alloc: Global) -> UnitReader
        ensures none { result.items.items ≡ [] }
        ensures starts { result.current ≡ None }
        ensures known { KnowsTypes result }
    {
        UnitReader {
            items: Vec::new(alloc),
            current: None,
            aliases: AliasNames::new(alloc),
        }
    }

    /// Takes the next token.
    pub fn step(&mut self, alloc: Global, token: &Token) -> Result<UnitStep, AllocError>
        requires { KnowsTypes self.old }
        ensures { IfOk result (λ step. UnitStepIs (CompletesUnit self.old) self.new token.now step) }
    {
        let class = classify(token);
        let alias = self.aliases.contains(token.text.as_slice());
        match &mut self.current {
            Some(reader) => match reader.step(alloc, token, class, alias)? {
                Took::Taken => Ok(UnitStep::Taken),
                Took::Closed(item) => {
                    self.add(alloc, item)?;
                    Ok(UnitStep::Taken)
                }
                Took::Stuck => Ok(UnitStep::Stuck),
            },
            None => self.begin(alloc, token, class, alias),
        }
    }

    /// Takes the first token of an item, or the end.
    #[inline(never)]
    fn begin(
        &mut self,
        alloc: Global,
        token: &Token,
        class: Class,
        alias: bool,
    ) -> Result<UnitStep, AllocError>
        requires between { self.old.current ≡ None }
        requires known { KnowsTypes self.old }
        requires of { IsClass token.now class }
        requires alias { is_in self.old.aliases token.now.text ≡ alias }
        ensures { IfOk result (λ step. UnitStepIs (CompletesUnit self.old) self.new token.now step) }
    {
        match class {
            Class::End => {
                let items = mem::replace(&mut self.items, Vec::new(alloc));
                Ok(UnitStep::Done(Unit { items }))
            }
            _ => self.begin_item(alloc, token, class, alias),
        }
    }

    /// Takes the first token of an item.
    fn begin_item(
        &mut self,
        alloc: Global,
        token: &Token,
        class: Class,
        alias: bool,
    ) -> Result<UnitStep, AllocError>
        requires between { self.old.current ≡ None }
        requires known { KnowsTypes self.old }
        requires of { IsClass token.now class }
        requires alias { is_in self.old.aliases token.now.text ≡ alias }
        requires no_end { class ≢ Class.End }
        ensures { IfOk result (λ step. UnitStepIs (CompletesUnit self.old) self.new token.now step) }
    {
        let mut reader = ItemReader::Start;
        match reader.step(alloc, token, class, alias)? {
            Took::Taken => {
                self.current = Some(reader);
                Ok(UnitStep::Taken)
            }
            Took::Closed(item) => {
                self.add(alloc, item)?;
                Ok(UnitStep::Taken)
            }
            Took::Stuck => Ok(UnitStep::Stuck),
        }
    }

    /// Goes on after one more item.
    #[inline(never)]
    fn add(&mut self, alloc: Global, item: Box<Item>) -> Result<(), AllocError>
        requires { KnowsTypes self.old }
        ensures items { OnOk result (self.new.items.items ≡ self.old.items.items ++ item.value ∷ []) }
        ensures starts { OnOk result (self.new.current ≡ None) }
        ensures known { OnOk result (KnowsTypes self.new) }
    {
        let item = Box::into_inner(item);
        introduce(alloc, &mut self.aliases, &item)?;
        self.items.push(item)?;
        self.current = None;
        Ok(())
    }
}

/// Adds the names that an item introduces as types.
fn introduce(alloc: Global, aliases: &mut AliasNames, item: &Item) -> Result<(), AllocError>
    ensures { OnOk result ((name : List ℕ) → is_in aliases.new name ≡ is_in (introduced (item_of item.now) ++ aliases.old) name) }
{
    match item {
        Item::Typedef(typedef) => introduce_all(alloc, aliases, typedef.declarators.as_slice()),
        Item::Struct(_) => Ok(()),
        Item::Function(_) => Ok(()),
    }
}

/// Adds the names of these declarators.
fn introduce_all(
    alloc: Global,
    aliases: &mut AliasNames,
    declarators: &[Declarator],
) -> Result<(), AllocError>
    ensures { OnOk result ((name : List ℕ) → is_in aliases.new name ≡ is_in (map (λ d. d.name.text) declarators.now ++ aliases.old) name) }
{
    for declarator in declarators {
        aliases.add(alloc, declarator.name.text.as_slice())?;
    }
    Ok(())
}
