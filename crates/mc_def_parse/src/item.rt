// The items of a rule, each up to its `;`.
ghost use Rattle.mc_def_parse.specs.Readers.{ItemStepIs, CompletesItem, item_of};
ghost use Rattle.mc_def_parse.specs.Symbols.{symbol_of};
ghost use Rattle.std.specs.Prelude.{◌≡◌, IfOk};

use crate::step::Step;
use crate::symbols::{Symbol, number};
use crate::tree::{Bound, Item, Number, Relation, Sum};
use mc_base::text::{Place, Token};
use mc_base::{Items, Kind};
use mc_c_syntax::ast::{Name, name_at};
use std::alloc::{AllocError, Global};

/// An item, by the tokens of its names.
pub enum WholeItem<'t> {
    Call(&'t Token, Items<Name>),
    /// A name and a number.
    Number(&'t Token, Relation, Number),
    /// Two names.
    Name(&'t Token, Relation, &'t Token),
    /// Two names, and what is added to the second.
    Moved(&'t Token, Relation, &'t Token, Number),
    Bound(&'t Token, Bound, Number),
}

/// Drops what has been read.
impl Drop for WholeItem<'_> {
    fn drop(self) {
        match self {
            WholeItem::Call(_, args) => drop(args),
            WholeItem::Number(_, _, _)
            | WholeItem::Name(_, _, _)
            | WholeItem::Moved(_, _, _, _)
            | WholeItem::Bound(_, _, _) => {}
        }
    }
}

impl<'t> WholeItem<'t> {
    /// The item.
    pub fn item(self, alloc: Global) -> Result<Item, AllocError>
        ensures { IfOk result (λ item. item ≡ item_of self.entry) }
    {
        match self {
            WholeItem::Call(pred, args) => Ok(Item::Call(name_at(alloc, pred)?, args)),
            WholeItem::Number(name, relation, number) => {
                let name = name_at(alloc, name)?;
                Ok(Item::Relates(name, relation, Sum::Number(number)))
            }
            WholeItem::Name(name, relation, base) => {
                let name = name_at(alloc, name)?;
                Ok(Item::Relates(name, relation, Sum::Name(name_at(alloc, base)?)))
            }
            WholeItem::Moved(name, relation, base, offset) => {
                let name = name_at(alloc, name)?;
                let base = name_at(alloc, base)?;
                Ok(Item::Relates(name, relation, Sum::Moved(base, offset)))
            }
            WholeItem::Bound(name, bound, limit) => {
                Ok(Item::Bounds(name_at(alloc, name)?, bound, limit))
            }
        }
    }
}

/// What has been read of an item, by the tokens of its names.
pub enum ItemReader<'t> {
    Start,
    /// After `int`.
    Int,
    /// After a first name, which is a kind where it is `ptr` and a name follows.
    Name(&'t Token),
    /// After a kind and a name.
    Fixed(Kind, &'t Token),
    /// Before an argument.
    Argument(&'t Token, Items<Name>),
    /// After an argument.
    Arguments(&'t Token, Items<Name>),
    /// Before a sum.
    Sum(&'t Token, Relation),
    /// After the `-` of a number.
    Negative(&'t Token, Relation, Place),
    /// After the name of a sum.
    Base(&'t Token, Relation, &'t Token),
    /// After the `+` or `-` of a sum; true is `-`.
    Offset(&'t Token, Relation, &'t Token, bool),
    /// Before a bound.
    Bound(&'t Token, Bound),
    /// After the `-` of a bound.
    NegativeBound(&'t Token, Bound, Place),
    /// Before the `;`.
    Whole(WholeItem<'t>),
}

/// Drops what has been read.
impl Drop for ItemReader<'_> {
    fn drop(self) {
        match self {
            ItemReader::Start
            | ItemReader::Int
            | ItemReader::Name(_)
            | ItemReader::Fixed(_, _)
            | ItemReader::Sum(_, _)
            | ItemReader::Negative(_, _, _)
            | ItemReader::Base(_, _, _)
            | ItemReader::Offset(_, _, _, _)
            | ItemReader::Bound(_, _)
            | ItemReader::NegativeBound(_, _, _) => {}
            ItemReader::Argument(_, args) | ItemReader::Arguments(_, args) => drop(args),
            ItemReader::Whole(item) => drop(item),
        }
    }
}

pub type ItemStep<'t> = Step<ItemReader<'t>, WholeItem<'t>>;

impl<'t> ItemReader<'t> {
    /// Takes the next token.
    pub fn step(
        self,
        alloc: Global,
        token: &'t Token,
        symbol: Symbol,
    ) -> Result<ItemStep<'t>, AllocError>
        requires { symbol ≡ symbol_of token.now }
        ensures { IfOk result (λ step. ItemStepIs self.entry token.now step) }
    {
        match self {
            ItemReader::Start => Ok(at_start(token, symbol)),
            ItemReader::Int => Ok(behind_int(token, symbol)),
            ItemReader::Name(name) => Ok(behind_name(alloc, name, token, symbol)),
            ItemReader::Fixed(kind, name) => Ok(behind_fixed(kind, name, token, symbol)),
            ItemReader::Argument(pred, args) => before_argument(alloc, pred, args, token, symbol),
            ItemReader::Arguments(pred, args) => Ok(behind_argument(pred, args, token, symbol)),
            ItemReader::Sum(name, relation) => Ok(before_sum(name, relation, token, symbol)),
            ItemReader::Negative(name, relation, place) => {
                Ok(behind_minus(name, relation, place, token))
            }
            ItemReader::Base(name, relation, base) => {
                Ok(behind_base(name, relation, base, token, symbol))
            }
            ItemReader::Offset(name, relation, base, minus) => {
                Ok(before_offset(name, relation, base, minus, token))
            }
            ItemReader::Bound(name, bound) => Ok(before_bound(name, bound, token, symbol)),
            ItemReader::NegativeBound(name, bound, place) => {
                Ok(behind_bound_minus(name, bound, place, token))
            }
            ItemReader::Whole(item) => Ok(before_stop(item, token, symbol)),
        }
    }
}

fn at_start<'t>(token: &'t Token, symbol: Symbol) -> ItemStep<'t>
    requires { symbol ≡ symbol_of token.now }
    ensures { ItemStepIs ItemReader.Start token.now result }
{
    match symbol {
        Symbol::Int => Step::Taken(ItemReader::Int),
        Symbol::Name => Step::Taken(ItemReader::Name(token)),
        _ => Step::Stuck,
    }
}

fn behind_int<'t>(token: &'t Token, symbol: Symbol) -> ItemStep<'t>
    requires { symbol ≡ symbol_of token.now }
    ensures { ItemStepIs ItemReader.Int token.now result }
{
    match symbol {
        Symbol::Name => Step::Taken(ItemReader::Fixed(Kind::Int, token)),
        _ => Step::Stuck,
    }
}

fn behind_name<'t>(alloc: Global, name: &'t Token, token: &'t Token, symbol: Symbol) -> ItemStep<'t>
    requires { symbol ≡ symbol_of token.now }
    ensures { ItemStepIs (ItemReader.Name name.entry) token.now result }
{
    match symbol {
        Symbol::Open => Step::Taken(ItemReader::Argument(name, Items::new(alloc))),
        Symbol::Equal => Step::Taken(ItemReader::Sum(name, Relation::Equals)),
        Symbol::Unequal => Step::Taken(ItemReader::Sum(name, Relation::Differs)),
        Symbol::AtMost => Step::Taken(ItemReader::Bound(name, Bound::AtMost)),
        Symbol::AtLeast => Step::Taken(ItemReader::Bound(name, Bound::AtLeast)),
        Symbol::Name => behind_pointer(name, token),
        _ => Step::Stuck,
    }
}

// A name after a name: the first one is the kind `ptr`.
fn behind_pointer<'t>(name: &'t Token, token: &'t Token) -> ItemStep<'t>
    requires { symbol_of token.now ≡ Symbol.Name }
    ensures { ItemStepIs (ItemReader.Name name.entry) token.now result }
{
    if name.text.as_slice() == b"ptr".as_slice() {
        Step::Taken(ItemReader::Fixed(Kind::Ptr, token))
    } else {
        Step::Stuck
    }
}

fn behind_fixed<'t>(kind: Kind, name: &'t Token, token: &Token, symbol: Symbol) -> ItemStep<'t>
    requires { symbol ≡ symbol_of token.now }
    ensures { ItemStepIs (ItemReader.Fixed kind name.entry) token.now result }
{
    let _now = token;
    match symbol {
        Symbol::Equal => Step::Taken(ItemReader::Sum(name, Relation::Fixes(kind))),
        _ => Step::Stuck,
    }
}

fn before_argument<'t>(
    alloc: Global,
    pred: &'t Token,
    mut args: Items<Name>,
    token: &Token,
    symbol: Symbol,
) -> Result<ItemStep<'t>, AllocError>
    requires { symbol ≡ symbol_of token.now }
    ensures { IfOk result (λ step. ItemStepIs (ItemReader.Argument pred.entry args) token.now step) }
{
    match symbol {
        Symbol::Name => {
            args.push(name_at(alloc, token)?)?;
            Ok(Step::Taken(ItemReader::Arguments(pred, args)))
        }
        _ => Ok(Step::Stuck),
    }
}

fn behind_argument<'t>(
    pred: &'t Token,
    args: Items<Name>,
    token: &Token,
    symbol: Symbol,
) -> ItemStep<'t>
    requires { symbol ≡ symbol_of token.now }
    ensures { ItemStepIs (ItemReader.Arguments pred.entry args) token.now result }
{
    let _now = token;
    match symbol {
        Symbol::Comma => Step::Taken(ItemReader::Argument(pred, args)),
        Symbol::Close => Step::Taken(ItemReader::Whole(WholeItem::Call(pred, args))),
        _ => Step::Stuck,
    }
}

fn before_sum<'t>(
    name: &'t Token,
    relation: Relation,
    token: &'t Token,
    symbol: Symbol,
) -> ItemStep<'t>
    requires { symbol ≡ symbol_of token.now }
    ensures { ItemStepIs (ItemReader.Sum name.entry relation) token.now result }
{
    match symbol {
        Symbol::Minus => Step::Taken(ItemReader::Negative(name, relation, token.place)),
        Symbol::Name => Step::Taken(ItemReader::Base(name, relation, token)),
        _ => unsigned(name, relation, token, symbol),
    }
}

fn unsigned<'t>(name: &'t Token, relation: Relation, token: &Token, symbol: Symbol) -> ItemStep<'t>
    requires now { symbol ≡ symbol_of token.now }
    requires no_minus { symbol ≡ Symbol.Minus → ⊥ }
    requires no_name { symbol ≡ Symbol.Name → ⊥ }
    ensures { ItemStepIs (ItemReader.Sum name.entry relation) token.now result }
{
    let _known = symbol;
    match number(token) {
        Some(value) => {
            let number = Number {
                minus: false,
                value,
                place: token.place,
            };
            Step::Taken(ItemReader::Whole(WholeItem::Number(name, relation, number)))
        }
        None => Step::Stuck,
    }
}

fn behind_minus<'t>(
    name: &'t Token,
    relation: Relation,
    place: Place,
    token: &Token,
) -> ItemStep<'t>
    ensures { ItemStepIs (ItemReader.Negative name.entry relation place) token.now result }
{
    match number(token) {
        Some(value) => {
            let number = Number {
                minus: true,
                value,
                place,
            };
            Step::Taken(ItemReader::Whole(WholeItem::Number(name, relation, number)))
        }
        None => Step::Stuck,
    }
}

fn behind_base<'t>(
    name: &'t Token,
    relation: Relation,
    base: &'t Token,
    token: &Token,
    symbol: Symbol,
) -> ItemStep<'t>
    requires { symbol ≡ symbol_of token.now }
    ensures { ItemStepIs (ItemReader.Base name.entry relation base.entry) token.now result }
{
    let _now = token;
    match symbol {
        Symbol::Plus => Step::Taken(ItemReader::Offset(name, relation, base, false)),
        Symbol::Minus => Step::Taken(ItemReader::Offset(name, relation, base, true)),
        Symbol::Semicolon => Step::Closed(WholeItem::Name(name, relation, base)),
        _ => Step::Stuck,
    }
}

fn before_offset<'t>(
    name: &'t Token,
    relation: Relation,
    base: &'t Token,
    minus: bool,
    token: &Token,
) -> ItemStep<'t>
    ensures { ItemStepIs (ItemReader.Offset name.entry relation base.entry minus) token.now result }
{
    match number(token) {
        Some(value) => {
            let offset = Number {
                minus,
                value,
                place: token.place,
            };
            Step::Taken(ItemReader::Whole(WholeItem::Moved(name, relation, base, offset)))
        }
        None => Step::Stuck,
    }
}

fn before_bound<'t>(name: &'t Token, bound: Bound, token: &Token, symbol: Symbol) -> ItemStep<'t>
    requires { symbol ≡ symbol_of token.now }
    ensures { ItemStepIs (ItemReader.Bound name.entry bound) token.now result }
{
    match symbol {
        Symbol::Minus => Step::Taken(ItemReader::NegativeBound(name, bound, token.place)),
        _ => unsigned_bound(name, bound, token, symbol),
    }
}

fn unsigned_bound<'t>(name: &'t Token, bound: Bound, token: &Token, symbol: Symbol) -> ItemStep<'t>
    requires now { symbol ≡ symbol_of token.now }
    requires no_minus { symbol ≡ Symbol.Minus → ⊥ }
    ensures { ItemStepIs (ItemReader.Bound name.entry bound) token.now result }
{
    let _known = symbol;
    match number(token) {
        Some(value) => {
            let limit = Number {
                minus: false,
                value,
                place: token.place,
            };
            Step::Taken(ItemReader::Whole(WholeItem::Bound(name, bound, limit)))
        }
        None => Step::Stuck,
    }
}

fn behind_bound_minus<'t>(
    name: &'t Token,
    bound: Bound,
    place: Place,
    token: &Token,
) -> ItemStep<'t>
    ensures { ItemStepIs (ItemReader.NegativeBound name.entry bound place) token.now result }
{
    match number(token) {
        Some(value) => {
            let limit = Number {
                minus: true,
                value,
                place,
            };
            Step::Taken(ItemReader::Whole(WholeItem::Bound(name, bound, limit)))
        }
        None => Step::Stuck,
    }
}

fn before_stop<'t>(item: WholeItem<'t>, token: &Token, symbol: Symbol) -> ItemStep<'t>
    requires { symbol ≡ symbol_of token.now }
    ensures { ItemStepIs (ItemReader.Whole item.entry) token.now result }
{
    let _now = token;
    match symbol {
        Symbol::Semicolon => Step::Closed(item),
        _ => Step::Stuck,
    }
}
