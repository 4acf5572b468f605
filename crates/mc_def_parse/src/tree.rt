// Definition files as they are written, with the places of what can be wrong.
use mc_base::text::Place;
use mc_base::{Items, Kind};
use mc_c_syntax::ast::Name;

/// A number with its sign. It stands at its first token; what is added to a name stands at its digits.
#[derive(Clone, Copy, Debug, PartialEq, Eq)]
pub struct Number {
    pub minus: bool,
    pub value: u32,
    pub place: Place,
}

/// What a name is compared with: a number, a name, or a name and what is added to it.
#[derive(Drop)]
pub enum Sum {
    Number(Number),
    Name(Name),
    Moved(Name, Number),
}

/// What is said of a name and a sum.
#[derive(Clone, Copy, Debug, PartialEq, Eq)]
pub enum Relation {
    /// `int x = ..` or `ptr x = ..`
    Fixes(Kind),
    Equals,
    Differs,
}

#[derive(Clone, Copy, Debug, PartialEq, Eq)]
pub enum Bound {
    AtMost,
    AtLeast,
}

/// A part of a rule: `P(x, y)`, `x = 1`, `x <= 1`.
#[derive(Drop)]
pub enum Item {
    Call(Name, Items<Name>),
    Relates(Name, Relation, Sum),
    Bounds(Name, Bound, Number),
}

/// A field of a block and the name of what it holds.
#[derive(Drop)]
pub struct Content {
    pub field: Name,
    pub name: Name,
}

/// A block, with the place of its `}`.
#[derive(Drop)]
pub struct Block {
    pub shape: Name,
    pub contents: Items<Content>,
    pub end: Place,
}

#[derive(Drop)]
pub struct RuleText {
    pub block: Option<Block>,
    pub items: Items<Item>,
}

#[derive(Drop)]
pub struct Parameter {
    pub kind: Kind,
    pub name: Name,
}

/// The name of a definition and its parameters after `this`.
#[derive(Drop)]
pub struct Head {
    pub name: Name,
    pub params: Items<Parameter>,
}

#[derive(Drop)]
pub struct DefText {
    pub head: Head,
    pub rules: Items<RuleText>,
}
