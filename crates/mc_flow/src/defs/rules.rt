// Definitions as data. The names of a rule are numbered: `this` is 0, then come the parameters, the
// contents of the block's fields in the struct's order, and the fixed names as they are introduced.
use mc_base::{Args, Items, Kind, PredId, StructId};

/// A statement on the names of a rule. A base of None is zero.
#[derive(Clone, Copy, Debug, PartialEq, Eq)]
pub enum DefAtom {
    /// `left = base + add`. It may introduce its left name.
    Eq {
        left: u64,
        base: Option<u64>,
        add: i64,
        fixes: bool,
    },
    /// `left != base + add`.
    Ne {
        left: u64,
        base: Option<u64>,
        add: i64,
    },
    /// `lo <= left <= hi`.
    In {
        left: u64,
        lo: i64,
        hi: i64,
    },
}

/// A predicate that holds at a name, with names as its arguments.
#[derive(Drop)]
pub struct Call {
    pub pred: PredId,
    pub at: u64,
    pub args: Args<u64>,
}

/// One way in which a predicate holds.
#[derive(Drop)]
pub struct Rule {
    /// The struct of the block at `this`.
    pub block: Option<StructId>,
    /// The names that the block's fields hold, in the struct's order.
    pub contents: Items<u64>,
    /// The kind of each name.
    pub names: Items<Kind>,
    pub calls: Items<Call>,
    pub atoms: Items<DefAtom>,
}

/// A predicate: its name, the kinds of its parameters, and its rules.
#[derive(Drop)]
pub struct Def {
    pub name: Items<u8>,
    pub params: Items<Kind>,
    pub rules: Items<Rule>,
}
