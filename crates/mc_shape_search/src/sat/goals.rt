// What is to be met on a heap, and how it is met.
use mc_base::{Args, PredId};

/// A predicate at a value with arguments.
#[derive(Drop)]
pub struct Goal {
    pub pred: PredId,
    pub at: i64,
    pub args: Args<i64>,
}

/// By the rule of the predicate at a place, with the block at an address where the rule has one.
#[derive(Clone, Copy)]
pub struct Mark {
    pub rule: usize,
    pub block: Option<u64>,
}
