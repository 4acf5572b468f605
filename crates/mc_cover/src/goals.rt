// What is to be made of edges, and how it is made.
use mc_base::{EdgeId, Items, PredId};
use mc_state::Term;

/// A predicate at a term with arguments. Where there is a stop, a segment of it from there to the stop, a term with
/// arguments.
#[derive(Drop)]
pub struct Goal {
    pub pred: PredId,
    pub at: Term,
    pub args: Items<Term>,
    pub stop: Option<(Term, Items<Term>)>,
}

/// How a goal is met.
#[derive(Clone, Copy)]
pub enum Mark {
    /// The segment ends where it begins: nothing is taken.
    AtEnd,
    /// By this Ind.
    ByInd(EdgeId),
    /// By this Seg, and what is at its end.
    BySeg(EdgeId),
    /// By the rule of the predicate at a place, with this block where it has one.
    ByRule {
        place: usize,
        block: Option<EdgeId>,
    },
    /// By such a rule, whose call at a place goes on to the stop.
    ByCall {
        place: usize,
        block: Option<EdgeId>,
        call: usize,
    },
}
