// What is left to make of a cover.
use mc_base::{EdgeId, PredId};
use mc_state::Term;

/// What is to be made: a predicate at a term with arguments, or, with a stop, a segment of it.
#[derive(Drop)]
pub struct Task {
    pub pred: PredId,
    pub at: Term,
    pub args: Vec<Term>,
    pub to_stop: bool,
}

/// What was made of a task.
#[derive(Clone, Copy)]
pub enum Made {
    /// An Ind, or a Seg.
    Edge(EdgeId),
    /// An empty segment, for which there is no edge.
    Nothing,
}

/// A rule of which some calls are made.
#[derive(Drop)]
pub struct Body {
    pub pred: PredId,
    pub rule: usize,
    pub block: Option<EdgeId>,
    /// The call that goes on to the stop.
    pub call: Option<usize>,
    pub names: Vec<Term>,
    pub calls: Vec<Made>,
}

/// What stands open while a cover is made.
#[derive(Drop)]
pub enum Frame {
    /// This segment, with what is made after it.
    Behind { seg: EdgeId, to_stop: bool },
    Rule(Body),
}
