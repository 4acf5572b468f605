// Folds that were found.
use mc_base::{EdgeId, NodeId, PredId};
use mc_cover::Mark;
use mc_state::Term;

/// A fold that was found: a cover of a predicate, or of a segment of it, or two segments that meet.
#[derive(Drop)]
pub enum Found {
    Cover {
        pred: PredId,
        at: NodeId,
        args: Vec<Term>,
        to_stop: bool,
        marks: Vec<Mark>,
    },
    Meet(EdgeId, EdgeId),
}
