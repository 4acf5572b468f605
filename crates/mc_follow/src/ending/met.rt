// How a predicate is made, goal by goal.
use mc_cover::{Goal, Mark};
use mc_state::Term;

/// A goal that is met by a mark, with the terms of the names of the mark's rule.
#[derive(Drop)]
pub struct Met {
    pub goal: Goal,
    pub mark: Mark,
    pub names: Vec<Term>,
}
