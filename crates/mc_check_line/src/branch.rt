// Branches of documents, and what comes of lines at them.
use mc_base::PointId;
use mc_state::{Form, Goal};
use mc_symbolic::State;

/// A branch of a document: where it has come to, what is known there, what it has to show where it is a side branch,
/// whether an instruction's line stands on it, and whether it is closing.
#[derive(Drop)]
pub struct Branch {
    pub point: PointId,
    pub state: State,
    pub goal: Option<Goal>,
    pub moved: bool,
    pub closing: bool,
}

/// A state of a cut.
#[derive(Drop)]
pub struct Head {
    pub point: PointId,
    pub state: State,
}

/// What lines are judged by: the form of the document, its cuts, and the states of its cuts.
#[derive(Clone, Copy)]
pub struct Setting<'a> {
    pub form: Form,
    pub cuts: &'a [PointId],
    pub heads: &'a [Head],
}

/// The branches that come of a line, in order.
#[derive(Drop)]
pub enum Next {
    /// The branch ends.
    Ended,
    One(Branch),
    Two(Branch, Branch),
    /// As many as there are ways to unfold an edge.
    More(Vec<Branch>),
}

/// Why a line is refused.
#[derive(Drop)]
pub enum Refused {
    /// The premise of this number is the first that is unmet; the branch is as it was.
    Premise(u8, Branch),
    NoMemory,
}
