// What comes of an instruction.
use mc_base::PointId;
use mc_state::Goal;
use mc_symbolic::changes::State;

/// A branch that comes of an instruction: where it goes on, what is known there, and what it has to show where it is a
/// side branch.
#[derive(Drop)]
pub struct Next {
    pub point: PointId,
    pub goal: Option<Goal>,
    pub state: State,
}

/// The successors of an instruction.
#[derive(Drop)]
pub enum Stepped {
    /// The branch ends.
    Ended,
    /// The branch goes on.
    Moved(Next),
    /// There are two branches, in this order.
    Branched(Next, Next),
}

/// Why there is no step.
#[derive(Drop)]
pub enum Refused {
    /// The premise of this number is the first that the state does not meet, which is as it was.
    Premise(u8, State),
    NoMemory,
}
