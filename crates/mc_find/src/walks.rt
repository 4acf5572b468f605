//! Attempts to find a document: all branches are followed from the entry and from the states of cuts, which grow until
//! nothing changes any more.

mod arriving;
mod attempt;
mod blame;
mod certificate;
mod common;
mod crowding;
mod cuts;
mod distance;
mod exploring;
mod following;
mod graph;
mod hashing;
mod heads;
mod late;
mod losing;
mod matching;
mod nearness;
mod pairing;
mod plans;
mod reach;
mod reached;
mod rounds;
mod sides;
mod style;
mod tally;
mod walked;
mod walking;

pub use crate::matching::Step;
pub use attempt::Attempt;
pub use graph::Graph;
pub use style::{Aim, Limits, Rung, Style, Task, first_rung};
pub use walked::{Blocked, blocked_by_runs, count_missing};
