// A chain that is being written.
use crate::alarms::tracks::Tracks;
use mc_document::proof::Proof;
use mc_lines::cert::Line;
use std::alloc::Global;

/// A chain that is being written: its lines so far, as a document that is read, with the tracks of its open branches and the
/// lines of its alarms in the report.
#[derive(Drop)]
pub struct Walk<'f> {
    pub alloc: Global,
    pub proof: Proof<'f>,
    pub tracks: Tracks,
    pub lines: Vec<Line>,
    pub text: Vec<u8>,
    /// How many branches have ended.
    pub ended: u64,
}

/// How a walk goes on.
#[derive(Clone, Copy, Debug, PartialEq, Eq)]
pub enum Turn {
    /// It goes on.
    On,
    /// No branch is open.
    Whole,
}
