// What comes of following a program.
use mc_lines::cert::Line;

/// A chain of one pass, with the text of its report.
#[derive(Drop)]
pub struct Document {
    pub lines: Vec<Line>,
    pub text: Vec<u8>,
    /// How many branches are stuck.
    pub count: u64,
}

/// What comes of following a program.
#[derive(Drop)]
pub enum Outcome {
    /// All branches are followed to their ends.
    Whole(Document),
    /// More branches have ended than may be followed: the lines up to the one that ended the 65,537th.
    Paths(Vec<Line>),
}
