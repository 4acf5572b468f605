// What a search for alarms proposes.
use mc_follow::report::ChainReport;
use mc_lines::cert::Line;

/// What a search for alarms proposes, as it may be found.
#[derive(Drop)]
pub enum Proposed {
    /// The lines of a certificate.
    Certificate(Vec<Line>),
    /// The lines of a chain of one pass with stuck branches, and its report.
    Chain(Vec<Line>, ChainReport),
}
