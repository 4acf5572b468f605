// Findings.

/// A document, and what is printed of it.
#[derive(Drop)]
pub struct Findings {
    pub document: Vec<u8>,
    pub report: Vec<u8>,
}

/// What is found of a flow graph.
#[derive(Drop)]
pub enum Analysis {
    /// A certificate: no run has a fault.
    Safe(Findings),
    /// A chain of one pass with so many stuck branches: every run that has a fault comes by one of them.
    Alarms(Findings, u64),
    /// The front of a chain of one pass, of which the last line ends the 65,537th branch.
    Paths(Vec<u8>),
    /// Nothing was found, of a flow graph with loops or of one whose states are merged.
    Unknown,
}
