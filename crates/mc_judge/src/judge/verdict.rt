// What is said of a document.
use mc_lines::cert::LineFault;

/// Why a document is refused. Lines are numbered from 1.
#[derive(Clone, Copy, Debug, PartialEq, Eq)]
pub enum Refusal {
    /// The line of this number is no line of a document, for this cause, which is never want of memory.
    Line(u64, LineFault),
    /// The line of this number and name is no instance: the premise of this number is the first that is unmet.
    Rule(u64, &'static str, u8),
    /// The line of this number stands after the end line.
    AfterEnd(u64),
    /// There is no end line.
    EndsEarly,
    /// The last pass of a chain changes nothing, and no instruction is stuck in it.
    NoAlarm,
    /// The last pass of a chain changes the states of its cuts.
    Unfinished,
}

/// The verdict on a document.
#[derive(Clone, Copy, Debug, PartialEq, Eq)]
pub enum Verdict {
    /// It is a valid certificate.
    Safe,
    /// It is a final chain in which so many instructions are stuck.
    Alarms(u64),
    Refused(Refusal),
}
