// What comes of what asks a script.
use mc_base::FaultKind;

/// Why a script does not answer.
#[derive(Clone, Copy, Debug, PartialEq, Eq)]
pub enum Refusal {
    /// No line is left.
    Missing,
    /// The next line means no choice.
    Unreadable,
    /// The next line's choice is not allowed there.
    NotAllowed,
}

/// What comes of an expression.
#[derive(Clone, Copy, Debug, PartialEq, Eq)]
pub enum Evaluated {
    /// A variable's value may be undefined.
    Value(Option<i64>),
    Fault(FaultKind),
    /// It asks for an input that the script does not give.
    Unanswered(Refusal),
}

/// What comes of a request for memory.
#[derive(Clone, Copy, Debug, PartialEq, Eq)]
pub enum Allocated {
    /// The address of the new block, or 0 for null.
    Address(u64),
    Unanswered(Refusal),
}

/// What comes of arguments, one after the other.
#[derive(Drop)]
pub enum Arguments {
    /// A variable's value may be undefined.
    Values(Vec<Option<i64>>),
    Fault(FaultKind),
    Unanswered(Refusal),
}
