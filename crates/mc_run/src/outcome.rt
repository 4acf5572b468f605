// What runs and their steps come to.
use mc_base::FaultKind;
use mc_base::text::Place;
use mc_run_values::values::Refusal;

/// How a run comes to its end.
#[derive(Clone, Copy, Debug, PartialEq, Eq)]
pub enum End {
    Ended,
    /// An assumption does not hold.
    Stopped,
    Fault(FaultKind, Place),
}

/// What a step comes to.
#[derive(Clone, Copy, Debug, PartialEq, Eq)]
pub enum Stepped {
    Goes,
    Ends(End),
    /// It asks for a choice that the script does not give.
    Unanswered(Refusal),
    /// There is no step: a `break` without a loop, or a call of a function that is not there.
    Stuck,
}

/// What a run comes to.
#[derive(Clone, Copy, Debug, PartialEq, Eq)]
pub enum Outcome {
    Ended,
    /// An assumption does not hold.
    Stopped,
    Fault(FaultKind, Place),
    /// As many steps were made as there was fuel, and the run goes on.
    FuelSpent,
    /// The choice of this number is asked for, from 1, and the script has no line for it.
    Short(u64),
    /// The choice of this number is asked for, and the script's line is none that is allowed.
    Bad(u64),
    /// No step is possible, which is so in no program that is well typed.
    Stuck,
}
