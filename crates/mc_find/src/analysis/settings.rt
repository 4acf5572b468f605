// What a search for a certificate goes by.
ghost use Rattle.std.specs.Prelude.{◌≡◌};

use crate::Limits;

/// How a flow graph is analysed.
#[derive(Clone, Copy, Debug, PartialEq, Eq)]
pub struct Settings {
    /// How many states a cut has at most, about.
    pub states: usize,
    /// How often at most is walked from each state of a cut: once when it is new, and again where it has changed.
    pub rounds: u64,
    /// Whether the states of branches are merged where an `if` ends.
    pub merge: bool,
}

impl Settings {
    /// The limits of an attempt.
    pub fn limits(self) -> Limits
        ensures { result.merge ≡ self.merge }
    {
        Limits {
            keys: self.states,
            rounds: self.rounds,
            merge: self.merge,
        }
    }
}
