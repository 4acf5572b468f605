// What programs come to.
ghost use Rattle.std.specs.Prelude.{◌≡◌, ◌≢◌};
ghost use Rattle.mc_run.specs.Interpret.Programs.{outcome_of};
ghost use Rattle.mc_run.specs.declared.outcome.Outcome.TheVariants.{Stuck};

use crate::Outcome;
use mc_base::FaultKind;
use mc_base::text::Place;

/// What the run of a program comes to.
#[derive(Clone, Copy, Debug, PartialEq, Eq)]
pub enum Ending {
    Ended,
    /// An assumption does not hold.
    Stopped,
    Fault(FaultKind, Place),
    /// As many steps were made as there was fuel, and the run goes on.
    FuelSpent,
    /// The choice of this number is asked for, from 1, and the script has no line for it.
    Short(u64),
    /// The choice of this number is asked for, and the script's line is none that is allowed.
    Bad(u64),
}

/// What a run comes to that is not stuck.
pub fn ending_of(outcome: Outcome) -> Ending
    requires { outcome ≢ Stuck }
    ensures { outcome_of result ≡ outcome }
{
    match outcome {
        Outcome::Ended => Ending::Ended,
        Outcome::Stopped => Ending::Stopped,
        Outcome::Fault(kind, place) => Ending::Fault(kind, place),
        Outcome::FuelSpent => Ending::FuelSpent,
        Outcome::Short(number) => Ending::Short(number),
        Outcome::Bad(number) => Ending::Bad(number),
        Outcome::Stuck => unreachable!(),
    }
}
