// The states of exact branches.
ghost use Rattle.mc_exact.specs.Made.{ExactStatesAreWellMade};

use mc_rules_steps::{least_ranges_are_known, steps_are_well_made};
use mc_state::numbers_stay_bounded;

/// The state of each exact branch is well made.
pub fn exact_states_are_well_made()
    ensures { ExactStatesAreWellMade }
{
    steps_are_well_made();
    least_ranges_are_known();
    numbers_stay_bounded();
}
