// What holds of the alarms of programs without loops.
ghost use Rattle.mc_real.specs.Real.{ClosedAlarmsAreReal, ExactAlarmsAreReached, ExactAlarmsAreReal};

use crate::near::flow_faults_are_near;
use mc_exact::{alarms_are_real, tracks_stay_exact};
use mc_lower_laws::closed::closed_programs_ask_for_malloc_alone;
use mc_run::interpret::faults_are_answered;

/// Where something other than a shape is lacking on an exact branch of a program without loops, the program's run with the
/// branch's answers of malloc has a fault there, within 20,000 steps.
pub fn exact_alarms_are_reached()
    ensures { ExactAlarmsAreReached }
{
    alarms_are_real();
    flow_faults_are_near();
}

/// And so the program comes to a fault there with each script of these answers, given 20,000 units of fuel.
pub fn exact_alarms_are_real()
    ensures { ExactAlarmsAreReal }
{
    exact_alarms_are_reached();
    faults_are_answered();
}

/// Where an exact branch of a closed program is stuck, the program comes to a fault there with each script of the branch's
/// answers of malloc, given 20,000 units of fuel.
pub fn closed_alarms_are_real()
    ensures { ClosedAlarmsAreReal }
{
    tracks_stay_exact();
    closed_programs_ask_for_malloc_alone();
    exact_alarms_are_real();
}
