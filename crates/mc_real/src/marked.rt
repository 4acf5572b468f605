// What the answers of alarms are good for.
ghost use Rattle.mc_real.specs.Marked.{MarkedAlarmsAreReal};

use crate::laws::exact_alarms_are_reached;
use crate::scripts::malloc_scripts_are_taken;
use mc_exact::exact_states_are_well_made;
use mc_kernel::oracle::judges_are_there;
use mc_run::interpret::faults_are_answered;

/// Where an alarm carries answers of `malloc`, the program faults there with them, and with their script.
pub fn marked_alarms_are_real()
    ensures { MarkedAlarmsAreReal }
{
    exact_states_are_well_made();
    judges_are_there();
    exact_alarms_are_reached();
    malloc_scripts_are_taken();
    faults_are_answered();
}
