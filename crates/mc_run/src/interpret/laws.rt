// Laws of what programs come to.
ghost use Rattle.mc_run.specs.Interpret.Faults.{FaultsAreAnswered, FaultsAreOne};

use mc_semantics::steps_are_determined;
use mc_semantics::waiting::{programs_come_to_one_end, programs_step_end_or_wait};

/// Where the run of a program whose choices are answers of malloc faults within the fuel, `interpret` answers that fault
/// for a script whose lines mean these answers.
pub fn faults_are_answered()
    ensures { FaultsAreAnswered }
{
    steps_are_determined();
    programs_come_to_one_end();
    programs_step_end_or_wait();
}

/// Where a well typed program comes to a fault with a script, it comes to nothing else with it, with as much fuel or more.
pub fn faults_are_one()
    ensures { FaultsAreOne }
{
    steps_are_determined();
    programs_come_to_one_end();
    programs_step_end_or_wait();
}
