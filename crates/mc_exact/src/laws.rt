// What holds of exact branches. Each law is what a function with no body ensures.
ghost use Rattle.mc_exact.specs.Least.{LeastIsTrue, LeastSeparates};
ghost use Rattle.mc_exact.specs.Real.{AlarmsAreReal};
ghost use Rattle.mc_exact.specs.Marks.{ClosedAlarmsAreMarked, MarksAreExact};
ghost use Rattle.mc_exact.specs.Tracks.{LinesKeepExact, StuckLacks, StuckIsReal};

use mc_flow::heap::heaps_change_one_address;
use mc_kernel::oracle::judges_are_there;
use mc_rules_steps::{least_ranges_are_known, steps_are_well_made};
use mc_state::numbers_stay_bounded;

/// Where there was no input, what is known is true by the numbers of least nodes, and pointers of one number are
/// entailed equal.
pub fn least_valuations_are_true()
    ensures known { LeastIsTrue }
    ensures separate { LeastSeparates }
{}

/// What is lacking at an exact branch, no shape, is a fault of the run whose answers of malloc are the least nodes.
pub fn alarms_are_real()
    ensures { AlarmsAreReal }
{
    heaps_change_one_address();
    mc_pure::derived_is_true();
    steps_are_well_made();
    least_ranges_are_known();
    numbers_stay_bounded();
}

/// Where runs are given answers of malloc alone, every branch that comes of an exact one is exact; and where it is
/// stuck, a run faults.
pub fn tracks_stay_exact()
    ensures kept { LinesKeepExact }
    ensures lacking { StuckLacks }
    ensures real { StuckIsReal }
{
    alarms_are_real();
}

/// In a flow graph without loops, of at most 10,000 points, the alarms that carry answers of malloc are those of exact branches
/// that lack no shape.
pub fn marks_are_exact()
    ensures { MarksAreExact }
{
    heaps_change_one_address();
    mc_pure::derived_is_true();
    steps_are_well_made();
    least_ranges_are_known();
    numbers_stay_bounded();
    judges_are_there();
}

/// Where runs are given answers of malloc alone, every alarm carries them.
pub fn closed_alarms_are_marked()
    ensures { ClosedAlarmsAreMarked }
{}
