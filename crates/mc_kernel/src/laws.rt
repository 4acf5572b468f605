// What holds of documents and of jumps. Each law is what a function with no body ensures.
ghost use Rattle.mc_kernel.specs.Certificates.{CertificateIsSafe, LastPassFindsFaults};
ghost use Rattle.mc_kernel.specs.JumpLaws.{JumpsAreSound};

use mc_flow::heap::heaps_change_one_address;
use mc_rules_logic::back::back_is_sound;
use mc_rules_logic::fold::{folding_is_sound, goals_are_met, naming_is_sound, segments_are_closed};
use mc_rules_logic::unfold::unfolding_is_sound;
use mc_rules_steps::{steps_are_sound, steps_stay_bounded};
use mc_state::{derived_is_true, edges_come_and_go, nothing_is_allocated, numbers_stay_bounded};

/// What stands for a state stands for one that it jumps to.
pub fn jumps_are_sound()
    ensures { JumpsAreSound }
{
    derived_is_true();
    edges_come_and_go();
    nothing_is_allocated();
}

/// A valid certificate means that no run has a fault.
pub fn certificates_are_safe()
    ensures { CertificateIsSafe }
{
    heaps_change_one_address();
    numbers_stay_bounded();
    nothing_is_allocated();
    derived_is_true();
    steps_are_sound();
    steps_stay_bounded();
    unfolding_is_sound();
    back_is_sound();
    folding_is_sound();
    segments_are_closed();
    naming_is_sound();
    goals_are_met();
    jumps_are_sound();
}

/// The last pass of a chain means that only runs that come to a stuck branch fault.
pub fn last_pass_finds_faults()
    ensures { LastPassFindsFaults }
{
    heaps_change_one_address();
    numbers_stay_bounded();
    nothing_is_allocated();
    derived_is_true();
    steps_are_sound();
    steps_stay_bounded();
    unfolding_is_sound();
    back_is_sound();
    folding_is_sound();
    segments_are_closed();
    naming_is_sound();
    goals_are_met();
    jumps_are_sound();
}
