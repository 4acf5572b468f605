// What holds of chains. Each law is what a function with no body ensures.
ghost use Rattle.mc_joins.specs.Chains.Laws.{FinalChainHasLastPass, FinalChainFindsFaults, OpeningIsJudged, JoiningIsJudged};
ghost use Rattle.mc_joins.specs.Chains.Laws.{AnewIsMade, JointIsThere};

use crate::same::{derived_is_renamed, numbering_is_sound};
use crate::{joins_are_determined, joins_make_well};
use mc_kernel::last_pass_finds_faults;
use mc_kernel::reading::lines_make_well_made;
use mc_rules_logic::fold::{naming_is_judged, naming_makes_well};
use mc_state::{nodes_are_there, numbers_stay_bounded, tests_tell};

/// The last pass of a final legal chain changes nothing, so its faults are found at its stuck branches.
pub fn final_chains_find_faults()
    ensures last { FinalChainHasLastPass }
    ensures faults { FinalChainFindsFaults }
{
    lines_make_well_made();
    numbers_stay_bounded();
    numbering_is_sound();
    joins_make_well();
    last_pass_finds_faults();
}

/// C2 and C3 give these states of cuts exactly where they are instances of their rules; so where one is none, one
/// premise is the first that is unmet.
pub fn changes_are_judged()
    ensures opening { OpeningIsJudged }
    ensures joining { JoiningIsJudged }
{
    tests_tell();
    joins_are_determined();
    numbering_is_sound();
    joins_make_well();
}

/// What C3 writes is there: a function of the pass and the join that gives atoms of every whole join of tidy states.
pub fn joint_atoms_are_there()
    ensures { JointIsThere }
{
    mc_pure::normal_forms_say_all();
    mc_pure::derived_grows();
    mc_pure::each_is_decided();
    naming_is_judged();
    naming_makes_well();
    nodes_are_there();
    tests_tell();
    derived_is_renamed();
}

/// A well-made state that is numbered anew is well made.
pub fn numbering_makes_well()
    ensures { AnewIsMade }
{
    numbering_is_sound();
}
