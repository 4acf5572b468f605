// What holds of the steps of joins. Each law is what a function with no body ensures.
ghost use Rattle.mc_joins.specs.Laws.{StuckIsEvery, JoinsAreDetermined, JoinsAreSound, JoinsAreThere};
ghost use Rattle.mc_joins.specs.Laws.{JoinsMakeWell, JoinsNameAll, MadeAreTold, StepsAreDetermined, StepsKeepMade, PrefixesAreDetermined};

use crate::same::derived_is_renamed;
use mc_cover::firsts_are_covers;
use mc_flow::heap::parts_regroup;
use mc_rules_logic::fold::{naming_is_judged, naming_is_sound, naming_makes_well};
use mc_state::{
    covers_are_sound, derived_is_true, new_nodes_are_free, nodes_are_there, picks_are_named,
    tests_tell,
};

/// A join is stuck exactly where there is a next pair and no step at all applies there.
pub fn stuck_is_every()
    ensures { StuckIsEvery }
{}

/// There are tests that tell what is entailed in well-made states: so what is said of all such tests is never empty.
pub fn made_are_told()
    ensures { MadeAreTold }
{
    mc_pure::each_is_decided();
    mc_rules_logic::listed::lists_are_there();
}

/// A step of a join of well-made states gives one join at most, whatever tells what is entailed in states, and leaves
/// both states well made; so with lists of steps.
pub fn steps_are_determined()
    ensures step { StepsAreDetermined }
    ensures made { StepsKeepMade }
    ensures steps { PrefixesAreDetermined }
{
    naming_is_judged();
    naming_makes_well();
}

/// A whole join of two states by the same steps gives one state.
pub fn joins_are_determined()
    ensures { JoinsAreDetermined }
{
    mc_pure::derived_grows();
}

/// Steps that come to the end of a join of two well-made states that are not false are a whole join: whatever the pass and
/// the thresholds, there are atoms of what it gives.
pub fn joins_are_there()
    ensures { JoinsAreThere }
{
    mc_pure::normal_forms_say_all();
    mc_pure::derived_grows();
    mc_pure::each_is_decided();
    naming_is_judged();
    naming_makes_well();
    nodes_are_there();
    tests_tell();
    derived_is_renamed();
}

/// What a whole join of well-made states gives is well made.
pub fn joins_make_well()
    ensures { JoinsMakeWell }
{
    naming_is_judged();
    naming_makes_well();
    nodes_are_there();
    tests_tell();
}

/// Each node of what a whole join of well-made states gives stands in a variable or in an edge, but for node 0.
pub fn joins_name_all()
    ensures { JoinsNameAll }
{
    naming_is_judged();
    naming_makes_well();
    nodes_are_there();
    tests_tell();
}

/// What stands for either of two well-made states stands for what a whole join of them gives.
pub fn joins_are_sound()
    ensures { JoinsAreSound }
{
    parts_regroup();
    naming_is_judged();
    naming_makes_well();
    naming_is_sound();
    nodes_are_there();
    new_nodes_are_free();
    derived_is_true();
    covers_are_sound();
    tests_tell();
    picks_are_named();
    firsts_are_covers();
    mc_pure::derived_is_true();
}
