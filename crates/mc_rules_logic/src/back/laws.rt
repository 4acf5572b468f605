// What holds of the rule that unfolds a segment from its end. Each law is what a function with no body ensures.
ghost use Rattle.mc_rules_logic.specs.Back.Ends.{SegEnds};
ghost use Rattle.mc_rules_logic.specs.Back.Laws.{LawOfBack, BackIsDetermined, BackIsJudged, BackMakesWellMade};

use crate::unfold::{
    own_places_are_calls, rules_are_made, rules_stand_at_nodes, states_stay_well_made,
    unfolding_is_well_made,
};
use mc_flow::defs::segments_are_bodies;
use mc_flow::heap::parts_regroup;
use mc_state::{
    back_is_told, bodies_are_edges, edges_come_and_go, new_nodes_are_free, nodes_are_there,
    numbers_stay_bounded,
};

/// A segment is empty, or ends with the body of a rule of which one call is the segment's end.
pub fn segments_end_with_bodies()
    ensures { SegEnds }
{
    parts_regroup();
}

/// Whatever stands for a state stands for one of the successors that unfolding a segment from its end gives,
/// and their numbers are in their bounds.
pub fn back_is_sound()
    ensures { LawOfBack }
{
    parts_regroup();
    segments_are_bodies();
    segments_end_with_bodies();
    bodies_are_edges();
    new_nodes_are_free();
    edges_come_and_go();
    numbers_stay_bounded();
    nodes_are_there();
    rules_stand_at_nodes();
    own_places_are_calls();
}

/// Unfolding a segment from its end gives one list of successors at most.
pub fn back_is_determined()
    ensures { BackIsDetermined }
{}

/// Unfolding a segment from its end is judged as its instances say.
pub fn back_is_judged()
    ensures { BackIsJudged }
{
    back_is_told();
}

/// What unfolding a segment from its end makes is well made where the state before is.
pub fn back_is_well_made()
    ensures { BackMakesWellMade }
{
    nodes_are_there();
    states_stay_well_made();
    unfolding_is_well_made();
    rules_are_made();
    own_places_are_calls();
}
