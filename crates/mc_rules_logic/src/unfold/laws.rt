// What holds of the rules that unfold. Each law is what a function with no body ensures.
ghost use Rattle.mc_rules_logic.specs.Unfold.JudgedLaws.{IndIsJudged, SegIsJudged};
ghost use Rattle.mc_rules_logic.specs.Unfold.Laws.{LawOfInd, LawOfSeg, IndIsDetermined, SegIsDetermined};
ghost use Rattle.mc_rules_logic.specs.Unfold.RuleLaws.{RuleAtomsAreTrue, EqualAtomsAreTrue, NameIsThere, BodyIsThere, RuleAtomsAreThere, EqualAtomsAreThere};
ghost use Rattle.mc_rules_logic.specs.Unfold.RuleLaws.{OwnPlaceIsListed, OwnPlacesAreOwn, RuleOfFitting};
ghost use Rattle.mc_rules_logic.specs.Unfold.WellMade.{NodesKeepWellMade, EdgesKeepWellMade, AtomsKeepWellMade, FewerKeepWellMade, EdgeOfFitting};
ghost use Rattle.mc_rules_logic.specs.Unfold.WellMade.{EqualsAreFormed, RulesAreMade, EmptiedIsWellMade, IndMakesWellMade, SegMakesWellMade};

use mc_flow::defs::{predicates_are_bodies, segments_are_bodies};
use mc_flow::heap::parts_regroup;
use mc_state::{
    bodies_are_edges, edges_come_and_go, new_nodes_are_free, nodes_are_there, numbers_stay_bounded,
};

/// Whatever stands for a state stands for one of the successors that unfolding an edge gives, and
/// their numbers are in their bounds.
pub fn unfolding_is_sound()
    ensures ind { LawOfInd }
    ensures seg { LawOfSeg }
{
    parts_regroup();
    predicates_are_bodies();
    segments_are_bodies();
    bodies_are_edges();
    new_nodes_are_free();
    edges_come_and_go();
    numbers_stay_bounded();
    nodes_are_there();
}

/// Unfolding an edge gives one list of successors at most.
pub fn unfolding_is_determined()
    ensures ind { IndIsDetermined }
    ensures seg { SegIsDetermined }
{}

/// Unfolding an edge is judged as its instances say.
pub fn unfolding_is_judged()
    ensures ind { IndIsJudged }
    ensures seg { SegIsJudged }
{}

/// States stay well made where they get nodes, edges and atoms that fit, and where they lose an edge.
pub fn states_stay_well_made()
    ensures nodes { NodesKeepWellMade }
    ensures edges { EdgesKeepWellMade }
    ensures atoms { AtomsKeepWellMade }
    ensures fewer_edges { FewerKeepWellMade }
    ensures edge { EdgeOfFitting }
{
    numbers_stay_bounded();
    nodes_are_there();
}

/// What a rule of definitions that fit puts into a state fits at nodes of its names' kinds.
pub fn rules_are_made()
    ensures fits { RuleOfFitting }
    ensures rules { RulesAreMade }
    ensures equal { EqualsAreFormed }
{}

/// At the nodes of its names a rule's atoms are true and its edges and atoms are there, where its values and nodes are.
pub fn rules_stand_at_nodes()
    ensures atoms { RuleAtomsAreTrue }
    ensures equal { EqualAtomsAreTrue }
    ensures name_there { NameIsThere }
    ensures body_there { BodyIsThere }
    ensures atoms_there { RuleAtomsAreThere }
    ensures equal_there { EqualAtomsAreThere }
{}

/// The places that are listed are those of the calls of the predicate.
pub fn own_places_are_calls()
    ensures listed { OwnPlaceIsListed }
    ensures own { OwnPlacesAreOwn }
{}

/// What unfolding an edge makes is well made where the state before is.
pub fn unfolding_is_well_made()
    ensures emptied { EmptiedIsWellMade }
    ensures ind { IndMakesWellMade }
    ensures seg { SegMakesWellMade }
{
    states_stay_well_made();
    nodes_are_there();
}
