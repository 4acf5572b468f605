// What holds of the rules that fold, name, merge and drop. Each law is what a function with no body ensures.
ghost use Rattle.mc_rules_logic.specs.Fold.Laws.{LawOfFoldInd, LawOfFoldSeg, LawOfCloseSeg, LawOfJoinSegs, LawOfEmptySeg};
ghost use Rattle.mc_rules_logic.specs.Fold.Laws.{LawOfSpare, LawOfMerge, LawOfDrop, LawOfForget, LawOfGoal, FoldIndIsDetermined};
ghost use Rattle.mc_rules_logic.specs.Fold.Laws.{FoldSegIsDetermined, CloseSegIsDetermined, JoinSegsIsDetermined};
ghost use Rattle.mc_rules_logic.specs.Fold.Laws.{EmptySegIsDetermined, SpareIsDetermined, MergeIsDetermined, DropIsDetermined};
ghost use Rattle.mc_rules_logic.specs.Fold.Laws.{ForgetIsDetermined};

use mc_flow::defs::{predicates_are_bodies, segments_are_bodies, segments_join};
use mc_flow::heap::parts_regroup;
use mc_state::{
    derived_is_true, edges_come_and_go, less_is_known, merging_is_sound, new_nodes_are_free,
    nodes_are_there, numbers_stay_bounded,
};

/// A block and calls that match a rule are its predicate, and without one of its own calls a segment
/// to that call.
pub fn folding_is_sound()
    ensures ind { LawOfFoldInd }
    ensures seg { LawOfFoldSeg }
{
    parts_regroup();
    predicates_are_bodies();
    segments_are_bodies();
    segments_join();
    derived_is_true();
    edges_come_and_go();
    numbers_stay_bounded();
    nodes_are_there();
}

/// A segment and its predicate at its end are the predicate, and with another segment there they are
/// one segment; from a node to an equal one there is an empty segment.
pub fn segments_are_closed()
    ensures close { LawOfCloseSeg }
    ensures join { LawOfJoinSegs }
    ensures empty { LawOfEmptySeg }
{
    parts_regroup();
    predicates_are_bodies();
    segments_are_bodies();
    segments_join();
    derived_is_true();
    edges_come_and_go();
    numbers_stay_bounded();
    nodes_are_there();
}

/// A number gets a node, one of two equal nodes stands for both, an edge that nothing reaches is
/// dropped, and a node that nothing names is forgotten.
pub fn naming_is_sound()
    ensures spare { LawOfSpare }
    ensures merge { LawOfMerge }
    ensures drop_edge { LawOfDrop }
    ensures forget { LawOfForget }
{
    derived_is_true();
    new_nodes_are_free();
    edges_come_and_go();
    less_is_known();
    merging_is_sound();
    numbers_stay_bounded();
    nodes_are_there();
}

/// Where an edge meets the goal of a side branch, the goal holds.
pub fn goals_are_met()
    ensures { LawOfGoal }
{
    parts_regroup();
    derived_is_true();
    edges_come_and_go();
}

/// Folding gives one list of successors at most.
pub fn folding_is_determined()
    ensures ind { FoldIndIsDetermined }
    ensures seg { FoldSegIsDetermined }
    ensures close { CloseSegIsDetermined }
    ensures join { JoinSegsIsDetermined }
    ensures empty { EmptySegIsDetermined }
{}

/// Naming, merging, dropping and forgetting give one list of successors at most.
pub fn naming_is_determined()
    ensures spare { SpareIsDetermined }
    ensures merge { MergeIsDetermined }
    ensures drop_edge { DropIsDetermined }
    ensures forget { ForgetIsDetermined }
{}
