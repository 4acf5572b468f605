// States that meet the premises of the laws, and rules for which the laws fail.
ghost use Rattle.std.specs.Prelude.{◌≡◌, Some, None, Err, [], ◌∷◌};
ghost use Rattle.mc_flow.specs.Heap.Heap.{IsAtAddresses};
ghost use Rattle.mc_flow.specs.Defs.Examples.{defs, structs, blocks, two_cells, first_cell};
ghost use Rattle.mc_state.specs.Known.{Test, Tells};
ghost use Rattle.mc_pure.specs.Examples.{node};
ghost use Rattle.mc_state.specs.CoverExamples.{at_seven};
ghost use Rattle.mc_state.specs.Fits.{IsWellMade};
ghost use Rattle.mc_state.specs.Stands.{StandsBy};
ghost use Rattle.mc_rules_logic.specs.Unfold.Unfolded.{UnfoldsInd, UnfoldsSeg};
ghost use Rattle.mc_rules_logic.specs.Unfold.Examples.{edge, one_list, no_cell, cell_then_list, one_segment, no_segment, cell_then_segment, first_two};
ghost use Rattle.mc_rules_logic.specs.Unfold.Judges.{unfolding_ind, unfolding_seg};
ghost use Rattle.mc_rules_logic.specs.Unfold.PremiseExamples.{false_list, false_segment};
ghost use Rattle.mc_rules_logic.specs.Unfold.WrongRules.{IsSoundRule, NeverEmpty, FirstCallOnly};

use mc_flow::defs::{
    example_predicates, example_premises, example_segments, predicates_are_bodies,
};
use mc_flow::heap::{heaps_change_one_address, parts_regroup};
use mc_state::{body_premises, derived_is_true};

/// A list at the accessed node is null, or a cell with a list after it.
pub fn example_of_ind()
    ensures made { IsWellMade defs [] structs one_list }
    ensures unfolds { UnfoldsInd defs (Some (node 1)) (edge 0) one_list (no_cell ∷ cell_then_list ∷ []) }
    ensures stands { StandsBy defs at_seven [] (blocks two_cells) one_list }
{
    parts_regroup();
    example_predicates();
    body_premises();
    derived_is_true();
}

/// A segment that begins at the accessed node is empty, or a cell with a segment after it.
pub fn example_of_seg()
    ensures made { IsWellMade defs [] structs one_segment }
    ensures unfolds { UnfoldsSeg defs (Some (node 1)) (edge 0) one_segment (no_segment ∷ cell_then_segment ∷ []) }
    ensures addresses { IsAtAddresses (blocks first_cell) }
    ensures stands { StandsBy defs (first_two 7 9) [] (blocks first_cell) one_segment }
{
    parts_regroup();
    example_segments();
    example_premises();
    body_premises();
    derived_is_true();
}

/// A segment may be empty, and may go on in any of a rule's calls.
pub fn wrong_segments()
    ensures never_empty { ¬ IsSoundRule NeverEmpty }
    ensures first_call_only { ¬ IsSoundRule FirstCallOnly }
{
    parts_regroup();
    heaps_change_one_address();
    predicates_are_bodies();
    example_segments();
    example_premises();
    body_premises();
    derived_is_true();
}

/// Of a false state premise 2 is unmet; of an edge that is not there, or is of another form, premise 3;
/// of an edge that starts neither at null nor at the accessed node premise 4.
pub fn first_unmet()
    ensures ind_false { (know : Test) → Tells know false_list → unfolding_ind know defs (Some (node 1)) (edge 0) false_list ≡ Err 2 }
    ensures ind_absent { (know : Test) → Tells know one_list → unfolding_ind know defs (Some (node 1)) (edge 1) one_list ≡ Err 3 }
    ensures ind_of_seg { (know : Test) → Tells know one_segment → unfolding_ind know defs (Some (node 1)) (edge 0) one_segment ≡ Err 3 }
    ensures ind_not_accessed { (know : Test) → Tells know one_list → unfolding_ind know defs None (edge 0) one_list ≡ Err 4 }
    ensures seg_false { (know : Test) → Tells know false_segment → unfolding_seg know defs (Some (node 1)) (edge 0) false_segment ≡ Err 2 }
    ensures seg_of_ind { (know : Test) → Tells know one_list → unfolding_seg know defs (Some (node 1)) (edge 0) one_list ≡ Err 3 }
    ensures seg_elsewhere { (know : Test) → Tells know one_segment → unfolding_seg know defs (Some (node 2)) (edge 0) one_segment ≡ Err 4 }
{
    example_of_ind();
    example_of_seg();
    body_premises();
    derived_is_true();
}
