// A doubly linked segment that is unfolded from its end, and a rule for which the law fails.
ghost use Rattle.std.specs.Prelude.{◌≡◌, Some, None, Err, [], ◌∷◌};
ghost use Rattle.mc_flow.specs.Heap.Heap.{IsAtAddresses};
ghost use Rattle.mc_flow.specs.Defs.Conditions.{DefsFit};
ghost use Rattle.mc_flow.specs.Defs.Examples.{blocks};
ghost use Rattle.mc_state.specs.Known.{Test, Tells};
ghost use Rattle.mc_pure.specs.Examples.{node};
ghost use Rattle.mc_state.specs.Fits.{IsWellMade};
ghost use Rattle.mc_state.specs.Stands.{StandsBy};
ghost use Rattle.mc_rules_logic.specs.Unfold.WrongRules.{IsSoundRule};
ghost use Rattle.mc_rules_logic.specs.Back.Examples.{structs, dlls, edge, seven_and_nine, dll_segment, dll_emptied, segment_then_node};
ghost use Rattle.mc_rules_logic.specs.Back.Examples.{false_segment, dll_whole, same_segment};
ghost use Rattle.mc_rules_logic.specs.Back.Judges.{unfolding_back};
ghost use Rattle.mc_rules_logic.specs.Back.Unfolded.{UnfoldsBack};
ghost use Rattle.mc_rules_logic.specs.Back.WrongRules.{NeverEmpty};

use mc_flow::defs::example_premises;
use mc_flow::heap::{heaps_change_one_address, parts_regroup};
use mc_state::derived_is_true;

/// A segment whose last block is accessed is empty, or a segment to that block. The definitions fit, and the state is well made.
pub fn example_of_back()
    ensures fits { DefsFit structs dlls }
    ensures made { IsWellMade dlls [] structs dll_segment }
    ensures unfolds { UnfoldsBack dlls (Some (node 4)) (edge 0) dll_segment (dll_emptied ∷ segment_then_node ∷ []) }
    ensures addresses { IsAtAddresses (blocks []) }
    ensures stands { StandsBy dlls seven_and_nine [] (blocks []) dll_segment }
{
    parts_regroup();
    heaps_change_one_address();
    example_premises();
    derived_is_true();
}

/// A segment may be empty.
pub fn wrong_back()
    ensures never_empty { ¬ IsSoundRule NeverEmpty }
{
    parts_regroup();
    heaps_change_one_address();
    example_premises();
    derived_is_true();
}

/// Of a false state premise 2 is unmet; of an edge that is no segment premise 3; where nothing is accessed, another node
/// than the end argument, or the predicate has no back position, premise 4.
pub fn first_unmet()
    ensures of_false { (know : Test) → Tells know false_segment → unfolding_back know dlls (Some (node 4)) (edge 0) false_segment ≡ Err 2 }
    ensures of_whole { (know : Test) → Tells know dll_whole → unfolding_back know dlls (Some (node 2)) (edge 0) dll_whole ≡ Err 3 }
    ensures of_none { (know : Test) → Tells know dll_segment → unfolding_back know dlls None (edge 0) dll_segment ≡ Err 4 }
    ensures of_other { (know : Test) → Tells know dll_segment → unfolding_back know dlls (Some (node 3)) (edge 0) dll_segment ≡ Err 4 }
    ensures of_same { (know : Test) → Tells know same_segment → unfolding_back know dlls (Some (node 4)) (edge 0) same_segment ≡ Err 4 }
{
    parts_regroup();
    heaps_change_one_address();
    example_premises();
    derived_is_true();
}
