// States that meet the premises of the laws, and some that are no instances of a rule.
ghost use Rattle.std.specs.Prelude.{pos, Some, None, List, [], ◌∷◌};
ghost use Rattle.mc_base.specs.declared.plain.Kind.TheVariants.{Int};
ghost use Rattle.mc_flow.specs.Heap.Heap.{IsAtAddresses};
ghost use Rattle.mc_flow.specs.Defs.Examples.{defs, list_id, lenlist_id, tree_id, blocks, two_cells, two_forks};
ghost use Rattle.mc_pure.specs.Examples.{node};
ghost use Rattle.mc_state.specs.CoverExamples.{cell_and_list, segment_and_list, cell_and_length, fork_and_tree};
ghost use Rattle.mc_state.specs.Fits.{IsBounded};
ghost use Rattle.mc_state.specs.Stands.{StandsBy};
ghost use Rattle.mc_state.specs.State.{State as Symbolic};
ghost use Rattle.mc_rules_logic.specs.Fold.Folded.{FoldsInd, FoldsSeg, ClosesSeg, JoinsSegs, MakesEmptySeg, ind_fold, seg_fold};
ghost use Rattle.mc_rules_logic.specs.Fold.Changed.{NamesSpare, MergesNodes, DropsEdge, ForgetsNode};
ghost use Rattle.mc_rules_logic.specs.Fold.Goals.{MeetsGoal};
ghost use Rattle.mc_rules_logic.specs.Fold.Examples.{edge, valued, cell_folded, cell_as_segment, length_folded, fork_as_segment};
ghost use Rattle.mc_rules_logic.specs.Fold.Examples.{segment_closed, two_segments, segments_joined, pointer, with_segment};
ghost use Rattle.mc_rules_logic.specs.Fold.Examples.{small_number, with_spare, named_twice, named_once, lost_list, list_dropped};
ghost use Rattle.mc_rules_logic.specs.Fold.Examples.{no_pointer, list_goal, shared_tree, other_length};
ghost use Rattle.mc_rules_logic.specs.Fold.Examples.{block_beside, block_left, gap_beside, gap_left};

use mc_flow::defs::{example_predicates, example_premises, example_segments};
use mc_flow::heap::{heaps_change_one_address, parts_regroup};
use mc_state::{body_premises, derived_is_true};

/// A cell and a list after it are folded, and the cell alone as a segment; a fork with one tree
/// for both its children is not.
pub fn example_folds()
    ensures bounded { IsBounded cell_and_list }
    ensures ind { FoldsInd defs (ind_fold list_id 1 (node 1 ∷ node 2 ∷ node 3 ∷ []) (Some (edge 0)) (edge 1 ∷ []))
        cell_and_list (cell_folded ∷ []) }
    ensures seg { FoldsSeg defs (seg_fold list_id 1 (node 1 ∷ node 2 ∷ node 3 ∷ []) (edge 0) [] 0) cell_and_list
        (cell_as_segment ∷ []) }
    ensures not_shared { (next : List Symbolic)
        → ¬ FoldsInd defs (ind_fold tree_id 1 (node 1 ∷ node 2 ∷ node 2 ∷ []) (Some (edge 0)) (edge 1 ∷ edge 1 ∷ []))
        shared_tree next }
{
    example_predicates();
    body_premises();
    derived_is_true();
}

/// A cell and a list of a length after it are folded: the arguments and an atom of the rule match.
pub fn example_of_arguments()
    ensures bounded { IsBounded cell_and_length }
    ensures ind { FoldsInd defs (ind_fold lenlist_id 1 (node 1 ∷ node 5 ∷ node 2 ∷ node 3 ∷ node 4 ∷ []) (Some (edge 0))
        (edge 1 ∷ [])) cell_and_length (length_folded ∷ []) }
    ensures stands { StandsBy defs (valued (pos 7 ∷ pos 5 ∷ pos 9 ∷ pos 1 ∷ pos 2 ∷ [])) [] (blocks two_cells) cell_and_length }
{
    parts_regroup();
    example_premises();
    body_premises();
    derived_is_true();
}

/// A fork and the tree to its left are folded as a segment to its right, the second call.
pub fn example_of_second_call()
    ensures bounded { IsBounded fork_and_tree }
    ensures seg { FoldsSeg defs (seg_fold tree_id 1 (node 1 ∷ node 2 ∷ node 3 ∷ []) (edge 1) (edge 2 ∷ []) 1) fork_and_tree
        (fork_as_segment ∷ []) }
    ensures addresses { IsAtAddresses (blocks two_forks) }
    ensures stands { StandsBy defs (valued (pos 7 ∷ pos 9 ∷ [])) [] (blocks two_forks) fork_and_tree }
{
    parts_regroup();
    heaps_change_one_address();
    example_premises();
    derived_is_true();
}

/// A segment is closed by the list at its end.
pub fn example_of_closing()
    ensures bounded { IsBounded segment_and_list }
    ensures closes { ClosesSeg (edge 0) (edge 1) segment_and_list (segment_closed ∷ []) }
    ensures stands { StandsBy defs (valued (pos 7 ∷ pos 9 ∷ [])) [] (blocks two_cells) segment_and_list }
{
    parts_regroup();
    example_segments();
    example_premises();
    body_premises();
    derived_is_true();
}

/// Two segments are joined.
pub fn example_of_joining()
    ensures bounded { IsBounded two_segments }
    ensures joins { JoinsSegs (edge 0) (edge 1) two_segments (segments_joined ∷ []) }
    ensures stands { StandsBy defs (valued (pos 7 ∷ pos 9 ∷ pos 0 ∷ [])) [] (blocks two_cells) two_segments }
{
    parts_regroup();
    example_segments();
    example_premises();
    body_premises();
    derived_is_true();
}

/// An empty segment is made, and a node that nothing names is forgotten.
pub fn examples_of_pointers()
    ensures bounded { IsBounded pointer }
    ensures makes { MakesEmptySeg defs list_id (node 1) [] (node 1) [] pointer (with_segment ∷ []) }
    ensures forgets { ForgetsNode (node 1) pointer (no_pointer ∷ []) }
    ensures stands { StandsBy defs (valued []) [] (blocks []) pointer }
{
    mc_pure::derived_grows();
    parts_regroup();
    heaps_change_one_address();
    example_premises();
    derived_is_true();
}

/// A node for one more than a number is made.
pub fn example_of_spare()
    ensures bounded { IsBounded small_number }
    ensures names { NamesSpare (node 1) (pos 1) Int small_number (with_spare ∷ []) }
    ensures stands { StandsBy defs (valued (pos 6 ∷ [])) [] (blocks []) small_number }
{
    parts_regroup();
    heaps_change_one_address();
    example_premises();
    derived_is_true();
}

/// One of two equal nodes stands for both.
pub fn example_of_merging()
    ensures bounded { IsBounded named_twice }
    ensures merges { MergesNodes (node 1) (node 2) named_twice (named_once ∷ []) }
    ensures stands { StandsBy defs (valued (pos 7 ∷ pos 7 ∷ [])) [] (blocks two_cells) named_twice }
{
    parts_regroup();
    example_predicates();
    body_premises();
    derived_is_true();
}

/// A list that no variable reaches is dropped, and as it stands meets the goal of a list there.
pub fn examples_of_lists()
    ensures bounded { IsBounded lost_list }
    ensures drops { DropsEdge (edge 0) lost_list (list_dropped ∷ []) }
    ensures meets { MeetsGoal list_goal (edge 0) lost_list }
    ensures stands { StandsBy defs (valued (pos 7 ∷ [])) [] (blocks two_cells) lost_list }
{
    parts_regroup();
    example_predicates();
    body_premises();
    derived_is_true();
}

/// A segment to a list of another length is not closed.
pub fn example_of_other_length()
    ensures bounded { IsBounded other_length }
    ensures not_closed { (next : List Symbolic) → ¬ ClosesSeg (edge 0) (edge 1) other_length next }
    ensures stands { StandsBy defs (valued (pos 7 ∷ pos 3 ∷ pos 2 ∷ [])) [] (blocks two_cells) other_length }
{
    parts_regroup();
    example_predicates();
    body_premises();
    derived_is_true();
}

/// A pointer beside a block is forgotten, and that the block starts at an address is written; and a
/// number that equals another, whose disequality with it becomes one of the other with itself.
pub fn examples_of_forgetting()
    ensures block { ForgetsNode (node 2) block_beside (block_left ∷ []) }
    ensures gap { ForgetsNode (node 2) gap_beside (gap_left ∷ []) }
{
    mc_pure::derived_is_true();
    mc_pure::derived_grows();
}
