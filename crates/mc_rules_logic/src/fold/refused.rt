// First premises that are unmet, of small states.
ghost use Rattle.std.specs.Prelude.{pos, Some, None, List, [], ◌∷◌};
ghost use Rattle.mc_base.specs.declared.plain.Atom.{Atom as Fact};
ghost use Rattle.mc_base.specs.declared.plain.Kind.TheVariants.{Int, Ptr};
ghost use Rattle.mc_base.specs.Nodes.{null};
ghost use Rattle.mc_flow.specs.Defs.Examples.{defs, list_id, lenlist_id, tree_id};
ghost use Rattle.mc_pure.specs.Examples.{node};
ghost use Rattle.mc_state.specs.CoverExamples.{cell_and_list, segment_and_list, fork_and_tree};
ghost use Rattle.mc_rules_logic.specs.Fold.Folded.{ind_fold, seg_fold};
ghost use Rattle.mc_rules_logic.specs.Fold.Examples.{edge, two_segments, pointer, small_number, named_twice, lost_list};
ghost use Rattle.mc_rules_logic.specs.Fold.Examples.{other_length, list_apart, pointed_list, list_goal, null_goal, tree_goal, first_three, false_pointer};
ghost use Rattle.mc_rules_logic.specs.Fold.Examples.{FoldFails, SegFoldFails, cell_unknown, other_defs, pointed_node};
ghost use Rattle.mc_rules_logic.specs.Fold.JudgedLaws.{FailsAt};
ghost use Rattle.mc_rules_logic.specs.Fold.Judges.{folding_seg, closing_seg, joining_segs, making_seg, meeting_goal};
ghost use Rattle.mc_rules_logic.specs.Fold.ChangeJudges.{naming_spare, merging_nodes, dropping_edge, forgetting_node};

/// A fork, its block named for a rule without one and no block for a rule that has one, one edge twice,
/// one edge for two calls, a list for a tree, and a fork that is not null.
pub fn examples_of_forks_refused()
    ensures twice { FoldFails fork_and_tree (ind_fold tree_id 1 first_three (Some (edge 1)) (edge 2 ∷ edge 2 ∷ [])) 3 }
    ensures block_twice { FoldFails fork_and_tree (ind_fold tree_id 1 first_three (Some (edge 1)) (edge 1 ∷ edge 2 ∷ [])) 3 }
    ensures absent { FoldFails fork_and_tree (ind_fold tree_id 1 first_three (Some (edge 1)) (edge 2 ∷ edge 3 ∷ [])) 3 }
    ensures fewer { FoldFails fork_and_tree (ind_fold tree_id 1 first_three (Some (edge 1)) (edge 2 ∷ [])) 4 }
    ensures bare { FoldFails fork_and_tree (ind_fold tree_id 1 first_three None (edge 2 ∷ [])) 4 }
    ensures block { FoldFails fork_and_tree (ind_fold tree_id 0 (node 2 ∷ []) (Some (edge 1)) []) 4 }
    ensures no_rule { FoldFails fork_and_tree (ind_fold tree_id 2 first_three (Some (edge 1)) (edge 2 ∷ [])) 4 }
    ensures list { FoldFails fork_and_tree (ind_fold tree_id 1 first_three (Some (edge 1)) (edge 2 ∷ edge 0 ∷ [])) 6 }
    ensures not_null { FoldFails fork_and_tree (ind_fold tree_id 0 (node 1 ∷ []) None []) 7 }
    ensures no_call { SegFoldFails fork_and_tree (seg_fold tree_id 1 first_three (edge 1) (edge 2 ∷ []) 2) 4 }
    ensures all_calls { SegFoldFails fork_and_tree (seg_fold tree_id 1 first_three (edge 1) (edge 2 ∷ edge 0 ∷ []) 1) 4 }
{
    mc_pure::derived_is_true();
}

/// A cell with no block named, with a pointer for a number, with an unknown field, with a call of another predicate
/// left open, and at another node; and its nodes, which are of two kinds or not known to be equal.
pub fn examples_of_cells_refused()
    ensures no_block { FoldFails cell_and_list (ind_fold list_id 1 first_three None (edge 1 ∷ [])) 4 }
    ensures kind { FoldFails cell_and_list (ind_fold list_id 1 (node 1 ∷ node 1 ∷ node 3 ∷ []) (Some (edge 0)) (edge 1 ∷ [])) 4 }
    ensures unknown { FoldFails cell_unknown (ind_fold list_id 1 first_three (Some (edge 0)) (edge 1 ∷ [])) 5 }
    ensures other_call { FailsAt cell_and_list (λ know. folding_seg know other_defs (seg_fold lenlist_id 0 first_three (edge 0) [] 0)) 4 }
    ensures elsewhere { FoldFails cell_and_list (ind_fold list_id 1 (node 3 ∷ node 2 ∷ node 3 ∷ []) (Some (edge 0)) (edge 1 ∷ [])) 5 }
    ensures two_kinds { FailsAt cell_and_list (λ know. merging_nodes know (node 1) (node 2)) 4 }
    ensures apart { FailsAt cell_and_list (λ know. merging_nodes know (node 1) (node 3)) 5 }
{
    mc_pure::derived_is_true();
}

/// Segments that are not closed: no such edge, no segment, one edge twice, no list, a list elsewhere, and one with other arguments.
pub fn examples_of_closing_refused()
    ensures absent { FailsAt segment_and_list (λ know. closing_seg know (edge 2) (edge 1)) 3 }
    ensures list { FailsAt segment_and_list (λ know. closing_seg know (edge 1) (edge 0)) 3 }
    ensures twice { FailsAt segment_and_list (λ know. closing_seg know (edge 0) (edge 0)) 4 }
    ensures missing { FailsAt segment_and_list (λ know. closing_seg know (edge 0) (edge 2)) 4 }
    ensures segment { FailsAt two_segments (λ know. closing_seg know (edge 0) (edge 1)) 4 }
    ensures apart { FailsAt list_apart (λ know. closing_seg know (edge 0) (edge 1)) 5 }
    ensures lengths { FailsAt other_length (λ know. closing_seg know (edge 0) (edge 1)) 6 }
{
    mc_pure::derived_is_true();
}

/// Segments that are not joined: no such edge, one edge twice, a list, and the other way round.
pub fn examples_of_joining_refused()
    ensures absent { FailsAt two_segments (λ know. joining_segs know (edge 2) (edge 0)) 3 }
    ensures twice { FailsAt two_segments (λ know. joining_segs know (edge 0) (edge 0)) 4 }
    ensures list { FailsAt segment_and_list (λ know. joining_segs know (edge 0) (edge 1)) 4 }
    ensures apart { FailsAt two_segments (λ know. joining_segs know (edge 1) (edge 0)) 5 }
{
    mc_pure::derived_is_true();
}

/// Segments that are not made: at no node, with arguments too many, to another node, and with other arguments there.
pub fn examples_of_making_refused()
    ensures absent { FailsAt pointer (λ know. making_seg know defs list_id (node 2) [] (node 1) []) 3 }
    ensures more { FailsAt pointer (λ know. making_seg know defs list_id (node 1) (node 1 ∷ []) (node 1) []) 3 }
    ensures apart { FailsAt pointer (λ know. making_seg know defs list_id (node 1) [] null []) 4 }
    ensures lengths { FailsAt other_length (λ know. making_seg know defs lenlist_id (node 1) (node 2 ∷ []) (node 1) (node 3 ∷ [])) 5 }
{
    mc_pure::derived_is_true();
}

/// Numbers that are not named, and nodes that are not merged: no such node, a number that is too large, another kind; a
/// node with itself, and null.
pub fn examples_of_naming_refused()
    ensures absent { FailsAt small_number (λ know. naming_spare know (node 2) (pos 1) Int) 3 }
    ensures large { FailsAt small_number (λ know. naming_spare know (node 1) (pos 2147483645) Int) 4 }
    ensures kind { FailsAt small_number (λ know. naming_spare know (node 1) (pos 1) Ptr) 4 }
    ensures itself { FailsAt named_twice (λ know. merging_nodes know (node 1) (node 1)) 3 }
    ensures merged_null { FailsAt named_twice (λ know. merging_nodes know (node 1) null) 3 }
    ensures none_there { FailsAt named_twice (λ know. merging_nodes know (node 3) (node 1)) 3 }
{
    mc_pure::derived_is_true();
}

/// What is not dropped, forgotten or a goal met: no such edge, an edge that is reached; null, no node, and a node at which
/// an edge starts or that a variable has; a list for a tree, and a list elsewhere.
pub fn examples_of_dropping_refused()
    ensures absent { FailsAt lost_list (λ know. dropping_edge know (edge 1)) 3 }
    ensures reached { FailsAt pointed_list (λ know. dropping_edge know (edge 0)) 4 }
    ensures forgotten_null { (atoms : List Fact) → FailsAt pointer (λ know. forgetting_node know atoms null) 3 }
    ensures no_node { (atoms : List Fact) → FailsAt pointer (λ know. forgetting_node know atoms (node 2)) 3 }
    ensures start { (atoms : List Fact) → FailsAt lost_list (λ know. forgetting_node know atoms (node 1)) 4 }
    ensures variable { (atoms : List Fact) → FailsAt pointed_node (λ know. forgetting_node know atoms (node 1)) 4 }
    ensures tree { FailsAt lost_list (λ know. meeting_goal know tree_goal (edge 0)) 3 }
    ensures no_edge { FailsAt lost_list (λ know. meeting_goal know list_goal (edge 1)) 3 }
    ensures elsewhere { FailsAt lost_list (λ know. meeting_goal know null_goal (edge 0)) 4 }
{
    mc_pure::derived_is_true();
}

/// A false state is refused by each rule at the second premise, before anything else is asked.
pub fn examples_of_false_state()
    ensures fold_ind { FoldFails false_pointer (ind_fold list_id 9 [] None []) 2 }
    ensures fold_seg { SegFoldFails false_pointer (seg_fold list_id 9 [] (edge 0) [] 0) 2 }
    ensures close { FailsAt false_pointer (λ know. closing_seg know (edge 0) (edge 0)) 2 }
    ensures join { FailsAt false_pointer (λ know. joining_segs know (edge 0) (edge 0)) 2 }
    ensures make { FailsAt false_pointer (λ know. making_seg know defs list_id (node 9) [] (node 9) []) 2 }
    ensures spare { FailsAt false_pointer (λ know. naming_spare know (node 9) (pos 1) Int) 2 }
    ensures merge { FailsAt false_pointer (λ know. merging_nodes know (node 9) (node 9)) 2 }
    ensures drop_edge { FailsAt false_pointer (λ know. dropping_edge know (edge 0)) 2 }
    ensures forget { (atoms : List Fact) → FailsAt false_pointer (λ know. forgetting_node know atoms null) 2 }
    ensures goal { FailsAt false_pointer (λ know. meeting_goal know list_goal (edge 0)) 2 }
{}
