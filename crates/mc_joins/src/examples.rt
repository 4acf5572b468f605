// Joins of small states, worked out by hand.
ghost use Rattle.std.specs.Prelude.{◌≡◌, pos, true, false, is_some, Some, None, [], ◌∷◌};
ghost use Rattle.mc_base.specs.declared.plain.Atom.TheVariants.{In};
ghost use Rattle.mc_base.specs.declared.plain.Kind.TheVariants.{Int};
ghost use Rattle.mc_flow.specs.Defs.Examples.{defs, list_id, lenlist_id, tree_id, blocks, two_cells};
ghost use Rattle.mc_state.specs.declared.graph.edge.Edge.TheVariants.{Ind};
ghost use Rattle.mc_flow.specs.Heap.Instances.{nowhere};
ghost use Rattle.mc_pure_ops.specs.Join.Joint.{IsJointRange};
ghost use Rattle.mc_pure.specs.Examples.{node};
ghost use Rattle.mc_state.specs.CoverExamples.{at_seven};
ghost use Rattle.mc_state.specs.declared.line.JoinStep.TheVariants.{J1, J2, J4, J5, J6, J7};
ghost use Rattle.mc_state.specs.declared.line.Side.TheVariants.{Left, Right};
ghost use Rattle.mc_state.specs.Stands.{Stands, StandsBy};
ghost use Rattle.mc_joins.specs.Examples.{by_atoms, pair, all_joined, all_joined_but, cell, list_at, way, state_of};
ghost use Rattle.mc_joins.specs.Examples.{a_list, a_cell, a_tree, at_start, one_on, some_on, both_null};
ghost use Rattle.mc_joins.specs.Examples.{a_length, one_longer, with_longer, at_zero, at_one};
ghost use Rattle.mc_joins.specs.JointExamples.{TiedCountersJoin, TurnedJoins, OneClassJoins};
ghost use Rattle.mc_joins.specs.Joinings.{begun, next_pair};
ghost use Rattle.mc_joins.specs.Steps.{after_step, after_steps, is_stuck};
ghost use Rattle.mc_joins.specs.Whole.{result_of};

use crate::same::derived_is_renamed;
use mc_flow::heap::parts_regroup;
use mc_state::{body_premises, covers_are_sound, example_covers};

/// A list and a cell that points to a list are a list, from either side.
pub fn folding_joins()
    ensures right { after_steps by_atoms (begun a_list a_cell) (J4 list_id ∷ [])
        ≡ Some (all_joined a_list a_cell (pair 0 0 ∷ pair 1 1 ∷ []) (list_at 1 ∷ [])) }
    ensures left { after_steps by_atoms (begun a_cell a_list) (J4 list_id ∷ [])
        ≡ Some (all_joined a_cell a_list (pair 0 0 ∷ pair 1 1 ∷ []) (list_at 1 ∷ [])) }
    ensures done { next_pair (all_joined a_list a_cell (pair 0 0 ∷ pair 1 1 ∷ []) (list_at 1 ∷ [])) ≡ None }
{}

/// So are a list of a length and a cell that points to one, where the length one more gets a node.
pub fn naming_joins()
    ensures { after_steps by_atoms (begun a_length one_longer) (J4 lenlist_id ∷ [])
        ≡ Some (all_joined a_length with_longer (pair 0 0 ∷ pair 1 1 ∷ pair 2 5 ∷ [])
        (Ind (node 1) lenlist_id (node 2 ∷ []) ∷ [])) }
{}

/// Where two variables are one list on one side, and a cell and the list after it on the other, the first begins a
/// segment to the second; on the side of the one list its edge counts at the second pair alone from then on.
pub fn segment_joins()
    ensures right { after_steps by_atoms (begun at_start one_on) (J6 list_id Right 2 ∷ J2 ∷ [])
        ≡ Some (all_joined_but Left (pair 1 1) at_start one_on (pair 0 0 ∷ pair 1 1 ∷ pair 1 3 ∷ [])
        (way 1 2 ∷ list_at 2 ∷ [])) }
    ensures left { after_steps by_atoms (begun one_on at_start) (J6 list_id Left 2 ∷ J2 ∷ [])
        ≡ Some (all_joined_but Right (pair 1 1) one_on at_start (pair 0 0 ∷ pair 1 1 ∷ pair 3 1 ∷ [])
        (way 1 2 ∷ list_at 2 ∷ [])) }
{}

/// A segment and null twice are a segment; where J6 may be taken, J7 may not.
pub fn empty_joins()
    ensures empty { after_steps by_atoms (begun some_on both_null) (J7 list_id Right 2 ∷ J4 list_id ∷ [])
        ≡ Some (all_joined some_on both_null (pair 0 0 ∷ pair 1 0 ∷ pair 2 0 ∷ []) (way 1 2 ∷ list_at 2 ∷ [])) }
    ensures sixth { is_some (after_step by_atoms (begun some_on at_start) (J6 list_id Left 2)) ≡ true }
    ensures seventh { after_step by_atoms (begun some_on at_start) (J7 list_id Right 2) ≡ None }
{}

/// Two cells are a cell: they are not folded into lists, though both could be.
pub fn refused_joins()
    ensures cells { after_steps by_atoms (begun a_cell a_cell) (J1 ∷ J2 ∷ [])
        ≡ Some (all_joined a_cell a_cell (pair 0 0 ∷ pair 1 1 ∷ pair 2 2 ∷ pair 3 3 ∷ []) (cell ∷ list_at 3 ∷ [])) }
    ensures fourth { after_step by_atoms (begun a_cell a_cell) (J4 list_id) ≡ None }
    ensures fifth { after_step by_atoms (begun a_cell a_cell) (J5 list_id) ≡ None }
{}

/// A list and a tree at one pair are stuck; a list and a cell are not, nor is a join that is done.
pub fn stuck_joins()
    ensures stuck { is_stuck by_atoms (begun a_list a_tree) ≡ true }
    ensures goes_on { is_stuck by_atoms (begun a_list a_cell) ≡ false }
    ensures done { is_stuck by_atoms (all_joined a_list a_cell (pair 0 0 ∷ pair 1 1 ∷ []) (list_at 1 ∷ [])) ≡ false }
{}

/// A counter that is 0 and then 1 is from 0 to 1; from the third pass on it is from 0 to the next threshold.
pub fn counter_joins()
    ensures done { next_pair (begun at_zero at_one) ≡ None }
    ensures counter { result_of at_zero at_one (begun at_zero at_one) (In (node 1) (pos 0) (pos 9) ∷ [])
        ≡ state_of (Some (node 1) ∷ []) ((node 1, Int) ∷ []) [] (In (node 1) (pos 0) (pos 9) ∷ []) }
    ensures second { IsJointRange Int 2 (pos 0 ∷ pos 9 ∷ []) (pos 0) (pos 0) (pos 1) (pos 1) (pos 0) (pos 1) }
    ensures third { IsJointRange Int 3 (pos 0 ∷ pos 9 ∷ []) (pos 0) (pos 0) (pos 1) (pos 1) (pos 0) (pos 9) }
{}

/// Two counters that are tied by an offset: in the third pass one is widened to the next threshold, and the offset takes
/// a number off the other.
pub fn tied_counters_join()
    ensures { TiedCountersJoin }
{
    mc_pure::normal_forms_say_all();
    mc_pure::derived_grows();
    mc_pure::each_is_decided();
    mc_pure::derived_is_true();
    derived_is_renamed();
}

/// A disequality with a number, of nodes that are numbered the other way round than in what the join gives.
pub fn turned_joins()
    ensures { TurnedJoins }
{
    mc_pure::normal_forms_say_all();
    mc_pure::derived_grows();
    mc_pure::each_is_decided();
    mc_pure::derived_is_true();
    derived_is_renamed();
}

/// A disequality inside one class, which comes of two pointers that are known to differ.
pub fn one_class_joins()
    ensures { OneClassJoins }
{
    mc_pure::normal_forms_say_all();
    mc_pure::derived_grows();
    mc_pure::each_is_decided();
    mc_pure::derived_is_true();
    derived_is_renamed();
}

/// Two cells stand for a cell and a list, and for what the join of a list with those gives.
pub fn cells_stand_for_join()
    ensures cell { StandsBy defs at_seven (Some (pos 7) ∷ []) (blocks two_cells) a_cell }
    ensures joined { Stands defs (Some (pos 7) ∷ []) (blocks two_cells)
        (result_of a_list a_cell (all_joined a_list a_cell (pair 0 0 ∷ pair 1 1 ∷ []) (list_at 1 ∷ [])) []) }
{
    parts_regroup();
    body_premises();
    example_covers();
    covers_are_sound();
}

/// Null without a heap stands for the list and for what the join gives, and does not stand for the cell.
pub fn null_stands_for_join()
    ensures list { Stands defs (Some (pos 0) ∷ []) nowhere a_list }
    ensures joined { Stands defs (Some (pos 0) ∷ []) nowhere
        (result_of a_list a_cell (all_joined a_list a_cell (pair 0 0 ∷ pair 1 1 ∷ []) (list_at 1 ∷ [])) []) }
    ensures cell { ¬ Stands defs (Some (pos 0) ∷ []) nowhere a_cell }
{
    parts_regroup();
}
