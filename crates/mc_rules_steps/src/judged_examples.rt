// Worked rules: premises that are unmet at small states, and results and comparisons of ranges, worked out by hand.
ghost use Rattle.std.specs.Prelude.{◌≡◌, pos, negsuc, Some, [], ◌∷◌};
ghost use Rattle.mc_base.specs.declared.plain.Atom.TheVariants.{Eq, Ne, In};
ghost use Rattle.mc_base.specs.Nodes.{null};
ghost use Rattle.mc_flow.specs.Defs.Examples.{cell_id};
ghost use Rattle.mc_state.specs.BackExamples.{defs, predicate};
ghost use Rattle.mc_pure.specs.Examples.{node};
ghost use Rattle.mc_state.specs.State.{with_var};
ghost use Rattle.mc_rules_steps.specs.Examples as ex;
ghost use Rattle.mc_rules_steps.specs.JudgedExamples.{Gives, GivesByRanges, IsFirstUnmet, without_x, without_y, from_to, only, greatest, least};
ghost use Rattle.mc_rules_steps.specs.JudgedExamples.{known_result, known_at_most, known_above};
ghost use Rattle.mc_state.specs.declared.line.InstrRule.TheVariants as rule;
ghost use Rattle.mc_rules_steps.specs.JudgedExamples.{with_segment};
ghost use Rattle.mc_rules_steps.specs.Steps.{moved_to};
ghost use Rattle.mc_rules_steps.specs.Sums.{sum, difference, product};
ghost use Rattle.mc_rules_steps.specs.Unmet.{LacksBlock};

use mc_state::derived_is_true;

/// What rules give at the state of one cell.
pub fn example_given()
    ensures sum { GivesByRanges rule.S5 (ex.at 4) ex.one_cell ex.after_sum }
    ensures difference { GivesByRanges rule.S6 (ex.at 5) ex.one_cell ex.after_difference }
    ensures product { GivesByRanges rule.S7 (ex.at 6) ex.one_cell ex.after_product }
    ensures load { Gives rule.S8 (ex.at 7) ex.one_cell (moved_to (ex.at 8) (with_var ex.one_cell ex.t (Some null)) ∷ []) }
    ensures store { Gives rule.S9 (ex.at 8) ex.one_cell ex.after_store }
    ensures malloc { Gives rule.S10 (ex.at 9) ex.one_cell ex.after_malloc }
    ensures free { Gives rule.S12 (ex.at 11) ex.one_cell ex.after_free }
    ensures at_most { GivesByRanges rule.S14 (ex.at 13) ex.one_cell ex.after_at_most }
    ensures assume { Gives rule.S15 (ex.at 14) ex.one_cell ex.after_assume }
    ensures assert { Gives rule.S16 (ex.at 15) ex.one_cell ex.after_assert }
{
    derived_is_true();
}

/// The first unmet premises of moves and of an empty memory: another instruction, operands that are not known, a state
/// that is not whole, and one with an edge.
pub fn example_unmet_moves()
    ensures other { IsFirstUnmet rule.S8 (ex.at 0) ex.one_cell 1 }
    ensures copied { IsFirstUnmet rule.S2 (ex.at 19) ex.one_cell 3 }
    ensures added { IsFirstUnmet rule.S5 (ex.at 4) without_y 3 }
    ensures compared { IsFirstUnmet rule.S13 (ex.at 12) without_x 3 }
    ensures not_whole { IsFirstUnmet rule.S18 (ex.at 16) ex.not_whole 3 }
    ensures not_empty { IsFirstUnmet rule.S18 (ex.at 16) ex.one_cell 4 }
{
    derived_is_true();
}

/// The first unmet premises of rules of blocks: a base that is not known, no block, a field that is not known, and a
/// pointer that is not known to be null.
pub fn example_unmet_blocks()
    ensures base { IsFirstUnmet rule.S8 (ex.at 7) without_x 3 }
    ensures block { IsFirstUnmet rule.S8 (ex.at 7) ex.no_cell 4 }
    ensures field { IsFirstUnmet rule.S8 (ex.at 18) ex.one_cell 5 }
    ensures stored { IsFirstUnmet rule.S9 (ex.at 8) without_y 3 }
    ensures stored_base { IsFirstUnmet rule.S9 (ex.at 8) without_x 4 }
    ensures stored_block { IsFirstUnmet rule.S9 (ex.at 8) ex.no_cell 5 }
    ensures not_null { IsFirstUnmet rule.S11 (ex.at 11) ex.one_cell 4 }
    ensures freed { IsFirstUnmet rule.S12 (ex.at 11) without_x 3 }
    ensures freed_block { IsFirstUnmet rule.S12 (ex.at 11) ex.no_cell 4 }
{
    derived_is_true();
}

/// Results at the ends of `int`: a single number wraps, a range that leaves `int` says nothing, and one that stays says
/// its ends and its offset.
pub fn example_results()
    ensures wraps { known_result sum (only greatest) (only (pos 1)) ≡ In (node 3) least least ∷ [] }
    ensures wraps_down { known_result difference (only (pos 0)) (only least) ≡ In (node 3) least least ∷ [] }
    ensures leaves { known_result sum (from_to (pos 5) greatest) (only (pos 1)) ≡ [] }
    ensures leaves_below { known_result difference (from_to least (pos 0)) (from_to (pos 0) (pos 1)) ≡ [] }
    ensures stays { known_result sum (from_to (pos 5) (pos 2147483646)) (only (pos 1)) ≡ In (node 3) (pos 6) greatest
        ∷ Eq (node 3) (node 1) (pos 1) ∷ [] }
    ensures either { known_result sum (only (pos 2)) (only (pos 3)) ≡ In (node 3) (pos 5) (pos 5)
        ∷ Eq (node 3) (node 1) (pos 3) ∷ Eq (node 3) (node 2) (pos 2) ∷ [] }
    ensures less { known_result difference (from_to (pos 5) (pos 7)) (only (pos 2)) ≡ In (node 3) (pos 3) (pos 5)
        ∷ Eq (node 3) (node 1) (negsuc 1) ∷ [] }
    ensures product { known_result product (from_to (negsuc 1) (pos 3)) (from_to (negsuc 4) (pos 4))
        ≡ In (node 3) (negsuc 14) (pos 12) ∷ [] }
{}

/// Comparisons of ranges that meet, that touch, and that are apart; a low end above a high one is what can't be.
pub fn example_comparisons()
    ensures meet { known_at_most (from_to (pos 1) (pos 5)) (from_to (pos 3) (pos 8)) ≡ In (node 1) (pos 1) (pos 5)
        ∷ In (node 2) (pos 3) (pos 8) ∷ [] }
    ensures meet_above { known_above (from_to (pos 1) (pos 5)) (from_to (pos 3) (pos 8))
        ≡ In (node 1) (pos 4) (pos 5) ∷ In (node 2) (pos 3) (pos 4) ∷ Ne (node 1) (node 2) (pos 0) ∷ [] }
    ensures touch { known_at_most (from_to (pos 5) (pos 7)) (from_to (pos 1) (pos 5)) ≡ In (node 1) (pos 5) (pos 5)
        ∷ In (node 2) (pos 5) (pos 5) ∷ [] }
    ensures touch_above { known_above (from_to (pos 1) (pos 3)) (from_to (pos 3) (pos 5))
        ≡ In (node 1) (pos 4) (pos 3) ∷ In (node 2) (pos 3) (pos 2) ∷ Ne (node 1) (node 2) (pos 0) ∷ [] }
    ensures apart { known_at_most (from_to (pos 5) (pos 6)) (from_to (pos 1) (pos 2)) ≡ In (node 1) (pos 5) (pos 2)
        ∷ In (node 2) (pos 5) (pos 2) ∷ [] }
    ensures apart_above { known_above (from_to (pos 5) (pos 6)) (from_to (pos 1) (pos 2))
        ≡ In (node 1) (pos 5) (pos 6) ∷ In (node 2) (pos 1) (pos 2) ∷ Ne (node 1) (node 2) (pos 0) ∷ [] }
{}

/// A block may come of a segment whose end has the node as its argument at a back position, and then none is lacked.
/// (Predicate 0 has a back position.)
pub fn example_of_back_position()
    ensures from_end { ¬ LacksBlock defs (with_segment (predicate 0)) (node 1) cell_id }
{
    mc_state::back_is_told();
}
