// Chains of small programs, and lines that change the states of cuts, worked out by hand.
ghost use Rattle.std.specs.Prelude.{◌≡◌, ◌++◌, true, false, Ok, Err, [], ◌∷◌};
ghost use Rattle.mc_flow.specs.Defs.Examples.{defs, list_id};
ghost use Rattle.mc_state.specs.Known.{Test};
ghost use Rattle.mc_joins.specs.Same.Same.{anew};
ghost use Rattle.mc_state.specs.declared.line.JoinStep.TheVariants.{J2, J4};
ghost use Rattle.mc_state.specs.State.{State};
ghost use Rattle.mc_kernel.specs.Examples.{at};
ghost use Rattle.mc_joins.specs.Examples.{a_list, a_cell, a_tree};
ghost use Rattle.mc_joins.specs.Chains.Chains.{HasAlarms, IsUnfinished};
ghost use Rattle.mc_joins.specs.Chains.Examples.{assert_flow, assert_document, short_document, arrived, with_one, told, told_same};
ghost use Rattle.mc_joins.specs.Chains.Examples.{assert_lines, first_pass, second_pass, short_lines, told_reached};
ghost use Rattle.mc_joins.specs.Chains.Examples.{CountersAreJoined};
ghost use Rattle.mc_joins.specs.Chains.Judges.{Lore, alarms, ends_early, joining_state, opening_state, reading_chain, unfinished};
ghost use Rattle.mc_joins.specs.Chains.Read.{IsSaid};
ghost use Rattle.mc_lines.specs.declared.cert.line.Line.TheVariants.{Cut, Pass, End};

use crate::same::derived_is_renamed;

/// A loop over inputs and an assertion that fails after it: its chain has one alarm; the chain that ends after its
/// first pass is not final.
pub fn assertion_alarms()
    ensures alarm { (know : State → Test) → HasAlarms know assert_flow [] assert_document 1 }
    ensures early { (know : State → Test) → IsUnfinished know assert_flow [] short_document }
{
    mc_pure::derived_is_true();
}

/// A tree is a state of its own beside a list, since no step joins them. A cell is not: the list of steps stops before
/// one that applies. Nor without a list of steps for the state, or with steps that do not apply.
pub fn tries_of_c2()
    ensures opened { (k : Lore) → opening_state (told k) defs (with_one a_list) ([] ∷ []) (arrived a_tree)
        ≡ Ok ((at 1, a_list) ∷ (at 1, anew a_tree) ∷ []) }
    ensures too_early { (k : Lore) → opening_state (told k) defs (with_one a_list) ([] ∷ []) (arrived a_cell) ≡ Err 5 }
    ensures no_tries { (k : Lore) → opening_state (told k) defs (with_one a_list) [] (arrived a_tree) ≡ Err 3 }
    ensures wrong { (k : Lore) → opening_state (told k) defs (with_one a_list) ((J2 ∷ []) ∷ []) (arrived a_tree) ≡ Err 5 }
    ensures done { (k : Lore) → opening_state (told k) defs (with_one a_list) ((J4 list_id ∷ []) ∷ []) (arrived a_cell) ≡ Err 5 }
{}

/// A cell and a list give a list in the cell's place. A list and a cell give the list that is there already; a cut has
/// no state of another number; and a join that is not done gives nothing.
pub fn joins_of_c3()
    ensures joined { (k : Lore) → joining_state (told_same false k) defs 1 (with_one a_cell) 0 (J4 list_id ∷ [])
        (arrived a_list) ≡ Ok ((at 1, a_list) ∷ []) }
    ensures unchanged { (k : Lore) → joining_state (told_same true k) defs 1 (with_one a_list) 0 (J4 list_id ∷ [])
        (arrived a_cell) ≡ Err 6 }
    ensures no_state { (k : Lore) → joining_state (told_same false k) defs 1 (with_one a_cell) 1 (J4 list_id ∷ [])
        (arrived a_list) ≡ Err 3 }
    ensures open_still { (k : Lore) → joining_state (told_same false k) defs 1 (with_one a_cell) 0 [] (arrived a_list) ≡ Err 5 }
{}

/// A C3 line of a third pass, where the ranges of two counters are widened and an offset ties them.
pub fn counters_are_joined()
    ensures { CountersAreJoined }
{
    mc_pure::normal_forms_say_all();
    mc_pure::derived_grows();
    mc_pure::each_is_decided();
    mc_pure::derived_is_true();
    derived_is_renamed();
}

/// The same chain, read line by line, and what is said of it where it ends earlier.
pub fn assertion_is_read()
    ensures alarm { (k : Lore) → IsSaid (told_reached k) assert_flow [] assert_lines (alarms 1) }
    ensures early { (k : Lore) → IsSaid (told_reached k) assert_flow [] short_lines unfinished }
    ensures open_still { (k : Lore) → IsSaid (told_reached k) assert_flow [] (Cut (at 1) ∷ Pass ∷ first_pass) ends_early }
{}

/// Lines of chains that are refused: a pass where a loop head is no cut, an end before a pass, a cut that is no Skip and
/// one that is not greater than the one before, a cut after a pass, a pass and an end where a branch is open, a line
/// after the end, and a pass after one that changes nothing.
pub fn chain_lines_are_refused()
    ensures no_cut { (k : Lore) → reading_chain k assert_flow [] (Pass ∷ []) ≡ Err (2, 1) }
    ensures no_pass { (k : Lore) → reading_chain k assert_flow [] (Cut (at 1) ∷ End ∷ []) ≡ Err (3, 1) }
    ensures no_skip { (k : Lore) → reading_chain k assert_flow [] (Cut (at 3) ∷ []) ≡ Err (2, 3) }
    ensures twice { (k : Lore) → reading_chain k assert_flow [] (Cut (at 1) ∷ Cut (at 1) ∷ []) ≡ Err (3, 4) }
    ensures too_late { (k : Lore) → reading_chain k assert_flow [] (Cut (at 1) ∷ Pass ∷ Cut (at 6) ∷ []) ≡ Err (4, 1) }
    ensures pass_early { (k : Lore) → reading_chain k assert_flow [] (Cut (at 1) ∷ Pass ∷ Pass ∷ []) ≡ Err (4, 3) }
    ensures end_early { (k : Lore) → reading_chain k assert_flow [] (Cut (at 1) ∷ Pass ∷ End ∷ []) ≡ Err (4, 3) }
    ensures after_end { (k : Lore) → reading_chain (told_reached k) assert_flow [] (short_lines ++ End ∷ []) ≡ Err (7, 1) }
    ensures no_change { (k : Lore) → reading_chain (told_reached k) assert_flow []
        (Cut (at 1) ∷ Pass ∷ (first_pass ++ (Pass ∷ (second_pass ++ Pass ∷ [])))) ≡ Err (19, 3) }
{}
