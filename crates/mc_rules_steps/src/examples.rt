// Worked rules: a small flow graph with an instruction of each form, and states and configurations that
// meet the premises of the laws.
ghost use Rattle.std.specs.Prelude.{ℤ, pos, negsuc, ◌≤ℤ◌, Some, [], ◌∷◌, false};
ghost use Rattle.std.specs.FinMap as map;
ghost use Rattle.mc_base.specs.declared.ids.PointId.{PointId as Point};
ghost use Rattle.mc_base.specs.Nodes.{null};
ghost use Rattle.mc_flow.specs.Runs as runs;
ghost use Rattle.mc_flow.specs.Heap.Choices as choice;
ghost use Rattle.mc_flow.specs.Defs.Examples.{defs};
ghost use Rattle.mc_flow.specs.Steps.{Step};
ghost use Rattle.mc_flow.specs.Valid.{IsValid};
ghost use Rattle.mc_pure.specs.Examples.{node};
ghost use Rattle.mc_state.specs.Fits.{IsBounded};
ghost use Rattle.mc_state.specs.State.{with_var};
ghost use Rattle.mc_rules_steps.specs.declared.gap.Gap.TheVariants.{Uninit, NoBlock, Reached, UninitField, NotEmpty};
ghost use Rattle.mc_rules_steps.specs.Examples as ex;
ghost use Rattle.mc_rules_steps.specs.Laws.{IsStep, IsAt, SidesHold};
ghost use Rattle.mc_rules_steps.specs.Steps.{moved_to};
ghost use Rattle.mc_rules_steps.specs.Unmet.{IsUnmet};

use mc_flow::defs::{example_predicates, examples_fit};
use mc_state::derived_is_true;

/// The flow graph is valid, the states have their numbers in their bounds, and configurations stand for them at every point.
pub fn example_premises()
    ensures valid { IsValid ex.flow defs }
    ensures one_cell { IsBounded ex.one_cell }
    ensures no_cell { IsBounded ex.no_cell }
    ensures not_whole { IsBounded ex.not_whole }
    ensures at_one_cell { (number : ℤ) → pos 5 ≤ℤ number → number ≤ℤ pos 7 → (p : Point)
        → IsAt defs (ex.valuation number) (ex.config p.0 number) p ex.one_cell }
    ensures at_no_cell { (number : ℤ) → pos 5 ≤ℤ number → number ≤ℤ pos 7 → (p : Point)
        → IsAt defs (ex.valuation number) (ex.bare p.0 number) p ex.no_cell }
    ensures at_not_whole { (number : ℤ) → pos 5 ≤ℤ number → number ≤ℤ pos 7 → (p : Point)
        → IsAt defs (ex.valuation number) (ex.bare p.0 number) p ex.not_whole }
{
    examples_fit();
}

/// The rules of moves, of sums, differences and products, and of tests.
pub fn example_numbers()
    ensures skip { IsStep ex.flow (ex.at 0) ex.one_cell (moved_to (ex.at 1) ex.one_cell ∷ []) }
    ensures copy { IsStep ex.flow (ex.at 1) ex.one_cell (moved_to (ex.at 2) (with_var ex.one_cell ex.t (Some (node 1))) ∷ []) }
    ensures undef { IsStep ex.flow (ex.at 2) ex.one_cell (moved_to (ex.at 3) ex.one_cell ∷ []) }
    ensures input { IsStep ex.flow (ex.at 3) ex.one_cell (moved_to (ex.at 4) (ex.with_z ex.one_cell) ∷ []) }
    ensures sum { IsStep ex.flow (ex.at 4) ex.one_cell ex.after_sum }
    ensures wrap { IsStep ex.flow (ex.at 21) ex.one_cell ex.after_wrap }
    ensures difference { IsStep ex.flow (ex.at 5) ex.one_cell ex.after_difference }
    ensures product { IsStep ex.flow (ex.at 6) ex.one_cell ex.after_product }
    ensures equal { IsStep ex.flow (ex.at 12) ex.one_cell ex.after_equal }
    ensures at_most { IsStep ex.flow (ex.at 13) ex.one_cell ex.after_at_most }
{
    derived_is_true();
}

/// The rules of blocks and shapes, and of the end; and the side branch of the asserted shape holds.
pub fn example_blocks()
    ensures load { IsStep ex.flow (ex.at 7) ex.one_cell (moved_to (ex.at 8) (with_var ex.one_cell ex.t (Some null)) ∷ []) }
    ensures store { IsStep ex.flow (ex.at 8) ex.one_cell ex.after_store }
    ensures malloc { IsStep ex.flow (ex.at 9) ex.one_cell ex.after_malloc }
    ensures free_null { IsStep ex.flow (ex.at 10) ex.one_cell (moved_to (ex.at 11) ex.one_cell ∷ []) }
    ensures free { IsStep ex.flow (ex.at 11) ex.one_cell ex.after_free }
    ensures assume { IsStep ex.flow (ex.at 14) ex.one_cell ex.after_assume }
    ensures assert { IsStep ex.flow (ex.at 15) ex.one_cell ex.after_assert }
    ensures sides { SidesHold defs (ex.config 15 (pos 5)) ex.after_assert }
    ensures empty { IsStep ex.flow (ex.at 16) ex.no_cell (moved_to (ex.at 17) ex.no_cell ∷ []) }
    ensures last { IsStep ex.flow (ex.at 17) ex.one_cell [] }
{
    derived_is_true();
    example_predicates();
}

/// A step of a configuration at each of those points.
pub fn example_runs()
    ensures skip { ex.Goes (ex.config 0 (pos 5)) [] (ex.config 1 (pos 5)) }
    ensures copy { ex.Goes (ex.config 1 (pos 5)) [] (ex.config_with 2 ex.t (pos 7)) }
    ensures undef { ex.Goes (ex.config 2 (pos 5)) [] (ex.config 3 (pos 5)) }
    ensures input { ex.Goes (ex.config 3 (pos 5)) (choice.input (pos 9) ∷ []) (ex.config_with 4 ex.z (pos 9)) }
    ensures sum { ex.Goes (ex.config 4 (pos 5)) [] (ex.config_with 5 ex.z (pos 6)) }
    ensures wrap { ex.Goes (ex.config 21 (pos 5)) [] (ex.config_with 22 ex.z (negsuc 2147483647)) }
    ensures difference { ex.Goes (ex.config 5 (pos 5)) [] (ex.config_with 6 ex.z (pos 4)) }
    ensures product { ex.Goes (ex.config 6 (pos 5)) [] (ex.config_with 7 ex.z (pos 5)) }
    ensures load { ex.Goes (ex.config 7 (pos 5)) [] (ex.config_with 8 ex.t (pos 0)) }
    ensures store { ex.Goes (ex.config 8 (pos 5)) [] (ex.config_on 9 ex.stored) }
    ensures malloc_null { ex.Goes (ex.config 9 (pos 5)) (choice.malloc 0 ∷ []) (ex.config_with 10 ex.t (pos 0)) }
    ensures malloc_cell { ex.Goes (ex.config 9 (pos 5)) (choice.malloc 9 ∷ []) ex.allocated }
    ensures free_null { ex.Goes (ex.config 10 (pos 5)) [] (ex.config 11 (pos 5)) }
    ensures free { ex.Goes (ex.config 11 (pos 5)) [] (ex.config_on 12 (map.remove ex.heap 7)) }
    ensures equal { ex.Goes (ex.config 12 (pos 5)) [] (ex.config 14 (pos 5)) }
    ensures at_most { ex.Goes (ex.config 13 (pos 5)) [] (ex.config 15 (pos 5)) }
    ensures assume { ex.Goes (ex.config 14 (pos 5)) (choice.shape (pos 0) [] ∷ []) (ex.config_with 15 ex.t (pos 0)) }
    ensures assert { ex.Goes (ex.config 15 (pos 5)) [] (ex.config 16 (pos 5)) }
    ensures empty { ex.Goes (ex.bare 16 (pos 5)) [] (ex.bare 17 (pos 5)) }
    ensures last { Step ex.flow defs (ex.config 17 (pos 5)) [] (runs.last runs.ended) }
{
    example_predicates();
}

/// Points that are unmet: a variable, a block and a field that are not known, a failing instruction, and memory that may be left.
pub fn example_gaps()
    ensures variable { IsUnmet ex.flow defs (ex.at 19) ex.one_cell (Uninit ex.z) }
    ensures block { IsUnmet ex.flow defs (ex.at 7) ex.no_cell (NoBlock (node 1)) }
    ensures field { IsUnmet ex.flow defs (ex.at 18) ex.one_cell (UninitField (node 1) 0) }
    ensures reached { IsUnmet ex.flow defs (ex.at 20) ex.one_cell Reached }
    ensures left { IsUnmet ex.flow defs (ex.at 16) ex.not_whole (NotEmpty false) }
{
    derived_is_true();
}
