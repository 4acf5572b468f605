// Single steps: inputs, sums, shapes and empty heaps.
ghost use Rattle.std.specs.Prelude.{pos, negsuc, Some, None, [], ◌∷◌};
ghost use Rattle.mc_base.specs.declared.plain.FaultKind.TheVariants.{Uninit, Shape, NotEmpty};
ghost use Rattle.mc_flow.specs.Runs.{next, last, fault};
ghost use Rattle.mc_flow.specs.Heap.Choices.{input, malloc, shape};
ghost use Rattle.mc_flow.specs.Defs.Examples.{list_id, second_cell};
ghost use Rattle.mc_flow.specs.declared.instr.Instr.TheVariants.{Input, Add, AssumeShape, AssertShape, AssertEmpty};
ghost use Rattle.mc_flow.specs.declared.instr.Operand.TheVariants.{Var};
ghost use Rattle.mc_flow.specs.Examples.{somewhere, behind, x, number, config, StepsTo, HasNoStep};

use crate::defs::{example_predicates, example_premises, predicates_are_bodies};
use crate::heap::{heaps_change_one_address, parts_regroup};

/// An input is any number of an `int`, and nothing else. A sum wraps, and an undefined operand is a fault.
pub fn example_numbers()
    ensures input { StepsTo (Input x behind) None [] (input (pos 7) ∷ []) (next (config 1 (Some (pos 7)) []) []) }
    ensures too_great { HasNoStep (Input x behind) None [] (input (pos 2147483648) ∷ []) }
    ensures another_choice { HasNoStep (Input x behind) None [] (malloc 7 ∷ []) }
    ensures wraps { StepsTo (Add x (Var x) (number 1) behind) (Some (pos 2147483647)) [] []
        (next (config 1 (Some (negsuc 2147483647)) []) []) }
    ensures undefined { StepsTo (Add x (number 1) (Var x) behind) None [] [] (last (fault Uninit somewhere)) }
{}

/// A list of one block is assumed, but not where its address is taken. The empty list is everywhere, and a
/// list at an address is not in an empty heap.
pub fn example_shapes()
    ensures assumed { StepsTo (AssumeShape list_id x [] behind) None [] (shape (pos 9) second_cell ∷ [])
        (next (config 1 (Some (pos 9)) second_cell) []) }
    ensures taken { HasNoStep (AssumeShape list_id x [] behind) None second_cell (shape (pos 9) second_cell ∷ []) }
    ensures empty_list { StepsTo (AssertShape list_id (Var x) [] behind) (Some (pos 0)) second_cell []
        (next (config 1 (Some (pos 0)) second_cell) []) }
    ensures no_list { StepsTo (AssertShape list_id (Var x) [] behind) (Some (pos 9)) [] [] (last (fault Shape somewhere)) }
{
    parts_regroup();
    heaps_change_one_address();
    predicates_are_bodies();
    example_predicates();
    example_premises();
}

/// A heap without blocks is empty, and one with a block is not.
pub fn example_empty_heaps()
    ensures empty { StepsTo (AssertEmpty behind) None [] [] (next (config 1 None []) []) }
    ensures not_empty { StepsTo (AssertEmpty behind) None second_cell [] (last (fault NotEmpty somewhere)) }
{
    heaps_change_one_address();
}
