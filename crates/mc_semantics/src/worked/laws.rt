// Runs that were worked out by hand.
ghost use Rattle.std.specs.Prelude.{[], ◌∷◌, pos};
ghost use Rattle.mc_flow.specs.Runs.{ended, stopped, fault};
ghost use Rattle.mc_base.specs.declared.plain.FaultKind.TheVariants.{Null, Freed, Uninit, BadFree, Assertion, Shape, NotEmpty};
ghost use Rattle.mc_flow.specs.Heap.Choices.{malloc as choose_malloc, shape as choose_shape};
ghost use Rattle.mc_flow.specs.Defs.Examples.{second_cell};
ghost use Rattle.mc_semantics.specs.Examples.{at, Comes};
ghost use Rattle.mc_semantics.specs.Worked.Programs.{keeping, reading_undefined, storing_at_null, reading_freed};
ghost use Rattle.mc_semantics.specs.Worked.Programs.{freeing_twice, freeing_null, counting, wrapping, computing};
ghost use Rattle.mc_semantics.specs.Worked.Programs.{empty_at_first, not_empty, empty_again, forgetting, going_on};
ghost use Rattle.mc_semantics.specs.Worked.Orders.{linking, result_in_field, storing_undefined, storing_behind, adding_undefined, assuming_undefined, asserting_undefined};
ghost use Rattle.mc_semantics.specs.Worked.Programs.{deeply_returning, missing_result, ComesWithDeep, assuming_list, asserting_no_list, ComesWithLists};
ghost use Rattle.mc_semantics.specs.Worked.Variables.{RunsTo, same_function, inner_function, local_function, hidden_by_head};
ghost use Rattle.mc_semantics.specs.Worked.Variables.{hiding_ends, hidden_result, own_value, own_undefined, one_after_other};
ghost use Rattle.mc_semantics.specs.Worked.Variables.{hiding_outer, hiding_head, hiding_parameter, kept_in_turns};
ghost use Rattle.mc_semantics.specs.Worked.Variables.{kept_for_condition, never_reached, left_by_break, left_by_continue};
ghost use Rattle.mc_semantics.specs.Worked.Variables.{left_at_end, left_by_return};
ghost use Rattle.mc_semantics.specs.Worked.Turns.{minus_function, none_function, stop_function, spin_function, find_function};
ghost use Rattle.mc_semantics.specs.Worked.Turns.{going_on_in_do, going_on_in_for, going_on_within, broken_within};
ghost use Rattle.mc_semantics.specs.Worked.Turns.{without_condition, result_in_order, argument_undefined};
ghost use Rattle.mc_semantics.specs.Worked.Turns.{field_before_argument, returned_without, stopped_within, called_in_turns};
ghost use Rattle.mc_semantics.specs.Worked.Turns.{returned_from_loops, asserting_of_undefined};

use mc_flow::defs::example_premises;

/// A block that is allocated, written, read and freed; a field that is read before it was written; and a store through null.
pub fn blocks_are_used()
    ensures keeping { Comes keeping 6 (choose_malloc 7 ∷ []) ended }
    ensures undefined { Comes reading_undefined 2 (choose_malloc 7 ∷ []) (fault Uninit (at 3)) }
    ensures null { Comes storing_at_null 2 (choose_malloc 0 ∷ []) (fault Null (at 3)) }
{}

/// A block after another, written, read and freed; and the result of a call in a field.
pub fn blocks_are_linked()
    ensures linking { Comes linking 7 (choose_malloc 7 ∷ choose_malloc 9 ∷ []) ended }
    ensures result { Comes result_in_field 7 (choose_malloc 7 ∷ []) ended }
{}

/// What is taken first decides which fault there is: a value before the last pointer, the pointers before the last one and a
/// field that is combined before the value, and the arguments of a shape before the shape.
pub fn values_are_taken_in_order()
    ensures value_first { Comes storing_undefined 3 (choose_malloc 0 ∷ []) (fault Uninit (at 4)) }
    ensures pointer_first { Comes storing_behind 3 (choose_malloc 0 ∷ []) (fault Null (at 4)) }
    ensures field_first { Comes adding_undefined 3 (choose_malloc 0 ∷ []) (fault Null (at 4)) }
    ensures argument_first { ComesWithLists assuming_undefined 3 [] (fault Uninit (at 3)) }
    ensures asserted_first { ComesWithLists asserting_undefined 2 [] (fault Uninit (at 2)) }
{}

/// A field that is read after the `free` of its block; a block that is freed twice; and null, which may be freed.
pub fn blocks_are_freed()
    ensures reading { Comes reading_freed 4 (choose_malloc 7 ∷ []) (fault Freed (at 8)) }
    ensures twice { Comes freeing_twice 3 (choose_malloc 7 ∷ []) (fault BadFree (at 5)) }
    ensures null { Comes freeing_null 2 [] ended }
{}

/// Each statement that adds or subtracts, on a field; a sum that wraps, and back; and a product of a sum and a negative number.
pub fn numbers_are_counted()
    ensures counting { Comes counting 10 (choose_malloc 7 ∷ []) ended }
    ensures wrapping { Comes wrapping 6 [] ended }
    ensures computing { Comes computing 3 [] ended }
{}

/// `assert_empty` before a block is allocated, while there is one, and after its `free`.
pub fn heaps_are_empty()
    ensures first { Comes empty_at_first 2 [] ended }
    ensures not_empty { Comes not_empty 2 (choose_malloc 7 ∷ []) (fault NotEmpty (at 3)) }
    ensures again { Comes empty_again 4 (choose_malloc 7 ∷ []) ended }
{}

/// A variable of a block that is undefined when the block is entered once more; a `for` that goes on with its next turn;
/// a `return` from within blocks of blocks; and a function that is left without one.
pub fn blocks_are_left()
    ensures forgetting { Comes forgetting 11 [] (fault Uninit (at 13)) }
    ensures going_on { Comes going_on 9 [] ended }
    ensures returning { ComesWithDeep deeply_returning 10 [] ended }
    ensures missing { ComesWithDeep missing_result 5 [] (fault Uninit (at 3)) }
{}

/// A list that is assumed is a list; and a block with undefined fields is none.
pub fn shapes_are_told()
    ensures assumed { ComesWithLists assuming_list 4 (choose_shape (pos 9) second_cell ∷ []) ended }
    ensures no_list { ComesWithLists asserting_no_list 2 (choose_malloc 7 ∷ []) (fault Shape (at 3)) }
{
    example_premises();
}

/// A declarator gives its value to the variable that it declares, also where the head of a loop hides it. Within the value its
/// name means that variable, which is undefined the first time, and keeps what it held in an earlier turn.
pub fn values_go_to_their_declarators()
    ensures hidden_by_head { RunsTo [] hidden_by_head 6 (fault Assertion (at 60)) }
    ensures hiding_ends { RunsTo [] hiding_ends 7 ended }
    ensures hidden_result { RunsTo (same_function ∷ []) hidden_result 9 ended }
    ensures own_value { RunsTo [] own_value 12 ended }
    ensures own_undefined { RunsTo [] own_undefined 2 (fault Uninit (at 26)) }
    ensures one_after_other { RunsTo [] one_after_other 4 ended }
{}

/// An inner block, the head of a loop and a block within a function hide what has the same name around them.
pub fn names_hide_names()
    ensures hiding_outer { RunsTo [] hiding_outer 5 ended }
    ensures hiding_head { RunsTo [] hiding_head 7 ended }
    ensures hiding_parameter { RunsTo (inner_function ∷ []) hiding_parameter 7 ended }
{}

/// A variable that is declared without braces belongs to the block around: neither an empty block nor the end of a turn
/// undefines it.
pub fn variables_outlive_turns()
    ensures kept_in_turns { RunsTo [] kept_in_turns 12 ended }
    ensures kept_for_condition { RunsTo [] kept_for_condition 4 ended }
    ensures never_reached { RunsTo [] never_reached 2 (fault Uninit (at 38)) }
{}

/// The variables of a block are undefined where it is left: by `break`, by `continue`, at its end, and by `return`.
pub fn variables_are_left()
    ensures left_by_break { RunsTo [] left_by_break 11 (fault Uninit (at 82)) }
    ensures left_by_continue { RunsTo [] left_by_continue 11 (fault Uninit (at 97)) }
    ensures left_at_end { RunsTo [] left_at_end 9 (fault Uninit (at 70)) }
    ensures left_by_return { RunsTo (local_function ∷ []) left_by_return 11 (fault Uninit (at 43)) }
{}

/// `continue` and `break` in each loop, and in loops within loops; and a `for` without a condition.
pub fn turns_go_on()
    ensures going_on_in_do { RunsTo [] going_on_in_do 8 ended }
    ensures going_on_in_for { RunsTo [] going_on_in_for 10 ended }
    ensures going_on_within { RunsTo [] going_on_within 17 ended }
    ensures broken_within { RunsTo [] broken_within 13 ended }
    ensures without_condition { RunsTo [] without_condition 10 ended }
{}

/// Arguments from left to right and before the first is passed; a result that is missing; a `stop` within a call; and calls
/// within loops, and out of them.
pub fn functions_are_called()
    ensures result_in_order { RunsTo (minus_function ∷ []) result_in_order 7 ended }
    ensures argument_undefined { RunsTo (minus_function ∷ []) argument_undefined 2 (fault Uninit (at 62)) }
    ensures field_before_argument { RunsTo (minus_function ∷ []) field_before_argument 3 (fault Null (at 85)) }
    ensures returned_without { RunsTo (none_function ∷ []) returned_without 5 (fault Uninit (at 59)) }
    ensures stopped_within { RunsTo (stop_function ∷ []) stopped_within 4 stopped }
    ensures called_in_turns { RunsTo (spin_function ∷ []) called_in_turns 12 ended }
    ensures returned_from_loops { RunsTo (find_function ∷ []) returned_from_loops 17 ended }
{}

/// The arguments of a shape that is asserted are taken before it is looked for.
pub fn shapes_take_their_arguments()
    ensures { ComesWithLists asserting_of_undefined 3 [] (fault Uninit (at 43)) }
{}
