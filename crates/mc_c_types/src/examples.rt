// Small programs that are well typed, and others with their first faults.
ghost use Rattle.std.specs.Prelude.{codes};
ghost use Rattle.mc_c_types.specs.declared.faults.FaultName.TheVariants.{Unknown, Mismatch, Twice, Recursion, NoEntry, BadSizeof, Arity};
ghost use Rattle.mc_c_types.specs.Typing.{IsWellTyped, IsFirstFault};
ghost use Rattle.mc_c_types.specs.Examples.{fault, builds_a_list, later_struct, hidden_variable, twice_in_a_block};
ghost use Rattle.mc_c_types.specs.Examples.{loop_variable, pointer_added, wrong_cast, wrong_size, too_few_arguments};
ghost use Rattle.mc_c_types.specs.Examples.{no_result, break_outside, no_function, entry_with_parameter};
ghost use Rattle.mc_c_types.specs.Examples.{entry_after_others, calls_itself, calls_in_a_ring};

/// Programs that meet every rule.
pub fn examples_well_typed()
    ensures list { IsWellTyped builds_a_list (codes "main") }
    ensures later { IsWellTyped later_struct (codes "main") }
{}

/// What is visible: an inner variable hides an outer one, a block has a name once, and a loop's variables end with it.
pub fn examples_of_scopes()
    ensures hidden { IsFirstFault hidden_variable (codes "main") (fault Unknown 2 39) }
    ensures twice { IsFirstFault twice_in_a_block (codes "main") (fault Twice 1 36) }
    ensures after_loop { IsFirstFault loop_variable (codes "main") (fault Unknown 1 44) }
{}

/// What fits: pointers are not added to, and casts and sizes are of what is pointed to.
pub fn examples_of_types()
    ensures added { IsFirstFault pointer_added (codes "main") (fault Mismatch 2 34) }
    ensures cast { IsFirstFault wrong_cast (codes "main") (fault Mismatch 2 28) }
    ensures size { IsFirstFault wrong_size (codes "main") (fault BadSizeof 2 35) }
{}

/// Calls and loops. Of two faults at one place the one with the least number is known.
pub fn examples_of_calls()
    ensures arguments { IsFirstFault too_few_arguments (codes "main") (fault Arity 2 21) }
    ensures no_result { IsFirstFault no_result (codes "main") (fault Mismatch 2 21) }
    ensures outside { IsFirstFault break_outside (codes "main") (fault Mismatch 1 31) }
{}

/// A missing entry is known only where there is no other fault.
pub fn examples_of_entries()
    ensures nothing { IsFirstFault no_function (codes "main") (fault NoEntry 1 1) }
    ensures parameter { IsFirstFault entry_with_parameter (codes "main") (fault NoEntry 1 1) }
    ensures others { IsFirstFault entry_after_others (codes "main") (fault Unknown 1 18) }
{}

/// Recursion, also through another function.
pub fn examples_of_recursion()
    ensures itself { IsFirstFault calls_itself (codes "main") (fault Recursion 1 18) }
    ensures ring { IsFirstFault calls_in_a_ring (codes "main") (fault Recursion 1 27) }
{}
