// Rules that look right and are wrong: for each a configuration that stands for a state at a point, from
// which a step leads to none of the rule's successors, or faults.
ghost use Rattle.std.specs.Prelude.{pos};
ghost use Rattle.mc_flow.specs.Defs.Examples.{defs, cell_id};
ghost use Rattle.mc_pure.specs.Examples.{node};
ghost use Rattle.mc_rules_steps.specs.Examples as ex;
ghost use Rattle.mc_rules_steps.specs.Laws.{IsAt};
ghost use Rattle.mc_rules_steps.specs.WrongRules.{LeadsOnFrom, unchecked_sum, kept_block, sure_malloc, unknown_load};

/// A sum is not one more than its left operand where it wraps: at 2147483647.
pub fn unchecked_sum_is_wrong()
    ensures stands { IsAt defs (ex.valuation (pos 2147483647)) (ex.config 4 (pos 2147483647)) (ex.at 4) ex.any_number }
    ensures wrong { ¬ LeadsOnFrom (ex.config 4 (pos 2147483647)) (unchecked_sum ex.z (node 2) (ex.at 5) ex.any_number) }
{}

/// A block that is freed does not stay.
pub fn kept_block_is_wrong()
    ensures stands { IsAt defs (ex.valuation (pos 5)) (ex.config 11 (pos 5)) (ex.at 11) ex.one_cell }
    ensures wrong { ¬ LeadsOnFrom (ex.config 11 (pos 5)) (kept_block (ex.at 12) ex.one_cell) }
{}

/// Malloc's answer may be null.
pub fn sure_malloc_is_wrong()
    ensures stands { IsAt defs (ex.valuation (pos 5)) (ex.config 9 (pos 5)) (ex.at 9) ex.one_cell }
    ensures wrong { ¬ LeadsOnFrom (ex.config 9 (pos 5)) (sure_malloc ex.t cell_id (ex.at 10) ex.one_cell) }
{}

/// A field that is not known may be undefined, and reading it is a fault.
pub fn unknown_load_is_wrong()
    ensures stands { IsAt defs (ex.valuation (pos 5)) (ex.config 18 (pos 5)) (ex.at 18) ex.one_cell }
    ensures wrong { ¬ LeadsOnFrom (ex.config 18 (pos 5)) (unknown_load ex.z (ex.at 19) ex.one_cell) }
{}
