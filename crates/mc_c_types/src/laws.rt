// What holds of typing. Each law is what a function with no body ensures.
ghost use Rattle.std.specs.Prelude.{ℕ, List};
ghost use Rattle.mc_c_syntax.specs.Ast.Trees.{UnitTree};
ghost use Rattle.mc_c_types.specs.Typing.{IsFaultless, IsToldOnce};

/// A program is well typed exactly where it has no fault.
pub fn well_typed_is_faultless()
    ensures { (unit : UnitTree) (entry : List ℕ) → IsFaultless unit entry }
{}

/// A program has one first fault at most, and none if it is well typed.
pub fn first_fault_is_told_once()
    ensures { (unit : UnitTree) (entry : List ℕ) → IsToldOnce unit entry }
{}
