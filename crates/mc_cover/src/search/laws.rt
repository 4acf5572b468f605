// What is known of states and definitions. Each law is what a function ensures that only looks.
ghost use Rattle.std.specs.Prelude.{◌≡◌, Some, List, false, slice_get};
ghost use Rattle.std.specs.List.{AllByRecursion};
ghost use Rattle.mc_base.specs.declared.plain.Kind.{Kind};
ghost use Rattle.mc_flow.specs.Defs.Conditions.{IsDefs};
ghost use Rattle.mc_flow.specs.declared.defs.rules.Def.{Def};
ghost use Rattle.mc_flow.specs.declared.defs.rules.Rule.{Rule};
ghost use Rattle.mc_state.specs.declared.terms.Term.{Term as At};
ghost use Rattle.mc_state.specs.Facts.{IsFalse};
ghost use Rattle.mc_state.specs.Known.{Test, Tells};
ghost use Rattle.mc_cover.specs.Terms.{all_lie_in};
ghost use Rattle.mc_cover.specs.Search.Terms.{all_near, AddsSmall};

use mc_symbolic::State;

/// A state has a test that tells what is entailed of it.
pub fn is_told(state: &State)
    ensures { (know : Test) × Tells know state.now }
{
    mc_pure::each_is_decided();
    let pure = state.known();
    pure.is_kept();
}

/// No term with a number outside the bounds of offsets lies in the range of a kind, where the state is not false.
pub fn terms_are_near(state: &State)
    requires { IsFalse state.now → ⊥ }
    ensures { (know : Test) → Tells know state.now → (kinds : List Kind) (ts : List At) → all_near ts ≡ false
        → all_lie_in know kinds ts ≡ false }
{
    mc_pure::normal_forms_say_all();
    let pure = state.known();
    pure.has_normal_form();
}

/// The numbers that atoms of definitions add are small.
pub fn numbers_are_small()
    ensures { (defs : List Def) (p place : _) (def : Def) (rule : Rule) → IsDefs defs → slice_get defs p ≡ Some def
        → slice_get def.rules place ≡ Some rule → AllByRecursion AddsSmall rule.atoms }
{}
