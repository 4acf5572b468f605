// Predicates with back positions and without.
ghost use Rattle.std.specs.Prelude.{◌≡◌, true, false};
ghost use Rattle.mc_state.specs.Back.{is_back};
ghost use Rattle.mc_state.specs.BackExamples.{defs, predicate};

/// `this` is passed on, a parameter is passed on, a predicate never calls itself; and positions and predicates that are
/// not there.
pub fn example_back_positions()
    ensures passed { is_back defs (predicate 0) 0 ≡ true }
    ensures kept { is_back defs (predicate 1) 0 ≡ false }
    ensures never { is_back defs (predicate 2) 0 ≡ true }
    ensures no_position { is_back defs (predicate 0) 1 ≡ false }
    ensures no_predicate { is_back defs (predicate 3) 0 ≡ false }
{}
