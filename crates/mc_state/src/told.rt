// What tests tell, and what ids name. Each law is what a function with no body ensures.
ghost use Rattle.mc_state.specs.Told.{PicksAreNamed, FalseIsTold, EqualIsTold, AllEqualIsTold, KindIsTold, BackIsTold};

/// Edges are picked by ids exactly where the ids are distinct and name them, and all other edges are left.
pub fn picks_are_named()
    ensures { PicksAreNamed }
{}

/// A test that tells what is entailed tells what rules ask of a state.
pub fn tests_tell()
    ensures is_false { FalseIsTold }
    ensures equal { EqualIsTold }
    ensures all_equal { AllEqualIsTold }
    ensures kind { KindIsTold }
{}

/// Whether a position is a back position of a predicate is a test.
pub fn back_is_told()
    ensures { BackIsTold }
{}
