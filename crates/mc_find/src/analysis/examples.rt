// Which cuts are asked for, worked out by hand.
ghost use Rattle.std.specs.Prelude.{true, false, [], ◌∷◌};
ghost use Rattle.mc_find.specs.Analysis.Findings.{HasCuts, IsFollowedWhole};
ghost use Rattle.mc_find.specs.Analysis.Examples.{cutting, looping, straight};

/// A loop head has to be a cut, and may have others beside it. Where states are merged, the point where an `if` ends has to be
/// one too.
pub fn example_cuts()
    ensures head { HasCuts looping false (cutting (1 ∷ [])) }
    ensures more { HasCuts looping false (cutting (1 ∷ 2 ∷ [])) }
    ensures no_head { ¬ HasCuts looping false (cutting (3 ∷ [])) }
    ensures merged { HasCuts looping true (cutting (1 ∷ 3 ∷ [])) }
    ensures not_merged { ¬ HasCuts looping true (cutting (1 ∷ [])) }
    ensures none { HasCuts straight false (cutting []) }
{}

/// A program without loops is followed whole, unless its states are merged.
pub fn example_followed()
    ensures straight { IsFollowedWhole straight false }
    ensures merged { ¬ IsFollowedWhole straight true }
    ensures looping { ¬ IsFollowedWhole looping false }
{}
