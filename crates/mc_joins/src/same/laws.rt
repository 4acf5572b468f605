// What holds of renamed states. Each law is what a function with no body ensures.
ghost use Rattle.mc_joins.specs.Same.Laws.{FollowsRenamed, FalseRenamed, SameAsItself, SameIsTurned, SameIsPassedOn};
ghost use Rattle.mc_joins.specs.Same.Laws.{AnewIsBounded, AnewStands};

/// What follows, follows of the images of nodes too.
pub fn derived_is_renamed()
    ensures follows { FollowsRenamed }
    ensures is_false { FalseRenamed }
{}

/// Each state is the same as itself, and sameness may be turned round and passed on.
pub fn sameness_is_an_equivalence()
    ensures itself { SameAsItself }
    ensures turned { SameIsTurned }
    ensures passed_on { SameIsPassedOn }
{}

/// Numbering nodes and edges anew keeps the numbers in their bounds and what the state stands for.
pub fn numbering_is_sound()
    ensures bounded { AnewIsBounded }
    ensures stands { AnewStands }
{
    mc_state::numbers_stay_bounded();
    mc_state::renaming_is_sound();
}
