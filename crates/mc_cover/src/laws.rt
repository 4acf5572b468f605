// What is first, and what is guessed. Each law is what a function with no body ensures.
ghost use Rattle.mc_cover.specs.Laws.{FirstIsCover, FirstIsSegCover, FirstTakesEdges, NoFirstNoCover, NoFirstNoSegCover, NearIsFirst, GuessIsTheGuess, NoGuessUndefined};

/// The first cover is a cover, and the first segment cover is one; the edges that they use are
/// there, each once.
pub fn firsts_are_covers()
    ensures cover { FirstIsCover }
    ensures segment { FirstIsSegCover }
    ensures edges { FirstTakesEdges }
{}

/// There is no first cover exactly where there is no cover; so with segment covers.
pub fn none_is_missed()
    ensures cover { NoFirstNoCover }
    ensures segment { NoFirstNoSegCover }
{}

/// A search that looks only at edges that start where the goal stands finds what is first.
pub fn near_is_first()
    ensures { NearIsFirst }
{}

/// Of a predicate that is defined there is one guess, which is the function's; of another there is none.
pub fn guess_is_the_guess()
    ensures is_it { GuessIsTheGuess }
    ensures undefined { NoGuessUndefined }
{}
