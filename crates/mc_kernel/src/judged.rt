// Lines are judged by their instances. Each law is what a function with no body ensures.
ghost use Rattle.mc_kernel.specs.JudgedLaws.{LinesAreJudged, LinesAreDetermined, UnmetIsNoLine, LinesAreDecided};

use mc_rules_logic::back::back_is_judged;
use mc_rules_logic::fold::{folding_is_judged, naming_is_judged, segments_are_judged};
use mc_rules_logic::unfold::unfolding_is_judged;
use mc_rules_steps::steps_are_judged;

/// A line gives these branches at a branch exactly where it is an instance of its rule. So it has one list of them at
/// most, and where it is no instance one premise is the first that is unmet.
pub fn lines_are_judged()
    ensures judged { LinesAreJudged }
    ensures determined { LinesAreDetermined }
    ensures unmet { UnmetIsNoLine }
    ensures decided { LinesAreDecided }
{
    steps_are_judged();
    unfolding_is_judged();
    back_is_judged();
    folding_is_judged();
    segments_are_judged();
    naming_is_judged();
}
