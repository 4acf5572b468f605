// How branches go on. Each law is what a function with no body ensures.
ghost use Rattle.mc_kernel.specs.Progress.Asked.{CodeLinesAreRight, FirstLinesAreRight};
ghost use Rattle.mc_kernel.specs.Progress.Progress.{BranchesAdvance, ChainsAdvance, LinesStayInside, LinesStayOpen};

use crate::oracle::judges_are_there;
use mc_gaps::unmet::gaps_are_told;
use mc_pure::contradictions_are_false;
use mc_rules_logic::back::back_is_judged;
use mc_rules_logic::unfold::unfolding_is_judged;
use mc_rules_steps::{blocks_are_there, fields_are_there, steps_are_judged};

/// The line that a branch asks for is an instance: that of a false state or of an edge at null, on side branches too;
/// else that of its instruction, or the one that unfolds what it accesses, where the instruction is not unmet.
pub fn asked_lines_are_right()
    ensures first { FirstLinesAreRight }
    ensures code { CodeLinesAreRight }
{
    judges_are_there();
    contradictions_are_false();
    blocks_are_there();
    fields_are_there();
    steps_are_judged();
    unfolding_is_judged();
    back_is_judged();
    gaps_are_told();
}

/// A branch of a valid flow graph with a well-made state, where an instruction's line may stand, advances by a line of
/// an instruction, by one that unfolds an edge, or as false; or its instruction is unmet, and in a chain it ends as
/// stuck.
pub fn branches_advance()
    ensures advance { BranchesAdvance }
    ensures chains { ChainsAdvance }
{
    judges_are_there();
    asked_lines_are_right();
}

/// What comes of a branch inside a valid flow graph is inside it; and what comes of one that is not closing is not, but
/// for folds of a branch that is no side branch.
pub fn branches_stay_inside()
    ensures inside { LinesStayInside }
    ensures still_open { LinesStayOpen }
{}
