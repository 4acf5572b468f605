// The rules are judged by their instances. Each law is what a function with no body ensures.
ghost use Rattle.mc_rules_logic.specs.Fold.JudgedLaws.{FoldIndIsJudged, FoldSegIsJudged, CloseSegIsJudged, JoinSegsIsJudged};
ghost use Rattle.mc_rules_logic.specs.Fold.JudgedLaws.{EmptySegIsJudged, SpareIsJudged, MergeIsJudged, DropIsJudged, ForgetIsJudged, GoalIsJudged, ReachedIsTold};

/// Segments are closed, joined and made exactly where the judge gives something, and this it gives; goals are met
/// where it gives something.
pub fn segments_are_judged()
    ensures close { CloseSegIsJudged }
    ensures join { JoinSegsIsJudged }
    ensures empty { EmptySegIsJudged }
    ensures goal { GoalIsJudged }
{}

/// A rule's block and calls are folded exactly where the judge gives something, and this it gives.
pub fn folding_is_judged()
    ensures ind { FoldIndIsJudged }
    ensures seg { FoldSegIsJudged }
{}

/// Nodes are named, merged and forgotten and edges dropped exactly where the judge gives something, and this it gives;
/// the nodes that it finds reached are those that are.
pub fn naming_is_judged()
    ensures spare { SpareIsJudged }
    ensures merge { MergeIsJudged }
    ensures reached { ReachedIsTold }
    ensures drop_edge { DropIsJudged }
    ensures forget { ForgetIsJudged }
{}
