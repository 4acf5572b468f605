// Segments that are not joined for their arguments, and nodes that a side branch's goal names.
ghost use Rattle.mc_rules_logic.specs.Fold.JudgedLaws.{FailsAt};
ghost use Rattle.mc_rules_logic.specs.Fold.Judges.{joining_segs};
ghost use Rattle.mc_kernel.specs.Examples.{edge};
ghost use Rattle.mc_pure.specs.Examples.{node};
ghost use Rattle.mc_kernel.specs.Shown.Folds.{lengths_differ, unnamed, false_unnamed, side, NotForgotten};

/// A segment to a list of one length, and one from there of a list of another.
pub fn segments_of_other_lengths()
    ensures { FailsAt lengths_differ (λ know. joining_segs know (edge 0) (edge 1)) 6 }
{
    mc_pure::derived_is_true();
}

/// On a side branch: a node of a false state, no such node, and then the node and the argument of what has to be
/// shown.
pub fn goals_keep_their_nodes()
    ensures wrong { NotForgotten (side false_unnamed) (node 1) 2 }
    ensures absent { NotForgotten (side unnamed) (node 3) 3 }
    ensures at { NotForgotten (side unnamed) (node 1) 4 }
    ensures argument { NotForgotten (side unnamed) (node 2) 4 }
{
    mc_pure::derived_is_true();
}
