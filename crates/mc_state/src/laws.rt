// What holds of states and of what stands for them. Each law is what a function with no body ensures.
ghost use Rattle.mc_state.specs.Laws.{DerivedIsTrue, NoneStandsForFalse, EqualNodesAreOne, LiesInItsKind};
ghost use Rattle.mc_state.specs.Laws.{UnknownStands, WholeWithoutEdges, StandsByAgreement, ValuesAgree};
ghost use Rattle.mc_state.specs.Laws.{NodesAreAdded, NodesHaveValues, AtomsAreAdded, VarIsSet, VarIsForgotten};
ghost use Rattle.mc_state.specs.Laws.{VarIsKnown, EdgesAreTaken, EdgesArePut, EdgeIsReplaced, AtomsAreDropped};
ghost use Rattle.mc_state.specs.Laws.{EdgesAreDropped, NodeIsDropped, RenamedStands, StandsRenamed, StandsMerged};
ghost use Rattle.mc_state.specs.Laws.{MergedStands, UnknownIsBounded, VarStaysBounded, NodesStayBounded};
ghost use Rattle.mc_state.specs.Laws.{NodesAreBelow, NewNodesAreThere, NewNodesHaveKinds, AtomsStayBounded};
ghost use Rattle.mc_state.specs.Laws.{EdgesStayBounded, FewerEdgesStayBounded, ReplacedStaysBounded};
ghost use Rattle.mc_state.specs.Laws.{PickedNodesAreThere, RenamedStaysBounded, MergedStaysBounded};
ghost use Rattle.mc_state.specs.Laws.{DroppedStaysBounded};

/// What is entailed in a state is true wherever a configuration stands for it.
pub fn derived_is_true()
    ensures derived { DerivedIsTrue }
    ensures not_false { NoneStandsForFalse }
    ensures equal { EqualNodesAreOne }
    ensures kind { LiesInItsKind }
{
    mc_pure::derived_is_true();
}

/// Where nothing is allocated, any values stand for the state of which nothing is known, and what
/// stands for a whole state without edges has nothing allocated.
pub fn nothing_is_allocated()
    ensures unknown { UnknownStands }
    ensures whole { WholeWithoutEdges }
{
    mc_flow::heap::parts_regroup();
}

/// Nodes that are new may have any values of their kinds, and true atoms may be written.
pub fn new_nodes_are_free()
    ensures agreement { StandsByAgreement }
    ensures values_agree { ValuesAgree }
    ensures nodes { NodesAreAdded }
    ensures values { NodesHaveValues }
    ensures atoms { AtomsAreAdded }
{}

/// A variable has the value of its node, and any value where it has none.
pub fn variables_change()
    ensures set { VarIsSet }
    ensures forgotten { VarIsForgotten }
    ensures known { VarIsKnown }
{}

/// Edges are taken out of a state, put into it and replaced with their parts of the heap, or dropped.
pub fn edges_come_and_go()
    ensures taken { EdgesAreTaken }
    ensures put { EdgesArePut }
    ensures replaced { EdgeIsReplaced }
    ensures dropped { EdgesAreDropped }
{
    mc_flow::heap::parts_regroup();
}

/// Other true atoms may be written, and a node may be dropped.
pub fn less_is_known()
    ensures atoms { AtomsAreDropped }
    ensures node { NodeIsDropped }
{}

/// What stands for a renamed state stands for the state, and where no two nodes have one image, the
/// other way too.
pub fn renaming_is_sound()
    ensures back { RenamedStands }
    ensures forth { StandsRenamed }
{}

/// Where equal nodes are merged, the same configurations stand for the state.
pub fn merging_is_sound()
    ensures forth { StandsMerged }
    ensures back { MergedStands }
{
    mc_pure::derived_is_true();
}

/// A state of which nothing is known has its numbers in their bounds, and changes keep them there.
pub fn numbers_stay_bounded()
    ensures unknown { UnknownIsBounded }
    ensures var { VarStaysBounded }
    ensures nodes { NodesStayBounded }
    ensures atoms { AtomsStayBounded }
    ensures edges { EdgesStayBounded }
    ensures fewer_edges { FewerEdgesStayBounded }
    ensures replaced { ReplacedStaysBounded }
    ensures renamed { RenamedStaysBounded }
    ensures merged { MergedStaysBounded }
    ensures dropped { DroppedStaysBounded }
{}

/// Nodes that are there are below the next number; new nodes are there with their kinds, and the nodes
/// of edges that are named are there.
pub fn nodes_are_there()
    ensures below { NodesAreBelow }
    ensures new { NewNodesAreThere }
    ensures kinds { NewNodesHaveKinds }
    ensures picked { PickedNodesAreThere }
{}
