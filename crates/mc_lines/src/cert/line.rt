// What a line of a document says.
use mc_base::{Args, EdgeId, Items, Kind, NodeId, PointId, PredId};
use mc_state::{FoldInd, FoldSeg, Form, InstrRule, JoinStep, RawState, Version};

/// A line of a document. The entries of a form are those of its array after the name.
#[derive(Drop)]
pub enum Line {
    Header(Version, Form),
    /// A point at which passes and certificates cut runs.
    Cut(PointId),
    /// A state of a cut.
    Head(PointId, RawState),
    /// A pass of a chain begins.
    Pass,
    End,
    /// A rule of instructions.
    Step(InstrRule),
    /// Unfolds an Ind.
    L1(EdgeId),
    /// Unfolds a Seg.
    L2(EdgeId),
    /// Folds a rule's block and calls into an Ind.
    L3(FoldInd),
    /// Folds a rule's block and calls without one into a Seg to that call.
    L4(FoldSeg),
    /// Folds a Seg and an Ind at its end.
    L5(EdgeId, EdgeId),
    /// Folds a Seg and another at its end.
    L6(EdgeId, EdgeId),
    /// Makes a Seg from a node to an equal one.
    L7(PredId, NodeId, Args<NodeId>, NodeId, Args<NodeId>),
    /// Names a node and a number more.
    L8(NodeId, i64, Kind),
    /// Puts a node in place of an equal one.
    L9(NodeId, NodeId),
    /// Drops an edge.
    L10(EdgeId),
    /// Forgets a node.
    L11(NodeId),
    /// The state is false.
    L12,
    /// Jumps to a state of the cut, with an image for each of its nodes and an edge for each of its edges.
    L13(u64, Items<NodeId>, Items<EdgeId>),
    /// The goal of a side branch is met by an Ind.
    L14(EdgeId),
    /// Unfolds an edge backward, from its last block.
    L15(EdgeId),
    /// The instruction is stuck.
    C1,
    /// A new state of the cut, with a try to join it with each of the others.
    C2(Items<Items<JoinStep>>),
    /// A join with a state of the cut.
    C3(u64, Items<JoinStep>),
}
