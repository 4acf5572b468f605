// What lines of documents hold.
use mc_base::{EdgeId, Items, NodeId, PredId};

/// A version of the document format.
#[derive(Clone, Copy, Debug, PartialEq, Eq)]
pub enum Version {
    One,
}

/// What a document claims to be: a certificate that the program is safe, or a chain of passes.
#[derive(Clone, Copy, Debug, PartialEq, Eq)]
pub enum Form {
    Certificate,
    Chain,
}

/// One of the two states that are joined: the one that the cut has, or the one that arrives.
#[derive(Clone, Copy, Debug, PartialEq, Eq)]
pub enum Side {
    Left,
    Right,
}

/// A step of a join of two states.
#[derive(Clone, Copy, Debug, PartialEq, Eq)]
pub enum JoinStep {
    /// Two blocks of one struct.
    J1,
    /// Two Inds of one predicate.
    J2,
    /// Two Segs of one predicate.
    J3,
    /// An Ind of one side, and a cover of its predicate on the other.
    J4(PredId),
    /// Covers of the predicate on both sides.
    J5(PredId),
    /// A segment cover on one side, up to a pair, and an empty segment on the other.
    J6(PredId, Side, u64),
    /// A Seg of one side, and a segment cover on the other, up to a pair.
    J7(PredId, Side, u64),
}

/// A rule of instructions, as documents name it.
#[derive(Clone, Copy, Debug, PartialEq, Eq)]
pub enum InstrRule {
    /// Skip.
    S1,
    /// Copy.
    S2,
    /// Undef.
    S3,
    /// Input.
    S4,
    /// Add.
    S5,
    /// Sub.
    S6,
    /// Mul.
    S7,
    /// Load.
    S8,
    /// Store.
    S9,
    /// Malloc.
    S10,
    /// Free of null.
    S11,
    /// Free of a block.
    S12,
    /// TestEq.
    S13,
    /// TestLe.
    S14,
    /// AssumeShape.
    S15,
    /// AssertShape.
    S16,
    /// End.
    S17,
    /// AssertEmpty.
    S18,
}

/// The entries of L3: the predicate, the rule, the nodes of its names, its block and its calls, which become an Ind.
#[derive(Drop)]
pub struct FoldInd {
    pub pred: PredId,
    pub rule: u64,
    pub names: Items<NodeId>,
    pub block: Option<EdgeId>,
    pub edges: Items<EdgeId>,
}

/// The entries of L4: the same with all calls but one, whose number comes last, which become a Seg to that call.
#[derive(Drop)]
pub struct FoldSeg {
    pub pred: PredId,
    pub rule: u64,
    pub names: Items<NodeId>,
    pub block: EdgeId,
    pub edges: Items<EdgeId>,
    pub call: u64,
}
