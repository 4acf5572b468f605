// Numbers that name something, each of a type of its own.

/// A node of a symbolic state. Node 0 is null and zero.
#[derive(Clone, Copy, Debug, Default, PartialEq, Eq, PartialOrd, Ord)]
pub struct NodeId(pub u64);

/// An edge of a symbolic state.
#[derive(Clone, Copy, Debug, Default, PartialEq, Eq, PartialOrd, Ord)]
pub struct EdgeId(pub u64);

/// A variable of a flow graph.
#[derive(Clone, Copy, Debug, Default, PartialEq, Eq, PartialOrd, Ord)]
pub struct VarId(pub u64);

/// A point of a flow graph.
#[derive(Clone, Copy, Debug, Default, PartialEq, Eq, PartialOrd, Ord)]
pub struct PointId(pub u64);

/// A struct of a program, numbered from 0 in the order of the text.
#[derive(Clone, Copy, Debug, Default, PartialEq, Eq, PartialOrd, Ord)]
pub struct StructId(pub u64);

/// A predicate of a definition file, numbered from 0 in the order of the text.
#[derive(Clone, Copy, Debug, Default, PartialEq, Eq, PartialOrd, Ord)]
pub struct PredId(pub u64);

/// The node that is null and zero.
pub const NULL: NodeId = NodeId(0);
