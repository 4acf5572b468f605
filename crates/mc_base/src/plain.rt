// Kinds, faults, atoms and variables.
use crate::{Items, NodeId};

/// The one error of calls that fail only where memory runs out.
pub type NoMemory = std::alloc::AllocError;

/// The kind of a value. `Int` goes from -2147483648 to 2147483647, and `Ptr` from 0 to 2^62 - 1.
#[derive(Clone, Copy, Debug, PartialEq, Eq, PartialOrd, Ord)]
pub enum Kind {
    Int,
    Ptr,
}

/// What can go wrong when a program runs.
#[derive(Clone, Copy, Debug, PartialEq, Eq)]
pub enum FaultKind {
    /// Reading or writing through null.
    Null,
    /// Reading or writing through an address that is not allocated as that struct.
    Freed,
    /// Using an undefined value.
    Uninit,
    /// Freeing what is neither null nor allocated.
    BadFree,
    /// A false `assert`.
    Assertion,
    /// An `assert_shape` that no part of the heap meets.
    Shape,
    /// An `assert_empty` while something is allocated.
    NotEmpty,
}

/// A fact about nodes: `Eq` is `a = b + c`, `Ne` is `a != b + c`, and `In` is `lo <= a <= hi`.
#[derive(Clone, Copy, Debug, PartialEq, Eq)]
pub enum Atom {
    Eq(NodeId, NodeId, i64),
    Ne(NodeId, NodeId, i64),
    In(NodeId, i64, i64),
}

/// A variable's name, which is empty for a temporary, and its kind.
#[derive(PartialEq, Eq, Drop)]
pub struct VarInfo {
    pub name: Items<u8>,
    pub kind: Kind,
}
