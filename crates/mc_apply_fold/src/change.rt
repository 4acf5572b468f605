//! The rules that change one thing of a state, decided: what they make of a state, or their first premise that is unmet.

mod closing;
mod dropping;
mod empty;
mod forgetting;
mod joining;
mod merging;
mod segments;
mod single;
mod spare;

pub use closing::{CloseSeg, close_seg};
pub use dropping::{DropEdge, drop_edge};
pub use empty::{EmptySeg, make_seg};
pub use forgetting::{ForgetNode, forget_node};
pub use joining::{JoinSegs, join_segs};
pub use merging::{MergeNodes, merge_nodes};
pub use spare::{SpareNode, name_spare};
