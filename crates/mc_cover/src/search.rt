//! Covers of symbolic states, found: the first way to make a predicate, or a segment of it, of edges.
//!
//! What is looked for is a goal. It is met by an edge at an equal node or by a rule of its predicate, with the block that
//! is there; what that leaves are goals again. `mc_shape_search::tries` searches, with a stack of its own, over edges that start where
//! the goal stands. The answer is the list of marks, each after the one that it stands in, with the edges in their order
//! of use. Of edges that are alike and not used only the first is tried (`alike`): what a later one would meet, it meets.

mod alike;
mod contents;
mod edges;
mod find;
mod laws;
mod listing;
mod marks;
mod names;
mod pushing;
mod search;
mod terms;

pub use find::{cover, seg_cover};
pub use names::{base_at, front_names, term_at};
pub use pushing::{goal_of, plain_terms};
pub use terms::plain;
