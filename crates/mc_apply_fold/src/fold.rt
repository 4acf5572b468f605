//! The rules that fold a rule's block and calls into one edge, and the one that meets a goal, decided: what they give
//! at a state, or their first premise that is unmet.

mod calls;
mod contents;
mod fitting;
mod folding;
mod goals;
mod laws;
mod named;
mod names;
mod rules;

pub use folding::{fold_ind, fold_seg};
pub use goals::meets_goal;
pub use laws::{kinds_are_there, names_are_there};
pub use named::{are_distinct, are_named};
pub use rules::{FoldIndRule, FoldSegRule};
