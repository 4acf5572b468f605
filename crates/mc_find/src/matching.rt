//! Whether a state fits a head of another shape: by folds that make of its edges those of the head.

mod beginning;
mod fitting;
mod ground;
mod inductive;
mod making;
mod partial;
mod segments;

pub use fitting::find_fit;
pub use mc_find_shrink::{
    Branch, MadeOf, Manner, Paths, Step, Trail, cover, make, note, plain, shrink,
};
pub use partial::{Fit, Part};
