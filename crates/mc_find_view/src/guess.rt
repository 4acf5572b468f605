//! The arguments with which a predicate may hold where a symbolic state has its memory, guessed.

mod blocks;
mod edges;
mod guesses;
mod names;
mod rules;

pub use guesses::guess;
