//! What a user reads on standard error: help, what is wrong with words, which file fails, what to try next. It is written
//! beside the answer: standard output and the status stay as they are, and no contract speaks of it.

mod commands;
mod ending;
mod files;
mod refused;

pub use ending::{Ending, explain, warn};
