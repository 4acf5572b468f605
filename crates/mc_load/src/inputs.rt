//! The program and the definitions that a command names, or those of two texts, read and bound.

mod contents;
mod pairs;
mod reading;
mod refusal;

pub use contents::{PIECE, buffer, text};
pub use pairs::read_pair;
pub use reading::{Sources, read};
pub use refusal::{NoDefinitions, NoProgram, Refusal};
