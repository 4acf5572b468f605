//! Definition files: their tokens to trees, or the first token that no file can have there.
//!
//! Stands on `mc_c_syntax`; called by `mc_def_read`.
#![tactic(auto)]

mod block;
mod fault;
mod file;
mod front;
mod item;
mod parser;
mod print;
mod step;
mod symbols;
mod tree;

pub use block::{BlockReader, BlockStep, WholeBlock};
pub use fault::{Cause, DefFault, Refusal};
pub use file::{At, FileReader};
pub use front::{HeadReader, HeadStep, WholeHead};
pub use item::{ItemReader, ItemStep, WholeItem};
pub use parser::parse;
pub use step::{Step, Took};
pub use symbols::{Symbol, classify, number};
pub use tree::{
    Block, Bound, Content, DefText, Head, Item, Number, Parameter, Relation, RuleText, Sum,
};
