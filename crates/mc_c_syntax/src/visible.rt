//! Names in order, of which later ones hide earlier ones, and the last place of each found by hash.

mod stack;

pub use stack::NameStack;
