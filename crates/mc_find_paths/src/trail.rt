//! States that lines of logic change one after the other, and the lines that make a predicate of the edges of a cover.

mod finding;
mod making;
mod names;
mod tasks;
mod trail;

pub use crate::paths::{Branch, Paths};
pub use finding::cover;
pub use making::{MadeOf, make};
pub use mc_cover::search::plain;
pub use names::own_node;
pub use trail::Trail;
