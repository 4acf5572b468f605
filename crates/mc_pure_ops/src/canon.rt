//! The canonical list of what is known of nodes, and what is left of it where a node is forgotten.

mod canonical;
mod forgetting;
mod gaps;
mod left;
mod order;

pub use canonical::canon;
pub use forgetting::forget;
