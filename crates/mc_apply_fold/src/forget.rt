//! Nodes of symbolic states that are forgotten.

mod forgetting;
mod named;

pub use forgetting::forget;
pub use named::is_unnamed;
