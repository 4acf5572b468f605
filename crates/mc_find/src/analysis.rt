//! What can be found of a flow graph: a certificate that nothing fails, or where something may.

mod analysis;
mod examples;
mod finding;
mod proposed;
mod settings;

pub use analysis::{Analysis, Findings};
pub use examples::{example_cuts, example_followed};
pub use finding::analyse;
pub use proposed::Proposed;
pub use settings::Settings;
