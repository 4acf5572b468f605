//! Programs run on a script.

mod ending;
mod laws;
mod running;

pub use ending::Ending;
pub use laws::{faults_are_answered, faults_are_one};
pub use running::interpret;
