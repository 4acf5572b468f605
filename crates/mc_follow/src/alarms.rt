//! The alarms of a program without loops: the chain of one pass in which every branch is followed, each instruction that
//! lacks something is stuck, and the report of it.

mod applying;
mod coming;
mod following;
mod laws;
mod lines;
mod mark;
mod outcome;
mod sides;
mod tracks;
mod walk;
mod whole;

pub(crate) use laws::documents_are_followed;
pub use lines::ends_few;
pub use outcome::{Document, Outcome};
pub use whole::alarms;
