//! What is left to do of a resolved program, and what its variables hold.

mod entering;
mod laws;
mod leading;
mod next;
mod tasks;
mod values;
mod work;

pub use laws::moves_end;
pub use leading::Decided;
pub use next::{Atom, Next};
pub use tasks::Target;
pub use work::Work;
