//! Lists of what has a name, in which the first place of a name is found by hash.

mod groups;
mod names;
mod table;

pub use groups::Groups;
pub use names::Names;
pub use table::{HasName, Table};
