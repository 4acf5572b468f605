//! Scripts: the choices of a run, a line for each.

mod line;
mod read;
mod script;
mod shapes;

pub use line::{NamedBlock, ScriptLine};
pub use read::line_of;
pub use script::{Asked, Choice, NewBlock, Script, Shape};
pub use shapes::{NamedStructs, struct_texts};
