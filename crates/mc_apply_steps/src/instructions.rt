//! The rules of instructions by their names: what the rule that a document names gives at a point.

mod arguments;
mod dispatch;
mod shapes;

pub use arguments::{are_known, is_known, put_operand, put_operands};
pub use dispatch::{code_at, step};
pub use shapes::{assert_shape, assume_shape};
