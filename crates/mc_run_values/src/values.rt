//! The values of the expressions of resolved programs, with inputs from a script, and what is written into fields.

mod asking;
mod changes;
mod evaluating;
mod numbers;
mod reading;
mod refusal;
mod turns;

pub use asking::allocate;
pub use changes::{assign_behind, computed, free};
pub use evaluating::{Evaluator, Here};
pub use numbers::{Operation, compares};
pub use reading::all_there;
pub use refusal::{Allocated, Arguments, Evaluated, Refusal};
