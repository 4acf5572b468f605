//! What a flow graph still needs of variables and fields: which variables are read later, which fields are stored before
//! they are read, which variables hold constants alone. Found backward over the graph.

mod bits;
mod constants;
mod fields;
mod moves;
mod shapes;
mod variables;

pub use bits::Rows;
pub use constants::constant_variables;
pub use fields::{StoredField, StoredFields};
pub use shapes::{Asserted, asks_for_empty, asserted_shapes, wanted_predicates};
pub use variables::live_variables;
