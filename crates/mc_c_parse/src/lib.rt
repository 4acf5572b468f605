//! Whole programs: tokens to trees, or the first token that no program can have there.
//!
//! Stands on `mc_c_parse_body`; called by `mc_load`.
#![tactic(auto)]

mod aliases;
mod base;
mod declarator;
mod declarators;
mod fault;
mod field;
mod fields;
mod function;
mod header;
mod item;
mod left_out;
mod parameter;
mod parameters;
mod parser;
mod prefix;
mod step;
mod structure;
mod typedef;
mod unit;

pub use aliases::AliasNames;
pub use base::{BaseReader, BaseStep};
pub use declarator::{DeclaratorReader, DeclaratorStep};
pub use declarators::{DeclaratorsReader, DeclaratorsStep};
pub use fault::ParseFault;
pub use field::{FieldReader, FieldStep};
pub use fields::{FieldsReader, FieldsStep};
pub use function::{FunctionReader, FunctionStep, FunctionTook, Signature};
pub use header::{Header, HeaderReader, HeaderStep};
pub use item::{ItemReader, ItemStep, ItemTook};
pub use parameter::{ParameterReader, ParameterStep};
pub use parameters::{ParametersReader, ParametersStep};
pub use parser::parse;
pub use step::{Step, Took};
pub use structure::{StructReader, StructStep};
pub use typedef::{TypedefPart, TypedefReader, TypedefStep};
pub use unit::{UnitReader, UnitStep};
