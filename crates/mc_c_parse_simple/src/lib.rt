//! Readers of right sides, simple statements and declarations, which take one token at a time.
//!
//! Stands on `mc_c_parse_expr`; called by `mc_c_parse_body`.
#![tactic(auto)]

mod allocation;
mod base;
mod call;
mod declaration;
mod right;
mod simple;
mod size;
mod sum;

pub use base::{BaseReader, BaseStep, bases_can_end};
pub use call::{CallReader, CallStep, calls_can_end};
pub use declaration::{DeclarationReader, DeclarationStep, declarations_can_end};
pub use right::{RightReader, RightStep, rights_can_end};
pub use simple::{SimpleReader, SimpleStep, simples_can_end};
