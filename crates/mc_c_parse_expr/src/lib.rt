//! Readers of expressions and conditions, which take one token at a time.
//!
//! Stands on `mc_c_syntax`; called by `mc_c_parse_simple`.
#![tactic(auto)]

mod condition;
mod expression;
mod makes;
mod primary;

pub use condition::{ConditionReader, ConditionStep, conditions_can_end};
pub use expression::{ExpressionReader, ExpressionStep, expressions_can_end};
