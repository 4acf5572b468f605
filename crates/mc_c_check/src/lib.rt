//! Whether a program is well typed, and whether its shape commands fit the definitions.
//!
//! Stands on `mc_c_walk` and `mc_c_grammar`; called by `mc_resolve`, `mc_load` and `mc_app`.
#![tactic(auto)]

mod binding;
mod bodies;
mod bound;
mod calls;
mod check;
mod collect;
mod functions;
mod graph;
mod infos;
mod laws;
mod levels;
mod links;
mod prototypes;
mod recursion;
mod repeated;
mod shapes;
mod structs;
mod typed;

pub use binding::bind;
pub use bound::Bound;
pub use check::check_types;
pub use collect::collect_tables;
pub use laws::calls_have_ranks;
pub use typed::Typed;
