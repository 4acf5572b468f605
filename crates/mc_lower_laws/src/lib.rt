//! Laws of lowering: a program has one flow graph, which is valid, in scope and of the right kinds.
//!
//! Stands on `mc_lower_spec` and `mc_c_grammar`; called by `mc_lower` and `mc_load`.
//!
//! - `single`: a resolved program with its structs has one flow graph at most.
//! - `existing`: a resolved program that can be lowered has a flow graph, where its functions have ranks.
//! - `valid`: the flow graphs of resolved programs are valid, where the programs are of their kinds.
//! - `scoped`: what is written in a resolved program is in scope, so its flow graph runs as the program does.
//! - `kinds`: the values of resolved programs are of the kinds that are wanted, where the programs are well typed.
//! - `lowerable`: resolved programs of typed trees can be lowered.
//! - `closed`: flow graphs of programs without loops, inputs and shape commands ask for answers of malloc alone.
#![tactic(auto)]

pub mod closed;
pub mod existing;
pub mod kinds;
pub mod lowerable;
pub mod scoped;
pub mod single;
pub mod valid;
