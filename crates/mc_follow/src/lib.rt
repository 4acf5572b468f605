//! Alarms of programs without loops: the chain of one pass in which every branch is followed (`alarms`), how its side
//! branches end (`ending`), and the text of reports (`report`).
//!
//! Stands on `mc_find_paths`, and on `mc_exact`, which says of which alarms a run is known that faults there; called by
//! `mc_find`.
//!
//! - `ending`: side branches can be ended: where a predicate has a cover, lines make an Ind of it.
//! - `report`: the report of an analysis: the lines of stuck branches and of the states of cuts, and whole reports, of
//!   certificates and of chains.
//! - `alarms`: the alarms of a program without loops: the chain of one pass in which every branch is followed, each
//!   instruction that lacks something is stuck, and the report of it, in which alarms of exact branches carry the script on
//!   which the program faults there.
#![tactic(auto)]

pub mod alarms;
pub mod ending;
pub mod report;
