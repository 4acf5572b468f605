//! Chains of passes: lines that change the states of cuts, legal chains, and what is said of them. There is no code
//! here; each law is what a function with no body ensures.

mod examples;
mod laws;
mod lores;
mod reading;

pub use examples::{
    assertion_alarms, assertion_is_read, chain_lines_are_refused, counters_are_joined, joins_of_c3,
    tries_of_c2,
};
pub use laws::{
    changes_are_judged, final_chains_find_faults, joint_atoms_are_there, numbering_makes_well,
};
pub use lores::lores_are_there;
pub use reading::{
    chain_judges_agree, legal_chains_are_read, lines_are_read, refusals_are_one,
    short_chains_are_legal,
};
