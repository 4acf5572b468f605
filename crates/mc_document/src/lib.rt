//! The open document of a certificate or of a chain of one pass, to which lines are applied (`proof`), and its parts, by
//! which `mc_judge` applies lines to chains of several passes.
//!
//! Stands on `mc_check_line` and `mc_state_io`; called by `mc_find`, `mc_follow` and `mc_judge`.
//!
//! - `proof`: the open document of a certificate or a chain, to which lines are applied one after the other.
//! - `certified`: whether lines are a valid certificate, as the kernel's own proof reads them.
#![tactic(auto)]

pub mod certified;
pub mod proof;
