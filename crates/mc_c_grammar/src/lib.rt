//! Laws of the grammar, each by induction over trees: how programs are spelled and printed, and what holds of every
//! program that was read.
//!
//! Stands on `mc_c_syntax`; called by `mc_c_check`, `mc_lower_laws` and `mc_load`.
//!
//! - `spelling`: how programs are spelled: their trees are printed, and tokens spell one tree at most.
//! - `printed`: what is printed of a program is read as the same program.
//! - `places`: a program that was read from a text declares its variables at different places.
//! - `numbers`: the numbers of a program that was read are at most 2147483647.
#![tactic(auto)]

pub mod numbers;
pub mod places;
pub mod printed;
pub mod spelling;
