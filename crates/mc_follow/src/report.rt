//! The report of an analysis: the lines of stuck branches and of the states of cuts, and whole reports.

mod chains;
mod gaps;
mod heads;
mod lines;

pub use chains::{ChainReport, chain_report};
pub use heads::certificate_report;
pub use lines::{push_alarm, push_count, push_head, push_real};
