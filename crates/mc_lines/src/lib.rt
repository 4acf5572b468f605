//! Lines of documents: read from texts and written (`cert`), and whole documents as they are written (`written`).
//!
//! Stands on `mc_state`; called by `mc_kernel`, `mc_document`, the search and `mc_run_values` (scripts).
//!
//! - `cert`: reads and writes documents: the lines of a text, and what each line says.
//! - `written`: documents as they are written.
#![tactic(auto)]

pub mod cert;
pub mod written;
