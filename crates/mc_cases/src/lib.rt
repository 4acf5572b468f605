//! Cases of files: read from JSON, tried, counted, and those that differ printed.
//!
//! Stands on nothing of this repository; called by the programs that try cases, `mc_cases_texts` and its like.
//!
//! - `read`: the cases of a file: one JSON list, or a JSON value a line.
//! - `case`: a case and what stands in it by name, with a message where it is missing.
//! - `tally`: how many cases were tried, and those that differ.
//! - `latin`: bytes as characters, one a byte.
//!
//! A program that tries cases gets the names of its files as arguments, and knows by a file's stem what to do:
//!
//! ```text
//! fn main(rt: HostRuntime) -> anyhow::Result<ExitCode> {
//!     let mut tally = Tally::new(rt.alloc());
//!     for name in env::args(&rt)?.skip(1) {
//!         let name = name?;
//!         let values = values(&rt, name.as_str())?;
//!         for value in &values {
//!             let case = Case::new(value);
//!             let came = came_of(rt.alloc(), stem(name.as_str()), case)?;
//!             tally.tried(stem(name.as_str()), case.name(), case.text("wanted")?, came.as_str())?;
//!         }
//!     }
//!     tally.print(&rt)
//! }
//! ```
//!
//! In its crate the file `args` lists the files of `data/`, one a line, and `stdout` what `print` writes.
#![tactic(auto)]

pub mod case;
pub mod latin;
pub mod read;
pub mod tally;

pub use case::Case;
pub use read::{stem, values};
pub use tally::Tally;
