//! The outside: files that are read and written, a sink that is written to, and files written anew (`saving`).
//!
//! Stands on nothing of this repository; called by `mc_load`, `mc_app` and `memcad`.
#![tactic(auto)]

mod calls;
mod entries;
mod host;
mod mem_files;
mod mem_sink;
mod outside;
pub mod saving;
mod streams;
mod sure_files;
mod sure_sink;

pub use host::{HostFiles, HostSink};
pub use mem_files::MemFiles;
pub use mem_sink::MemSink;
pub use outside::{FileFault, Files, Sink};
pub use sure_files::SureFiles;
pub use sure_sink::SureSink;
