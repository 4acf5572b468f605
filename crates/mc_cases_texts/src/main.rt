//! Cases of texts that are tried: programs, definitions, documents, scripts, and what the program and its readers make
//! of them.
//!
//! Stands on `mc_app` and what reads texts; called by no crate.
//!
//! - `calls`: calls of the top call over files in memory.
//! - `words`: words of the command line, and what they ask for.
//! - `tokens`, `units`, `typed`: texts of programs: tokens, grammar, types.
//! - `running`: runs with any fuel.
//! - `graphs`: programs and their flow graphs.
//! - `definitions`: definition files, and instances of rules.
//! - `lines`: lines of documents, and first lines of texts.
//! - `scripts`: scripts, and what their lines answer.
//! - `ranges`: ranges of numbers.
//! - `input`, `tried`: what a case holds, and the call that tries it.
#![tactic(auto)]

mod calls;
mod definitions;
mod graphs;
mod input;
mod lines;
mod ranges;
mod running;
mod scripts;
mod tokens;
mod tried;
mod typed;
mod units;
mod words;

use anyhow::Result;
use mc_cases::Tally;
use std::env;
use std::process::ExitCode;

fn main(rt: HostRuntime) -> Result<ExitCode> {
    let mut tally = Tally::new(rt.alloc());
    for name in env::args(&rt)?.skip(1) {
        tried::try_file(&rt, name.as_str(), &mut tally)?;
    }
    Ok(tally.print(&rt)?)
}
