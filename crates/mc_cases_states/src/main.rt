//! Tries the cases of its files: what is entailed, joins and renamings of what is known, states and their texts,
//! covers, guesses, and predicates on heaps. It prints how many it tried, and each of which something else comes than
//! is wanted.
//!
//! Stands on `mc_cases`, `mc_lines` (states and atoms are read as documents write them), `mc_def_read`, and on what it
//! tries.
//!
//! A file's stem says what is asked of its cases, one JSON object a line. What comes is compared with what stands by
//! `gives`. A first line with `definitions` names the definition file of the cases; struct 0 is
//! `node { int data; ptr next }`, and struct 1 is `t { ptr l; ptr r }`.
//!
//! - `entries`: what stands in a case, read as an entry of a document, and lists written.
//! - `shapes`: the structs, and the definitions of a file.
//! - `known`: what is known of nodes (`entailed`).
//! - `facts`: six nodes with facts, blocks that end, ranges and what may be assumed; canonical lists (`facts`,
//!   `canonical`).
//! - `joins`: two of them joined (`joins`).
//! - `renamings`, `renamed`: renamings, and what is known of renamed and merged nodes.
//! - `states`: texts of states, which are tidy, and which are the same (`texts`, `tidy`, `same`).
//! - `covers`, `guesses`: covers of predicates by edges, and the arguments that are guessed.
//! - `heaps`: whether a predicate holds on a heap.
//! - `long`: long lists and deep trees, which take no deep stack of the machine.
#![tactic(auto)]

mod covers;
mod entries;
mod facts;
mod guesses;
mod heaps;
mod joins;
mod known;
mod long;
mod renamed;
mod renamings;
mod shapes;
mod states;
mod tried;

use anyhow::Result;
use mc_cases::Tally;
use std::env;
use std::process::ExitCode;

fn main(rt: HostRuntime) -> Result<ExitCode> {
    let mut tally = Tally::new(rt.alloc());
    for name in env::args(&rt)?.skip(1) {
        tried::file(&rt, name.as_str(), &mut tally)?;
    }
    Ok(tally.print(&rt)?)
}
