//! Tries rules at small states, worked out by hand: what a line of a document gives at a state, or its first premise
//! that is unmet.
//!
//! Stands on `mc_cases` and `mc_check_line`; called by no crate.
//!
//! Each argument names a file of definitions (`.d`), which hold for the files after it, or a file of cases (`.json`), a
//! JSON object a line. The first object has the `structs` and `variables` of the file. Of the others, one with a `line`
//! is a case; what stands by `state` and `to` holds for the cases after it too.
//!
//! | Of a case | What it is |
//! |---|---|
//! | `name` | what it tries |
//! | `state` | the state at which the line stands, as documents write it |
//! | `to` | the state of a cut to which the line jumps |
//! | `instruction` | the instruction at point 0 of a flow graph, where the line stands; points 1 and 2 are ends |
//! | `goal` | what the branch has to show: a predicate, a node and its arguments |
//! | `access` | the accessed node, or `null`; the rule of the line is then applied by itself |
//! | `line` | the line, as documents write it |
//! | `wanted` | `ends`, `premise N`, or the branches that come of the line, a bar between each two |
//!
//! Where no `instruction` stands it is a Skip. A branch is the text of its state. Before that stand its point, where it
//! is not 0, what it has to show, and whether its edges are no longer all that is allocated.
#![tactic(auto)]

mod cases;
mod code;
mod inputs;
mod judging;
mod names;
mod program;
mod texts;

use anyhow::Result;
use cases::try_all;
use mc_cases::{Tally, read, values};
use std::env;
use std::process::ExitCode;

// Tries the cases of a file.
fn try_file(rt: &HostRuntime, name: &str, definitions: &str, tally: &mut Tally) -> Result<()> {
    let values = values(rt, name)?;
    try_all(rt.alloc(), definitions, values.as_slice(), tally)
}

fn main(rt: HostRuntime) -> Result<ExitCode> {
    let mut tally = Tally::new(rt.alloc());
    let mut definitions = String::new(rt.alloc());
    for name in env::args(&rt)?.skip(1) {
        if name.as_str().ends_with(".d") {
            definitions = read::text(&rt, name.as_str())?;
        } else {
            try_file(&rt, name.as_str(), definitions.as_str(), &mut tally)?;
        }
    }
    let status = tally.print(&rt)?;
    Ok(status)
}
