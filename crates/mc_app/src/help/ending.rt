// What is said before a call, and after it.

use crate::Status;
use crate::help::files::{explain_files, files_of};
use crate::help::refused::explain_words;
use crate::words::asked;
use std::alloc::Global;
use std::io;
use std::rt::Files;

/// What is known of a call that has ended.
#[derive(Clone, Copy)]
pub struct Ending {
    pub status: Status,
    /// Whether a write to the output failed.
    pub output_failed: bool,
    /// Whether the answer was that neither a proof nor alarms were found.
    pub nothing_found: bool,
}

/// Warns before a call of a file that it reads and then replaces.
pub fn warn<R: Eprint>(rt: &R, alloc: Global, words: &[String]) -> io::Result<()> {
    let Some(request) = asked(alloc, words)? else {
        return Ok(());
    };
    let Some(files) = files_of(request) else {
        return Ok(());
    };
    let Some(target) = files.target else {
        return Ok(());
    };
    if target == files.program {
        eprintln!(rt;
            "memcad: warning: {target} is also the program: it is read first, and replaced if a document is written"
        )?;
    }
    if target == files.definitions {
        eprintln!(rt;
            "memcad: warning: {target} also has the definitions: it is read first, and replaced if a document is written"
        )?;
    }
    Ok(())
}

/// Says after a call that gave no verdict why, and what to try.
pub fn explain<R: Files + Eprint>(
    rt: &R,
    alloc: Global,
    words: &[String],
    ending: Ending,
) -> io::Result<()> {
    match ending.status {
        Status::Words => explain_words(rt, alloc, words),
        Status::Program if ending.nothing_found => explain_nothing_found(rt),
        Status::Device => explain_device(rt, alloc, words, ending.output_failed),
        Status::Memory => eprintln!(rt; "memcad: memory ran out"),
        _ => Ok(()),
    }
}

fn explain_nothing_found<R: Eprint>(rt: &R) -> io::Result<()> {
    eprintln!(rt;
        "memcad: neither a proof nor alarms were found, which says nothing of the program"
    )?;
    eprintln!(rt; "memcad: try another --disjuncts, or definitions with fewer or more predicates")
}

// Says which file failed, or that the output did.
fn explain_device<R: Files + Eprint>(
    rt: &R,
    alloc: Global,
    words: &[String],
    output_failed: bool,
) -> io::Result<()> {
    if output_failed {
        eprintln!(rt; "memcad: the answer could not be written to standard output")?;
    }
    match asked(alloc, words)? {
        None => explain_words(rt, alloc, words),
        Some(_) if output_failed => Ok(()),
        Some(request) => match files_of(request) {
            Some(files) => explain_files(rt, files),
            None => Ok(()),
        },
    }
}
