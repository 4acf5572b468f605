//! Reads the words of the command line, and ends with the status of what they ask for. What `help` of `mc_app` says of it
//! goes to standard error.
#![tactic(auto)]

mod watched;

use mc_app::help::{Ending, explain, warn};
use mc_app::{Status, memcad};
use mc_outside::{HostFiles, HostSink};
use std::process::ExitCode;
use std::{env, io};
use watched::Watched;

// The words of the command line without the program's own name.
fn words(rt: &HostRuntime) -> io::Result<Vec<String>> {
    let mut words = Vec::new(rt.alloc());
    for word in env::args(rt)?.skip(1) {
        words.push(word)?;
    }
    Ok(words)
}

// The status where there are no words: out of memory, or 9 where the system does not hand them over.
fn without_words(error: &io::Error) -> u8 {
    match error.kind() {
        io::ErrorKind::OutOfMemory => Status::Memory.code(),
        _ => 9,
    }
}

// Does what the words ask for. A text for standard error that cannot be written is left out.
fn answered(rt: &HostRuntime, words: &[String]) -> Status {
    let alloc = rt.alloc();
    let _warned = warn(rt, alloc, words);
    let mut files = HostFiles::new(rt);
    let mut out = Watched::new(HostSink::new(rt));
    let status = memcad(alloc, words, &mut files, &mut out);
    let ending = Ending {
        status,
        output_failed: out.has_failed(),
        nothing_found: out.says_nothing_found(),
    };
    let _explained = explain(rt, alloc, words, ending);
    status
}

fn main(rt: HostRuntime) -> ExitCode {
    match words(&rt) {
        Ok(words) => ExitCode::from(answered(&rt, words.as_slice()).code()),
        Err(error) => {
            let _explained = eprintln!(rt;
                "memcad: the words of the command line could not be read: {error}"
            );
            ExitCode::from(without_words(&error))
        }
    }
}
