// The files that a request names, and what is said of those that fail. They are tried anew, and none is changed.

use crate::words::Request;
use std::fs::{File, Metadata};
use std::io::{ErrorKind, Read};
use std::rt::Files;
use std::{fs, io};

/// The files that a request names.
#[derive(Clone, Copy)]
pub struct Named<'w> {
    pub program: &'w str,
    pub definitions: &'w str,
    /// The document that is checked, or the script of a run.
    pub third: Option<&'w str>,
    /// Where the document of an analysis is written.
    pub target: Option<&'w str>,
}

/// The files that a request names, if it names some.
pub fn files_of<'w>(request: Request<'w>) -> Option<Named<'w>> {
    match request {
        Request::Check(names) => Some(Named {
            program: names.program,
            definitions: names.definitions,
            third: Some(names.document),
            target: None,
        }),
        Request::Run(names) => Some(Named {
            program: names.program,
            definitions: names.definitions,
            third: Some(names.script),
            target: None,
        }),
        Request::Analyse(names) => Some(Named {
            program: names.program,
            definitions: names.definitions,
            third: None,
            target: names.document,
        }),
        Request::Demo(_) => None,
    }
}

/// Names each file that cannot be read, else the document that cannot be written.
pub fn explain_files<R: Files + Eprint>(rt: &R, files: Named<'_>) -> io::Result<()> {
    let mut are_read = true;
    for name in [Some(files.program), Some(files.definitions), files.third] {
        let Some(name) = name else {
            continue;
        };
        if let Err(error) = try_to_read(rt, name) {
            eprintln!(rt; "memcad: {name}: cannot be read: {error}")?;
            are_read = false;
        }
    }
    match files.target {
        Some(name) if are_read => explain_document(rt, name),
        None if are_read => eprintln!(rt;
            "memcad: a file could not be read, but now it can be: try again"
        ),
        _ => Ok(()),
    }
}

// Says why a document could not be written.
fn explain_document<R: Files + Eprint>(rt: &R, name: &str) -> io::Result<()> {
    match try_to_write(rt, name) {
        Ok(()) => eprintln!(rt;
            "memcad: {name}: the document could not be written whole: is there room for it?"
        ),
        Err(error) if error.kind() == ErrorKind::NotFound => {
            eprintln!(rt;
                "memcad: {name}: the document cannot be written: its folder is missing, or takes no new file"
            )
        }
        Err(error) => eprintln!(rt; "memcad: {name}: the document cannot be written: {error}"),
    }
}

// Reads a byte.
fn try_to_read<R: Files>(rt: &R, name: &str) -> io::Result<()> {
    if opens_at_once(&fs::metadata(rt, name)?) {
        let mut first = [0u8; 1];
        File::open(rt, name)?.read(&mut first)?;
    }
    Ok(())
}

// Opens a file at its end, and writes nothing.
fn try_to_write<R: Files>(rt: &R, name: &str) -> io::Result<()> {
    if opens_at_once(&fs::metadata(rt, name)?) {
        File::options().append(true).open(rt, name)?;
    }
    Ok(())
}

// Whether it is a file or a folder. To open anything else, as a pipe, may wait for another process.
fn opens_at_once(known: &Metadata) -> bool {
    known.is_file() || known.is_dir()
}
