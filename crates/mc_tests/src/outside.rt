// Files of the process, which no contract can follow, and what is kept in memory where nothing fails. Files that fail at
// a call are tried by cases of the program, and the output of the process by its own run.
use mc_outside::{FileFault, Files, HostFiles, Sink, SureFiles, SureSink};
use std::alloc::{AllocError, Global};
use std::test::Fail;
use std::{fs, process};

// One file.
fn entries(alloc: Global) -> Result<Vec<(String, Vec<u8>)>, AllocError> {
    let mut entries = Vec::new(alloc);
    let name = String::from_str(alloc, "a")?;
    entries.push((name, Vec::from_slice(alloc, b"first")?))?;
    Ok(entries)
}

#[test]
fn sure_files_and_sinks_keep_what_is_written(rt: HostRuntime) -> Result<(), Fail> {
    let mut files = SureFiles::new(rt.alloc(), entries(rt.alloc())?);
    let mut buf = [0u8; 8];
    assert_eq!(rt; files.read_at("a", 3, &mut buf), Ok(2));
    assert!(rt; buf[0] == b's' && buf[1] == b't');
    assert_eq!(rt; files.append("c", b"yz"), Ok(()));
    assert!(rt; files.bytes("c") == Some(b"yz".as_slice()));
    let mut sink = SureSink::new(rt.alloc());
    assert_eq!(rt; sink.write(b"one"), Ok(()));
    assert!(rt; sink.bytes() == b"one".as_slice());
    Ok(())
}

// The end of a file in which two pieces were written.
fn end_of_pieces<F: Files>(files: &mut F, name: &str, buf: &mut [u8]) -> Result<usize, FileFault> {
    files.create(name)?;
    files.append(name, b"hello ")?;
    files.append(name, b"world")?;
    files.read_at(name, 3, buf)
}

#[test]
fn real_files_are_written_and_read(rt: HostRuntime) -> Result<(), Fail> {
    let name = format!(in rt.alloc(); "/tmp/mc_outside_{}", process::id(rt.process()))?;
    let mut files = HostFiles::new(rt);
    let mut buf = [0u8; 8];
    assert_eq!(rt; end_of_pieces(&mut files, name.as_str(), &mut buf), Ok(8));
    assert!(rt; buf.as_slice() == b"lo world".as_slice());
    fs::remove_file(&rt, name.as_str())?;
    assert_eq!(rt; files.size(name.as_str()), Err(FileFault::Failed));
    Ok(())
}
