// The real files and the real output, which tell no content.
ghost use Rattle.std.specs.Prelude.{◌≡◌, ◌≤◌, Ok, Err, None, IfOk, MatchResult, length};
ghost use Rattle.mc_outside.specs.Outside.{HasCause, file_limit};

use crate::calls::one_more;
use crate::streams::{read_whole, write_whole};
use crate::{FileFault, Files, Sink};
use std::fs::{File, OpenFile};
use std::io::{Error, ErrorKind, Seek, SeekFrom};
use std::marker::Model;
use std::{fs, io, rt};

// The bytes that a file may have.
const FILE_LIMIT: u64 = 9_223_372_036_854_775_807;

/// The files of the system. They tell no content, and contracts see the count of their faults alone.
#[derive(Drop)]
pub struct HostFiles<R: rt::Files + Drop> {
    rt: R,
    faults: u64,
}

impl<R: rt::Files + Drop> Model for HostFiles<R> {
    ghost use Rattle.std.specs.Prelude.{ℕ};

    ghost Value = { ℕ };

    ghost view = { λ f. f.faults };
}

impl<R: rt::Files + Drop> HostFiles<R> {
    /// The files that the runtime reaches.
    pub fn new(rt: R) -> HostFiles<R>
        ensures { result ≡ 0 }
    {
        HostFiles { rt, faults: 0 }
    }
}

impl<R: rt::Files + Drop> Files for HostFiles<R> {
    ghost holds = { λ f name. None };

    ghost faults = { λ f. f };

    fn size(&mut self, name: &str) -> Result<u64, FileFault> {
        counted(&mut self.faults, size_of_file(&self.rt, name))
    }

    fn read_at(&mut self, name: &str, at: u64, buf: &mut [u8]) -> Result<usize, FileFault> {
        counted(&mut self.faults, read_file(&self.rt, name, at, buf))
    }

    fn create(&mut self, name: &str) -> Result<(), FileFault> {
        counted(&mut self.faults, create_file(&self.rt, name))
    }

    fn append(&mut self, name: &str, bytes: &[u8]) -> Result<(), FileFault> {
        counted(&mut self.faults, append_file(&self.rt, name, bytes))
    }
}

/// The output of the runtime. It tells no content, and contracts see the count of its faults alone.
#[derive(Drop)]
pub struct HostSink<R: Print + Drop> {
    rt: R,
    faults: u64,
}

impl<R: Print + Drop> Model for HostSink<R> {
    ghost use Rattle.std.specs.Prelude.{ℕ};

    ghost Value = { ℕ };

    ghost view = { λ s. s.faults };
}

impl<R: Print + Drop> HostSink<R> {
    /// What the runtime prints to.
    pub fn new(rt: R) -> HostSink<R>
        ensures { result ≡ 0 }
    {
        HostSink { rt, faults: 0 }
    }
}

impl<R: Print + Drop> Sink for HostSink<R> {
    ghost written = { λ s. None };

    ghost faults = { λ s. s };

    fn write(&mut self, bytes: &[u8]) -> Result<(), FileFault> {
        let answer = write_whole(&mut io::writer(&self.rt), bytes);
        counted(&mut self.faults, answer)
    }
}

// Counts a failure.
fn counted<T>(faults: &mut u64, answer: io::Result<T>) -> Result<T, FileFault>
    ensures same { MatchResult answer
        (λ value. result ≡ Ok value)
        (λ _. result ≡ Err FileFault.Failed) }
    ensures cause { HasCause faults.old faults.new result }
{
    match answer {
        Ok(value) => Ok(value),
        Err(_) => {
            *faults = one_more(*faults);
            Err(FileFault::Failed)
        }
    }
}

fn size_of_file(rt: &impl rt::Files, name: &str) -> io::Result<u64>
    ensures { IfOk result (λ n. n ≤ file_limit) }
{
    within_limit(fs::metadata(rt, name)?.len())
}

fn within_limit(size: u64) -> io::Result<u64>
    ensures { IfOk result (λ n. n ≤ file_limit) }
{
    if size > FILE_LIMIT {
        return Err(Error::from(ErrorKind::FileTooLarge));
    }
    Ok(size)
}

fn read_file(rt: &impl rt::Files, name: &str, at: u64, buf: &mut [u8]) -> io::Result<usize>
    ensures { IfOk result (λ n. n ≤ length buf.new) }
{
    let mut file = File::open(rt, name)?;
    file.seek(SeekFrom::Start(at))?;
    read_whole(&mut file, buf)
}

fn create_file(rt: &impl rt::Files, name: &str) -> io::Result<()> {
    let _file = File::create(rt, name)?;
    Ok(())
}

fn append_file(rt: &impl rt::Files, name: &str, bytes: &[u8]) -> io::Result<()> {
    let mut file = File::options().append(true).open(rt, name)?;
    let size = file.metadata()?.len();
    within_limit(size.saturating_add(bytes.len() as u64))?;
    write_whole(&mut file, bytes)
}
