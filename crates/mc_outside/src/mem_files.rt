// Files in memory that fail at the calls listed.
ghost use Rattle.std.specs.Prelude.{◌≡◌, ◌≤◌, ◌++◌, ◌||◌, [], Some, length, is_none, IfSome, IfOk, OnOk, OnErr};
ghost use Rattle.std.specs.Option.{option_copied};
ghost use Rattle.mc_outside.specs.Calls.{no_calls, fails_next, after_call, read_answer, is_failed};
ghost use Rattle.mc_outside.specs.Entries.{bytes_at, bytes_or_empty, read_len, IsFilled};
ghost use Rattle.mc_outside.specs.Outside.{Stays, OthersStay, IsWithinLimit, file_limit};

use crate::calls::Calls;
use crate::entries::{Entries, copied};
use crate::{FileFault, Files};
use std::alloc::Global;
use std::marker::Model;

/// Files in memory. Calls are counted from 1, and those listed fail; a missing file fails too, except
/// for `create`. Of two entries of one name the first counts.
#[derive(Drop)]
pub struct MemFiles {
    entries: Entries,
    calls: Calls,
}

impl Model for MemFiles {
    ghost use Rattle.mc_outside.specs.Memory.{CountedFiles};

    ghost Value = { CountedFiles };

    ghost view = { λ f. record { entries = f.entries; calls = f.calls } };
}

impl MemFiles {
    /// These files, and the numbers of the calls that fail.
    pub fn new(alloc: Global, files: Vec<(String, Vec<u8>)>, failing: Vec<u64>) -> MemFiles
        ensures entries { result.entries ≡ files.items }
        ensures calls { result.calls ≡ no_calls failing.items }
    {
        MemFiles {
            entries: Entries::new(alloc, files),
            calls: Calls::new(failing),
        }
    }

    /// What a file holds, and None where it is missing. This is no counted call.
    pub fn bytes(&self, name: &str) -> Option<&[u8]>
        ensures { option_copied result ≡ bytes_at self.now.entries name.now }
    {
        self.entries.bytes(name)
    }
}

#[tactic(auto, using(crate::proofs::OutsideLemmas::adds_or_stays))]
impl Files for MemFiles {
    ghost holds = { λ f name. bytes_at f.entries name };

    ghost faults = { λ f. f.calls.faults };

    fn size(&mut self, name: &str) -> Result<u64, FileFault>
        ensures answer { result ≡
            read_answer (fails_next self.old.calls) (bytes_at self.old.entries name.now) length }
        ensures limit { IfOk result (λ n. n ≤ file_limit) }
        ensures same { self.new.entries ≡ self.old.entries }
        ensures counted { self.new.calls ≡ after_call self.old.calls result }
    {
        self.calls.begin()?;
        match self.entries.bytes(name) {
            None => Err(self.calls.fail()),
            Some(bytes) => Ok(bytes.len() as u64),
        }
    }

    fn read_at(&mut self, name: &str, at: u64, buf: &mut [u8]) -> Result<usize, FileFault>
        ensures answer { result ≡
            read_answer (fails_next self.old.calls) (bytes_at self.old.entries name.now)
            (λ bytes. read_len bytes at buf.old) }
        ensures filled { IfSome (bytes_at self.old.entries name.now)
            (λ bytes. IfOk result (λ n. IsFilled bytes at n buf.old buf.new)) }
        ensures untouched { OnErr result (buf.new ≡ buf.old) }
        ensures same { self.new.entries ≡ self.old.entries }
        ensures counted { self.new.calls ≡ after_call self.old.calls result }
    {
        self.calls.begin()?;
        match self.entries.bytes(name) {
            None => Err(self.calls.fail()),
            Some(bytes) => Ok(copied(bytes, at, buf)),
        }
    }

    fn create(&mut self, name: &str) -> Result<(), FileFault>
        ensures failed { is_failed result ≡ fails_next self.old.calls }
        ensures empty { OnOk result (bytes_at self.new.entries name.now ≡ Some []) }
        ensures fault { OnErr result (Stays (bytes_at self.old.entries) (bytes_at self.new.entries)) }
        ensures others { OthersStay name.now (bytes_at self.old.entries) (bytes_at self.new.entries) }
        ensures counted { self.new.calls ≡ after_call self.old.calls result }
    {
        self.calls.begin()?;
        self.entries.empty(name)?;
        Ok(())
    }

    fn append(&mut self, name: &str, bytes: &[u8]) -> Result<(), FileFault>
        ensures failed { is_failed result ≡
            (fails_next self.old.calls || is_none (bytes_at self.old.entries name.now)) }
        ensures added { OnOk result (bytes_at self.new.entries name.now ≡
            Some (bytes_or_empty self.old.entries name.now ++ bytes.now)) }
        ensures limit { OnOk result (IsWithinLimit (bytes_at self.new.entries name.now)) }
        ensures fault { OnErr result (Stays (bytes_at self.old.entries) (bytes_at self.new.entries)) }
        ensures others { OthersStay name.now (bytes_at self.old.entries) (bytes_at self.new.entries) }
        ensures counted { self.new.calls ≡ after_call self.old.calls result }
    {
        self.calls.begin()?;
        if self.entries.bytes(name).is_none() {
            return Err(self.calls.fail());
        }
        self.entries.extend(name, bytes)?;
        Ok(())
    }
}
