// Files in memory that never fail.
ghost use Rattle.std.specs.Prelude.{◌≡◌, ◌≢◌, ◌≤◌, ◌++◌, [], Some, Ok, length, IfOk, OnOk, OnErr};
ghost use Rattle.std.specs.Option.{option_copied};
ghost use Rattle.mc_outside.specs.Entries.{bytes_at, bytes_or_empty, read_len, IsFilled};
ghost use Rattle.mc_outside.specs.Outside.{Stays, OthersStay, IsWithinLimit, file_limit};

use crate::entries::{Entries, copied};
use crate::{FileFault, Files};
use std::alloc::Global;
use std::marker::Model;

/// Files in memory that never fail. A missing file counts as an empty one. Of two entries of one name
/// the first counts.
#[derive(Drop)]
pub struct SureFiles {
    entries: Entries,
}

impl Model for SureFiles {
    ghost use Rattle.mc_outside.specs.Entries.{Entries};

    ghost Value = { Entries };

    ghost view = { λ f. f.entries };
}

impl SureFiles {
    /// These files.
    pub fn new(alloc: Global, files: Vec<(String, Vec<u8>)>) -> SureFiles
        ensures { result ≡ files.items }
    {
        SureFiles {
            entries: Entries::new(alloc, files),
        }
    }

    /// What a file holds, and None where there is no entry of that name.
    pub fn bytes(&self, name: &str) -> Option<&[u8]>
        ensures { option_copied result ≡ bytes_at self.now name.now }
    {
        self.entries.bytes(name)
    }
}

#[tactic(auto, using(crate::proofs::OutsideLemmas::adds_or_stays))]
impl Files for SureFiles {
    ghost holds = { λ f name. Some (bytes_or_empty f name) };

    ghost faults = { λ f. 0 };

    fn size(&mut self, name: &str) -> Result<u64, FileFault>
        ensures answer { result ≡ Ok (length (bytes_or_empty self.old name.now)) }
        ensures limit { IfOk result (λ n. n ≤ file_limit) }
        ensures same { self.new ≡ self.old }
    {
        match self.entries.bytes(name) {
            None => Ok(0),
            Some(bytes) => Ok(bytes.len() as u64),
        }
    }

    fn read_at(&mut self, name: &str, at: u64, buf: &mut [u8]) -> Result<usize, FileFault>
        ensures answer { result ≡ Ok (read_len (bytes_or_empty self.old name.now) at buf.old) }
        ensures filled { IfOk result
            (λ n. IsFilled (bytes_or_empty self.old name.now) at n buf.old buf.new) }
        ensures same { self.new ≡ self.old }
    {
        match self.entries.bytes(name) {
            None => Ok(0),
            Some(bytes) => Ok(copied(bytes, at, buf)),
        }
    }

    fn create(&mut self, name: &str) -> Result<(), FileFault>
        ensures empty { OnOk result (bytes_at self.new name.now ≡ Some []) }
        ensures sure { result ≢ Err FileFault.Failed }
        ensures fault { OnErr result (Stays (bytes_at self.old) (bytes_at self.new)) }
        ensures others { OthersStay name.now (bytes_at self.old) (bytes_at self.new) }
    {
        self.entries.empty(name)?;
        Ok(())
    }

    fn append(&mut self, name: &str, bytes: &[u8]) -> Result<(), FileFault>
        ensures added { OnOk result
            (bytes_at self.new name.now ≡ Some (bytes_or_empty self.old name.now ++ bytes.now)) }
        ensures sure { result ≢ Err FileFault.Failed }
        ensures limit { OnOk result (IsWithinLimit (bytes_at self.new name.now)) }
        ensures fault { OnErr result (Stays (bytes_at self.old) (bytes_at self.new)) }
        ensures others { OthersStay name.now (bytes_at self.old) (bytes_at self.new) }
    {
        self.entries.extend(name, bytes)?;
        Ok(())
    }
}
