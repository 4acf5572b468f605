// Files in memory, one entry for each.
ghost use Rattle.std.specs.Prelude.{◌≡◌, ◌++◌, [], None, Some, OnOk, OnErr};
ghost use Rattle.std.specs.List.{position};
ghost use Rattle.std.specs.Option.{option_copied};
ghost use Rattle.mc_outside.specs.Entries.{bytes_at, bytes_or_empty, is_named, read_len, IsFilled};
ghost use Rattle.mc_outside.specs.Outside.{OthersStay, Stays, IsWithinLimit};

use std::alloc::{AllocError, Global};
use std::marker::Model;

// Copies what lies from a place on into the front of the buffer, and answers how many bytes.
pub fn copied(bytes: &[u8], at: u64, buf: &mut [u8]) -> usize
    ensures count { result ≡ read_len bytes.now at buf.old }
    ensures filled { IsFilled bytes.now at result buf.old buf.new }
{
    if at >= bytes.len() as u64 {
        return 0;
    }
    let rest = &bytes[at as usize..];
    let n = rest.len().min(buf.len());
    buf[..n].copy_from_slice(&rest[..n]);
    n
}

#[derive(Drop)]
pub struct Entries {
    alloc: Global,
    entries: Vec<(String, Vec<u8>)>,
}

impl Model for Entries {
    ghost use Rattle.mc_outside.specs.Entries.{Entries};

    ghost Value = { Entries };

    ghost view = { λ e. e.entries.items };
}

impl Entries {
    pub fn new(alloc: Global, entries: Vec<(String, Vec<u8>)>) -> Entries
        ensures { result ≡ entries.items }
    {
        Entries { alloc, entries }
    }

    // What the first entry of a name holds.
    pub fn bytes(&self, name: &str) -> Option<&[u8]>
        ensures { option_copied result ≡ bytes_at self.now name.now }
    {
        let entry = self.entries.iter().find(|entry| entry.0.as_str() == name)?;
        Some(entry.1.as_slice())
    }

    // Where the first entry of a name stands.
    fn place(&self, name: &str) -> Option<usize>
        ensures { result ≡ position (is_named name.now) self.now }
    {
        self.entries
            .iter()
            .position(|entry| entry.0.as_str() == name)
    }

    // Makes a file empty, whether or not it was there.
    pub fn empty(&mut self, name: &str) -> Result<(), AllocError>
        ensures ok { OnOk result (bytes_at self.new name.now ≡ Some []) }
        ensures err { OnErr result (self.new ≡ self.old) }
        ensures others { OthersStay name.now (bytes_at self.old) (bytes_at self.new) }
    {
        match self.place(name) {
            None => self.add(name, &[]),
            Some(place) => {
                self.entries[place].1.clear();
                Ok(())
            }
        }
    }

    // Adds bytes at the end of a file. A missing file counts as an empty one.
    pub fn extend(&mut self, name: &str, bytes: &[u8]) -> Result<(), AllocError>
        ensures ok { OnOk result
            (bytes_at self.new name.now ≡ Some (bytes_or_empty self.old name.now ++ bytes.now)) }
        ensures limit { OnOk result (IsWithinLimit (bytes_at self.new name.now)) }
        ensures err { OnErr result (Stays (bytes_at self.old) (bytes_at self.new)) }
        ensures others { OthersStay name.now (bytes_at self.old) (bytes_at self.new) }
    {
        match self.place(name) {
            None => self.add(name, bytes),
            Some(place) => {
                self.entries[place].1.extend_from_slice(bytes)?;
                Ok(())
            }
        }
    }

    // A new entry that holds these bytes.
    fn add(&mut self, name: &str, bytes: &[u8]) -> Result<(), AllocError>
        requires { position (is_named name.now) self.old ≡ None }
        ensures ok { OnOk result (bytes_at self.new name.now ≡ Some bytes.now) }
        ensures err { OnErr result (self.new ≡ self.old) }
        ensures others { OthersStay name.now (bytes_at self.old) (bytes_at self.new) }
    {
        let name = String::from_str(self.alloc, name)?;
        let bytes = Vec::from_slice(self.alloc, bytes)?;
        self.entries.push((name, bytes))?;
        Ok(())
    }
}
