// How many cases were tried, and those that differ.

use std::alloc::{AllocError, Global};
use std::io;
use std::process::ExitCode;

// The cases of one kind: how many were tried, and how many differ.
#[derive(Drop)]
struct Kind {
    name: String,
    tried: u64,
}

// A case that differs.
#[derive(Drop)]
struct Difference {
    kind: String,
    name: String,
    wanted: String,
    came: String,
}

/// How many cases of each kind were tried, and those where something else came than was wanted.
#[derive(Drop)]
pub struct Tally {
    alloc: Global,
    kinds: Vec<Kind>,
    differences: Vec<Difference>,
}

impl Tally {
    /// No case so far.
    pub fn new(alloc: Global) -> Tally {
        Tally {
            alloc,
            kinds: Vec::new(alloc),
            differences: Vec::new(alloc),
        }
    }

    /// Counts a case of a kind, and keeps it where what came is not what was wanted.
    pub fn tried(
        &mut self,
        kind: &str,
        name: &str,
        wanted: &str,
        came: &str,
    ) -> Result<(), AllocError> {
        self.count(kind)?;
        if wanted == came {
            Ok(())
        } else {
            self.keep(kind, name, wanted, came)
        }
    }

    /// Counts a case of a kind that could not be tried, and why.
    pub fn failed(&mut self, kind: &str, name: &str, why: &str) -> Result<(), AllocError> {
        self.count(kind)?;
        self.keep(kind, name, "a case", why)
    }

    /// Whether in no case something else came than was wanted.
    pub fn is_right(&self) -> bool {
        self.differences.is_empty()
    }

    /// Prints how many cases of each kind were tried, and each that differs. The status is 0 where none does, else 1.
    pub fn print(&self, rt: &impl Print) -> io::Result<ExitCode> {
        for kind in &self.kinds {
            println!(rt; "{}: {} tried", kind.name, kind.tried)?;
        }
        for one in &self.differences {
            println!(rt;
                "differs: {} {}: wanted {:?}, came {:?}",
                one.kind, one.name, one.wanted, one.came
            )?;
        }
        Ok(if self.is_right() {
            ExitCode::SUCCESS
        } else {
            ExitCode::FAILURE
        })
    }

    // Counts a case of a kind.
    fn count(&mut self, kind: &str) -> Result<(), AllocError> {
        for known in self.kinds.iter_mut() {
            if known.name.as_str() == kind {
                known.tried = known.tried.saturating_add(1);
                return Ok(());
            }
        }
        let name = String::from_str(self.alloc, kind)?;
        self.kinds.push(Kind { name, tried: 1 })?;
        Ok(())
    }

    // Keeps a case that differs.
    fn keep(&mut self, kind: &str, name: &str, wanted: &str, came: &str) -> Result<(), AllocError> {
        let difference = Difference {
            kind: String::from_str(self.alloc, kind)?,
            name: String::from_str(self.alloc, name)?,
            wanted: String::from_str(self.alloc, wanted)?,
            came: String::from_str(self.alloc, came)?,
        };
        self.differences.push(difference)?;
        Ok(())
    }
}
