// Files and a sink, by what they hold and by the count of their faults.
ghost use Rattle.std.specs.Prelude.{◌≡◌, ◌≤◌, List, ℕ, Option, IfOk, length};
ghost use Rattle.mc_outside.specs.declared.outside.FileFault.TheVariants.{NoMemory};
ghost use Rattle.mc_outside.specs.Outside.{HasCause, Stays, OthersStay, SizeIs, ReadIs, Empties, AddsIfTold, GrowsWithin, file_limit};

use std::alloc::{AllocError, AllocFailed};

/// Why a call on files or on a sink failed: the device, or out of memory.
#[derive(Clone, Copy, Debug, PartialEq, Eq)]
pub enum FileFault {
    Failed,
    NoMemory,
}

impl From<AllocError> for FileFault {
    ghost from_gives = { λ _ e. e ≡ NoMemory };

    fn from(_: AllocError) -> Self {
        FileFault::NoMemory
    }
}

impl<T: Drop> From<AllocFailed<T>> for FileFault {
    ghost from_gives = { λ _ e. e ≡ NoMemory };

    fn from(_: AllocFailed<T>) -> Self {
        FileFault::NoMemory
    }
}

/// Files, each with a name. Every call answers `Failed` only where the count of faults rose, and the
/// count rises only there. A count that stands at 18446744073709551615 stays there.
pub trait Files {
    /// What a name holds, where this is known.
    ghost holds: { Self → List ℕ → Option (List ℕ) };

    /// How often a call failed.
    ghost faults: { Self → ℕ };

    /// The length of a file in bytes. A missing file is `Failed`, or counts as an empty one in a type
    /// that says so.
    fn size(&mut self, name: &str) -> Result<u64, FileFault>
        ensures size { SizeIs (holds self.old name.now) result }
        ensures limit { IfOk result (λ n. n ≤ file_limit) }
        ensures same { Stays (holds self.old) (holds self.new) }
        ensures cause { HasCause (faults self.old) (faults self.new) result };

    /// Copies bytes from a place on into the front of the buffer, and answers how many. A buffer that
    /// is not empty gets none only at or past the end. A missing file is as for `size`.
    fn read_at(&mut self, name: &str, at: u64, buf: &mut [u8]) -> Result<usize, FileFault>
        ensures bound { IfOk result (λ n. n ≤ length buf.new) }
        ensures read { ReadIs (holds self.old name.now) at buf.new result }
        ensures same { Stays (holds self.old) (holds self.new) }
        ensures cause { HasCause (faults self.old) (faults self.new) result };

    /// Makes a file empty, whether or not it was there.
    fn create(&mut self, name: &str) -> Result<(), FileFault>
        ensures empties { Empties name.now (holds self.old) (holds self.new) result }
        ensures others { OthersStay name.now (holds self.old) (holds self.new) }
        ensures cause { HasCause (faults self.old) (faults self.new) result };

    /// Adds all the bytes at the end of a file, or after a fault the first of them. A file never grows
    /// past 9223372036854775807 bytes: a call that would grow it so is refused.
    fn append(&mut self, name: &str, bytes: &[u8]) -> Result<(), FileFault>
        ensures adds { AddsIfTold (holds self.old name.now) bytes.now (holds self.new name.now) result }
        ensures limit { GrowsWithin (holds self.old name.now) (holds self.new name.now) }
        ensures others { OthersStay name.now (holds self.old) (holds self.new) }
        ensures cause { HasCause (faults self.old) (faults self.new) result };
}

/// What is written to. Its faults are counted as those of `Files`.
pub trait Sink {
    /// What was written, where this is known.
    ghost written: { Self → Option (List ℕ) };

    /// How often a call failed.
    ghost faults: { Self → ℕ };

    /// Adds all the bytes, or after a fault the first of them.
    fn write(&mut self, bytes: &[u8]) -> Result<(), FileFault>
        ensures adds { AddsIfTold (written self.old) bytes.now (written self.new) result }
        ensures cause { HasCause (faults self.old) (faults self.new) result };
}
