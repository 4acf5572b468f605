// An output that keeps what is known of its last write.

use mc_outside::{FileFault, Sink};

// The answer of an analysis that found neither a proof nor alarms.
const NOTHING_FOUND: &[u8] = b"program: NotYet\n";

/// An output, with whether the last write to it failed, and what that was.
#[derive(Drop)]
pub struct Watched<K: Sink + Drop> {
    out: K,
    has_failed: bool,
    says_nothing_found: bool,
}

impl<K: Sink + Drop> Watched<K> {
    /// An output to which nothing was written.
    pub fn new(out: K) -> Watched<K> {
        Watched {
            out,
            has_failed: false,
            says_nothing_found: false,
        }
    }

    /// Whether the last write failed.
    pub fn has_failed(&self) -> bool {
        self.has_failed
    }

    /// Whether the last write says that neither a proof nor alarms were found.
    pub fn says_nothing_found(&self) -> bool {
        self.says_nothing_found
    }
}

impl<K: Sink + Drop> Sink for Watched<K> {
    ghost written = { λ s. K.written s.out };

    ghost faults = { λ s. K.faults s.out };

    fn write(&mut self, bytes: &[u8]) -> Result<(), FileFault> {
        let answer = self.out.write(bytes);
        self.has_failed = matches!(answer, Err(FileFault::Failed));
        self.says_nothing_found = bytes == NOTHING_FOUND;
        answer
    }
}
