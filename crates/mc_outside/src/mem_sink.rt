// A sink in memory that fails at the calls listed.
ghost use Rattle.std.specs.Prelude.{◌≡◌, ◌++◌, [], Some, OnOk, OnErr};
ghost use Rattle.mc_outside.specs.Calls.{no_calls, fails_next, after_call, is_failed};

use crate::calls::Calls;
use crate::{FileFault, Sink};
use std::alloc::Global;
use std::marker::Model;

/// A sink in memory. Calls are counted from 1, and those listed fail.
#[derive(Drop)]
pub struct MemSink {
    bytes: Vec<u8>,
    calls: Calls,
}

impl Model for MemSink {
    ghost use Rattle.mc_outside.specs.Memory.{CountedBytes};

    ghost Value = { CountedBytes };

    ghost view = { λ s. record { bytes = s.bytes.items; calls = s.calls } };
}

impl MemSink {
    /// An empty sink, and the numbers of the calls that fail.
    pub fn new(alloc: Global, failing: Vec<u64>) -> MemSink
        ensures bytes { result.bytes ≡ [] }
        ensures calls { result.calls ≡ no_calls failing.items }
    {
        MemSink {
            bytes: Vec::new(alloc),
            calls: Calls::new(failing),
        }
    }

    /// What was written.
    pub fn bytes(&self) -> &[u8]
        ensures { result.now ≡ self.now.bytes }
    {
        self.bytes.as_slice()
    }
}

#[tactic(auto, using(crate::proofs::OutsideLemmas::adds_or_stays))]
impl Sink for MemSink {
    ghost written = { λ s. Some s.bytes };

    ghost faults = { λ s. s.calls.faults };

    fn write(&mut self, bytes: &[u8]) -> Result<(), FileFault>
        ensures failed { is_failed result ≡ fails_next self.old.calls }
        ensures added { OnOk result (self.new.bytes ≡ self.old.bytes ++ bytes.now) }
        ensures fault { OnErr result (self.new.bytes ≡ self.old.bytes) }
        ensures counted { self.new.calls ≡ after_call self.old.calls result }
    {
        self.calls.begin()?;
        self.bytes.extend_from_slice(bytes)?;
        Ok(())
    }
}
