// Calls that are counted from 1 and fail at the numbers listed.
ghost use Rattle.std.specs.Prelude.{◌≡◌, Ok, Err, if◌then◌else◌};
ghost use Rattle.mc_outside.specs.Calls.{no_calls, fails_next, one_call, one_fault, after_call};
ghost use Rattle.mc_outside.specs.Outside.{next};

use crate::FileFault;
use std::marker::Model;

// The next number, or the same where a count stands at its end.
pub fn one_more(count: u64) -> u64
    ensures { result ≡ next count }
{
    count.saturating_add(1)
}

#[derive(Drop)]
pub struct Calls {
    failing: Vec<u64>,
    made: u64,
    faults: u64,
}

impl Model for Calls {
    ghost use Rattle.mc_outside.specs.Calls.{CallCount};

    ghost Value = { CallCount };

    ghost view = { λ c. record { failing = c.failing.items; made = c.made; faults = c.faults } };
}

impl Calls {
    pub fn new(failing: Vec<u64>) -> Calls
        ensures { result ≡ no_calls failing.items }
    {
        Calls {
            failing,
            made: 0,
            faults: 0,
        }
    }

    // Counts a call, which fails where it is listed.
    pub fn begin(&mut self) -> Result<(), FileFault>
        ensures answer { result ≡ (if fails_next self.old then Err FileFault.Failed else Ok tt) }
        ensures counted { self.new ≡ after_call self.old result }
    {
        self.made = one_more(self.made);
        if self.failing.contains(&self.made) {
            return Err(self.fail());
        }
        Ok(())
    }

    // Counts a fault.
    pub fn fail(&mut self) -> FileFault
        ensures answer { result ≡ FileFault.Failed }
        ensures counted { self.new ≡ one_fault self.old }
    {
        self.faults = one_more(self.faults);
        FileFault::Failed
    }
}
