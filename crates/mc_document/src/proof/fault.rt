// Why a line is not applied, and what a whole document is.
ghost use Rattle.std.specs.Prelude.{◌≡◌};
ghost use Rattle.mc_document.specs.declared.proof.fault.ApplyFault.TheVariants.{NoMemory};

use mc_state::Form;
use std::alloc::{AllocError, AllocFailed};

/// Why a line is not applied.
#[derive(Clone, Copy, Debug, PartialEq, Eq)]
pub enum ApplyFault {
    /// The premise of this number is the first that is unmet.
    Premise(u8),
    NoMemory,
}

impl From<AllocError> for ApplyFault {
    ghost from_gives = { λ _ e. e ≡ NoMemory };

    fn from(_: AllocError) -> Self {
        ApplyFault::NoMemory
    }
}

impl<T: Drop> From<AllocFailed<T>> for ApplyFault {
    ghost from_gives = { λ _ e. e ≡ NoMemory };

    fn from(_: AllocFailed<T>) -> Self {
        ApplyFault::NoMemory
    }
}

/// What a whole document is.
#[derive(Clone, Copy, Debug, PartialEq, Eq)]
pub struct Complete {
    pub form: Form,
    /// How many branches are stuck.
    pub alarms: u64,
}
