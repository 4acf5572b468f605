// Why bytes are no line.
ghost use Rattle.std.specs.Prelude.{◌≡◌};
ghost use Rattle.mc_lines.specs.declared.cert.fault.LineFault.TheVariants.{NoMemory};

use std::alloc::{AllocError, AllocFailed};
use thiserror::Error;

/// Why bytes are no line.
#[derive(Clone, Copy, Debug, PartialEq, Eq, Error)]
pub enum LineFault {
    /// They are no JSON value.
    #[error("no JSON")]
    NotJson,
    /// They are a JSON value of another form.
    #[error("no line of a document")]
    Form,
    /// They are a header of a version that is not read.
    #[error("another version")]
    Version,
    #[error("out of memory")]
    NoMemory,
}

impl From<AllocError> for LineFault {
    ghost from_gives = { λ _ e. e ≡ NoMemory };

    fn from(_: AllocError) -> LineFault {
        LineFault::NoMemory
    }
}

impl<T: Drop> From<AllocFailed<T>> for LineFault {
    ghost from_gives = { λ _ e. e ≡ NoMemory };

    fn from(_: AllocFailed<T>) -> LineFault {
        LineFault::NoMemory
    }
}
