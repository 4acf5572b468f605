// What keeps a program from being typed.
use mc_base::text::Place;
use std::alloc::AllocError;
use thiserror::Error;

/// What is wrong with a program. At one place the first of these is known.
#[derive(Clone, Copy, Debug, PartialEq, Eq, Error)]
pub enum FaultName {
    /// A name that is not visible.
    #[error("Unknown")]
    Unknown,
    /// A type that does not fit, and every broken rule that has no other name.
    #[error("Mismatch")]
    Mismatch,
    /// A name that is introduced again.
    #[error("Twice")]
    Twice,
    /// A call whose callee can reach the caller.
    #[error("Recursion")]
    Recursion,
    /// No function without parameters has the entry's name.
    #[error("NoEntry")]
    NoEntry,
    /// A `malloc` of another struct than the left side points to.
    #[error("BadSizeof")]
    BadSizeof,
    /// A call with too many arguments, or too few.
    #[error("Arity")]
    Arity,
}

/// What is wrong, and where.
#[derive(Clone, Copy, Debug, PartialEq, Eq)]
pub struct Fault {
    pub name: FaultName,
    pub place: Place,
}

/// Why a program has no typed tree.
#[derive(Clone, Copy, Debug, PartialEq, Eq, Error)]
pub enum TypeFault {
    #[error("{}:{}: {}", .0.place.line, .0.place.column, .0.name)]
    Refused(Fault),
    #[error("out of memory")]
    NoMemory,
}

ghost use Rattle.mc_c_types.specs.declared.faults.TypeFault.TheVariants.{NoMemory};
ghost use Rattle.std.specs.Prelude.{◌≡◌};

impl From<AllocError> for TypeFault {
    ghost from_gives = { λ _ fault. fault ≡ NoMemory };

    fn from(_: AllocError) -> TypeFault {
        TypeFault::NoMemory
    }
}
