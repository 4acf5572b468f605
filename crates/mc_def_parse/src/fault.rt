// Why a text gives no definitions.
ghost use Rattle.mc_def_parse.specs.declared.fault.DefFault.TheVariants.{NoMemory, Refused};
ghost use Rattle.std.specs.Prelude.{◌≡◌};

use mc_base::text::Place;
use std::alloc::AllocError;
use thiserror::Error;

/// What is wrong with a definition file.
#[derive(Clone, Copy, Debug, PartialEq, Eq)]
pub enum Cause {
    /// A byte or a token that no definition file can have there.
    Syntax,
    /// A struct, a field or a predicate that is not there.
    UnknownName,
    /// A name or a number of another kind.
    Kind,
    /// A name that is introduced again, or a field that is named again.
    Twice,
    /// A call in a rule without a block.
    Unguarded,
    /// A name that is not introduced before.
    Undetermined,
    /// A block that does not name each field.
    MissingField,
    /// A call with too many arguments, or too few.
    Arity,
}

/// What is wrong, and where.
#[derive(Clone, Copy, Debug, PartialEq, Eq)]
pub struct Refusal {
    pub cause: Cause,
    pub place: Place,
}

/// Why a text gives no definitions.
#[derive(Clone, Copy, Debug, PartialEq, Eq, Error)]
pub enum DefFault {
    #[error("{}:{}: {:?}", .0.place.line, .0.place.column, .0.cause)]
    Refused(Refusal),
    #[error("out of memory")]
    NoMemory,
}

impl From<AllocError> for DefFault {
    ghost from_gives = { λ _ fault. fault ≡ NoMemory };

    fn from(_: AllocError) -> DefFault {
        DefFault::NoMemory
    }
}

impl From<Refusal> for DefFault {
    ghost from_gives = { λ refusal fault. fault ≡ Refused refusal };

    fn from(refusal: Refusal) -> DefFault {
        DefFault::Refused(refusal)
    }
}
