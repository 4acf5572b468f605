// What keeps a text from being read.
ghost use Rattle.mc_c_syntax.specs.declared.lex.fault.LexFault.TheVariants.{NoMemory};
ghost use Rattle.std.specs.Prelude.{◌≡◌};

use mc_base::text::{Place, Token};
use std::alloc::{AllocError, AllocFailed};
use thiserror::Error;

/// Why a text has no tokens, and where.
#[derive(Clone, Copy, Debug, PartialEq, Eq, Error)]
pub enum LexFault {
    /// A byte that starts no token.
    #[error("{}:{}: a byte that starts no token", .0.line, .0.column)]
    BadByte(Place),
    /// A comment that does not end, at its `/*`.
    #[error("{}:{}: a comment that does not end", .0.line, .0.column)]
    OpenComment(Place),
    /// A word that begins with a digit and is no number up to 2147483647.
    #[error("{}:{}: no number up to 2147483647", .0.line, .0.column)]
    BadNumber(Place),
    #[error("out of memory")]
    NoMemory,
}

impl From<AllocError> for LexFault {
    ghost from_gives = { λ _ fault. fault ≡ NoMemory };

    fn from(_: AllocError) -> LexFault {
        LexFault::NoMemory
    }
}

impl From<AllocFailed<Token>> for LexFault {
    ghost from_gives = { λ _ fault. fault ≡ NoMemory };

    fn from(_: AllocFailed<Token>) -> LexFault {
        LexFault::NoMemory
    }
}
