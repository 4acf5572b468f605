// Why a text is refused.
ghost use Rattle.mc_load.specs.Read.Causes.{typing_cause, typing_refusal, fault_of, lexical_refusal, grammatical_refusal};
ghost use Rattle.mc_load.specs.declared.read.cause.ReadFault.TheVariants.{NoMemory};
ghost use Rattle.std.specs.Prelude.{◌≡◌};

use mc_base::text::{Place, Text};
use mc_c_parse::ParseFault;
use mc_c_syntax::lex::LexFault;
use mc_c_types::{Fault, FaultName, TypeFault};
use std::alloc::AllocError;

/// What is wrong with a text.
#[derive(Drop)]
pub enum Cause {
    /// A byte that starts no token.
    BadByte,
    /// A comment that does not end.
    OpenComment,
    /// A word that begins with a digit and is no number.
    BadNumber,
    /// A token that no program can have there.
    Unexpected,
    /// The same, where it is a part of C that the language leaves out, with the token's bytes.
    LeftOut(Text),
    /// A name that is not visible.
    Unknown,
    /// A type that does not fit, and every broken rule that has no other name.
    Mismatch,
    /// A name that is introduced again.
    Twice,
    /// A call whose callee can reach the caller.
    Recursion,
    /// No function without parameters has the entry's name.
    NoEntry,
    /// A `malloc` of another struct than the left side points to.
    BadSizeof,
    /// A call with too many arguments, or too few.
    Arity,
}

/// What is wrong, and where.
#[derive(Drop)]
pub struct Refusal {
    pub cause: Cause,
    pub place: Place,
}

/// Why a text gives no program.
#[derive(Drop)]
pub enum ReadFault {
    Refused(Refusal),
    NoMemory,
}

impl From<AllocError> for ReadFault {
    ghost from_gives = { λ _ fault. fault ≡ NoMemory };

    fn from(_: AllocError) -> ReadFault {
        ReadFault::NoMemory
    }
}

fn refused(cause: Cause, place: Place) -> ReadFault
    ensures { result ≡ ReadFault.Refused (record { cause = cause; place = place }) }
{
    ReadFault::Refused(Refusal { cause, place })
}

/// What a fault of bytes is known as.
pub fn of_lexical(fault: LexFault) -> ReadFault
    ensures { result ≡ fault_of (lexical_refusal fault) }
{
    match fault {
        LexFault::BadByte(place) => refused(Cause::BadByte, place),
        LexFault::OpenComment(place) => refused(Cause::OpenComment, place),
        LexFault::BadNumber(place) => refused(Cause::BadNumber, place),
        LexFault::NoMemory => ReadFault::NoMemory,
    }
}

/// What a fault of tokens is known as.
pub fn of_grammatical(fault: ParseFault) -> ReadFault
    ensures { result ≡ fault_of (grammatical_refusal fault) }
{
    match fault {
        ParseFault::Unexpected(place) => refused(Cause::Unexpected, place),
        ParseFault::LeftOut(text, place) => refused(Cause::LeftOut(text), place),
        ParseFault::NoMemory => ReadFault::NoMemory,
    }
}

fn of_name(name: FaultName) -> Cause
    ensures { result ≡ typing_cause name }
{
    match name {
        FaultName::Unknown => Cause::Unknown,
        FaultName::Mismatch => Cause::Mismatch,
        FaultName::Twice => Cause::Twice,
        FaultName::Recursion => Cause::Recursion,
        FaultName::NoEntry => Cause::NoEntry,
        FaultName::BadSizeof => Cause::BadSizeof,
        FaultName::Arity => Cause::Arity,
    }
}

impl Refusal {
    /// What a fault of types, or of a shape command, is known as.
    pub fn of_typing(fault: Fault) -> Refusal
        ensures { result ≡ typing_refusal fault }
    {
        Refusal {
            cause: of_name(fault.name),
            place: fault.place,
        }
    }
}
