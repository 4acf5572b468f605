// How a refusal is printed.
ghost use Rattle.mc_load.specs.Read.Printing.{cause_text, refusal_text};
ghost use Rattle.std.specs.Prelude.{◌≡◌, ◌++◌, OnOk, codes};

use crate::read::{Cause, Refusal};
use mc_base::text::print_place;
use std::alloc::{AllocError, Global};

fn print_cause(out: &mut Vec<u8>, cause: &Cause) -> Result<(), AllocError>
    ensures { OnOk result (out.new.items ≡ out.old.items ++ cause_text cause.now) }
{
    match cause {
        Cause::BadByte => out.extend_from_slice(b"BadByte"),
        Cause::OpenComment => out.extend_from_slice(b"OpenComment"),
        Cause::BadNumber => out.extend_from_slice(b"BadNumber"),
        Cause::Unexpected => out.extend_from_slice(b"Unexpected"),
        Cause::LeftOut(token) => print_left_out(out, token.as_slice()),
        Cause::Unknown => out.extend_from_slice(b"Unknown"),
        Cause::Mismatch => out.extend_from_slice(b"Mismatch"),
        Cause::Twice => out.extend_from_slice(b"Twice"),
        Cause::Recursion => out.extend_from_slice(b"Recursion"),
        Cause::NoEntry => out.extend_from_slice(b"NoEntry"),
        Cause::BadSizeof => out.extend_from_slice(b"BadSizeof"),
        Cause::Arity => out.extend_from_slice(b"Arity"),
    }
}

fn print_left_out(out: &mut Vec<u8>, token: &[u8]) -> Result<(), AllocError>
    ensures { OnOk result (out.new.items ≡ out.old.items ++ codes "LeftOut " ++ token.now) }
{
    out.extend_from_slice(b"LeftOut ")?;
    out.extend_from_slice(token)
}

impl Refusal {
    /// Prints what is wrong, and where.
    pub fn print(&self, alloc: Global, out: &mut Vec<u8>) -> Result<(), AllocError>
        ensures { OnOk result (out.new.items ≡ out.old.items ++ refusal_text self.now) }
    {
        print_cause(out, &self.cause)?;
        out.extend_from_slice(b" at ")?;
        print_place(alloc, out, self.place)
    }
}
