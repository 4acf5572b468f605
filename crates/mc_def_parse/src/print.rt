// How a refusal is printed.
ghost use Rattle.mc_def_parse.specs.Printing.{cause_text, refusal_text};
ghost use Rattle.std.specs.Prelude.{◌≡◌, ◌++◌, OnOk, codes};

use crate::fault::{Cause, Refusal};
use mc_base::text::print_place;
use std::alloc::{AllocError, Global};

fn print_cause(out: &mut Vec<u8>, cause: Cause) -> Result<(), AllocError>
    ensures { OnOk result (out.new.items ≡ out.old.items ++ cause_text cause) }
{
    match cause {
        Cause::Syntax => out.extend_from_slice(b"Syntax"),
        Cause::UnknownName => out.extend_from_slice(b"UnknownName"),
        Cause::Kind => out.extend_from_slice(b"Kind"),
        Cause::Twice => out.extend_from_slice(b"Twice"),
        Cause::Unguarded => out.extend_from_slice(b"Unguarded"),
        Cause::Undetermined => out.extend_from_slice(b"Undetermined"),
        Cause::MissingField => out.extend_from_slice(b"MissingField"),
        Cause::Arity => out.extend_from_slice(b"Arity"),
    }
}

impl Refusal {
    /// Prints what is wrong, and where.
    pub fn print(&self, alloc: Global, out: &mut Vec<u8>) -> Result<(), AllocError>
        ensures { OnOk result (out.new.items ≡ out.old.items ++ refusal_text self.now) }
    {
        print_cause(out, self.cause)?;
        out.extend_from_slice(b" at ")?;
        print_place(alloc, out, self.place)
    }
}
