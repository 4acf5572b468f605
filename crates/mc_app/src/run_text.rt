// What is printed of runs.
ghost use Rattle.std.specs.Prelude.{◌≡◌, ◌++◌, OnOk, codes};
ghost use Rattle.mc_base.specs.Text.Places.{place_text};
ghost use Rattle.mc_app.specs.Printing.{ending_text, kind_text, ran_text};

use crate::running::Ran;
use mc_base::FaultKind;
use mc_base::text::{Place, print_number, print_place};
use mc_run::interpret::Ending;
use std::alloc::{AllocError, Global};

fn print_kind(out: &mut Vec<u8>, kind: FaultKind) -> Result<(), AllocError>
    ensures { OnOk result (out.new.items ≡ out.old.items ++ kind_text kind) }
{
    match kind {
        FaultKind::Null => out.extend_from_slice(b"null"),
        FaultKind::Freed => out.extend_from_slice(b"freed"),
        FaultKind::Uninit => out.extend_from_slice(b"uninit"),
        FaultKind::BadFree => out.extend_from_slice(b"badfree"),
        FaultKind::Assertion => out.extend_from_slice(b"assertion"),
        FaultKind::Shape => out.extend_from_slice(b"shape"),
        FaultKind::NotEmpty => out.extend_from_slice(b"notempty"),
    }
}

// A kind of fault, and its place.
fn print_fault(
    alloc: Global,
    out: &mut Vec<u8>,
    kind: FaultKind,
    place: Place,
) -> Result<(), AllocError>
    ensures { OnOk result (out.new.items ≡ out.old.items ++ codes "fault: " ++ kind_text kind ++ codes " at " ++ place_text place) }
{
    out.extend_from_slice(b"fault: ")?;
    print_kind(out, kind)?;
    out.extend_from_slice(b" at ")?;
    print_place(alloc, out, place)
}

fn print_ending(alloc: Global, out: &mut Vec<u8>, ending: Ending) -> Result<(), AllocError>
    ensures { OnOk result (out.new.items ≡ out.old.items ++ ending_text ending) }
{
    match ending {
        Ending::Ended => out.extend_from_slice(b"ended")?,
        Ending::Stopped => out.extend_from_slice(b"stopped")?,
        Ending::Fault(kind, place) => print_fault(alloc, out, kind, place)?,
        Ending::FuelSpent => out.extend_from_slice(b"limit: fuel")?,
        Ending::Short(number) => {
            out.extend_from_slice(b"script: short at ")?;
            print_number(alloc, out, number)?;
        }
        Ending::Bad(number) => {
            out.extend_from_slice(b"script: bad at ")?;
            print_number(alloc, out, number)?;
        }
    }
    Ok(())
}

impl Ran {
    /// Adds the text that tells of it.
    pub fn print(&self, alloc: Global, out: &mut Vec<u8>) -> Result<(), AllocError>
        ensures { OnOk result (out.new.items ≡ out.old.items ++ ran_text self.now) }
    {
        match self {
            Ran::TooBig => out.extend_from_slice(b"script: TooBig"),
            Ran::To(ending) => print_ending(alloc, out, *ending),
        }
    }
}
