// How numbers and places are printed.
ghost use Rattle.mc_base.specs.Text.Places.{place_text};
ghost use Rattle.std.specs.Fmt.{decimal};
ghost use Rattle.std.specs.Prelude.{◌≡◌, ◌++◌, OnOk};

use crate::text::place::Place;
use std::alloc::{AllocError, Global};

/// Adds a number in decimal digits.
pub fn print_number(alloc: Global, out: &mut Vec<u8>, number: u64) -> Result<(), AllocError>
    ensures { OnOk result (out.new.items ≡ out.old.items ++ decimal number) }
{
    let text = format!(in alloc; "{number}")?;
    out.extend_from_slice(text.as_bytes())
}

/// Adds a place: its line, a colon and its column.
pub fn print_place(alloc: Global, out: &mut Vec<u8>, place: Place) -> Result<(), AllocError>
    ensures { OnOk result (out.new.items ≡ out.old.items ++ place_text place) }
{
    print_number(alloc, out, place.line as u64)?;
    out.extend_from_slice(b":")?;
    print_number(alloc, out, place.column as u64)
}
