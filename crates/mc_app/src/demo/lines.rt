// The lines that are printed of the programs that come of a number.
ghost use Rattle.std.specs.Prelude.{IfOk};
ghost use Rattle.mc_app.specs.Demo.Demo.{IsDemo};

use crate::demo::print::{print_last, print_line};
use crate::demo::seen::{Seen, seen_of};
use mc_gen::program_of;
use std::alloc::{AllocError, Global};

// How many programs are made.
const PROGRAMS: u64 = 64;

/// What is printed of the programs that come of a number: each is made, analysed, and the document of its analysis judged.
pub fn demo_text(alloc: Global, number: u32) -> Result<Vec<u8>, AllocError>
    ensures { IfOk result (λ text. IsDemo number text.items) }
{
    let mut text = Vec::new(alloc);
    let mut all: Vec<Seen> = Vec::new(alloc);
    let mut x = number;
    for i in 0..PROGRAMS {
        let made = program_of(alloc, x)?;
        let seen = seen_of(alloc, &made.text)?;
        print_line(alloc, &mut text, i + 1, &made.kinds, &seen)?;
        all.push(seen)?;
        x = made.next;
    }
    print_last(alloc, &mut text, &all)?;
    Ok(text)
}
