// What is printed of checks.
ghost use Rattle.std.specs.Fmt.{decimal};
ghost use Rattle.std.specs.Prelude.{◌≡◌, ◌++◌, OnOk, codes};
ghost use Rattle.mc_app.specs.Printing.{checked_text, line_text, line_fault_text, mistake_text, verdict_text};

use crate::checking::Checked;
use mc_base::text::print_number;
use mc_judge::judge::{Refusal, Verdict};
use mc_lines::cert::LineFault;
use std::alloc::{AllocError, Global};

// The number of a line, and a comma after it.
fn print_line(alloc: Global, out: &mut Vec<u8>, number: u64) -> Result<(), AllocError>
    ensures { OnOk result (out.new.items ≡ out.old.items ++ line_text number) }
{
    out.extend_from_slice(b"line ")?;
    print_number(alloc, out, number)?;
    out.extend_from_slice(b", ")
}

fn print_line_fault(out: &mut Vec<u8>, fault: LineFault) -> Result<(), AllocError>
    ensures { OnOk result (out.new.items ≡ out.old.items ++ line_fault_text fault) }
{
    match fault {
        LineFault::NotJson => out.extend_from_slice(b"NotJson"),
        LineFault::Form => out.extend_from_slice(b"Form"),
        LineFault::Version => out.extend_from_slice(b"Version"),
        LineFault::NoMemory => out.extend_from_slice(b"NoMemory"),
    }
}

// The name of a line, and the number of its premise.
fn print_premise(
    alloc: Global,
    out: &mut Vec<u8>,
    name: &str,
    premise: u8,
) -> Result<(), AllocError>
    ensures { OnOk result (out.new.items ≡ out.old.items ++ name.now ++ codes ", premise " ++ decimal premise) }
{
    out.extend_from_slice(name.as_bytes())?;
    out.extend_from_slice(b", premise ")?;
    print_number(alloc, out, premise as u64)
}

fn print_mistake(alloc: Global, out: &mut Vec<u8>, refusal: &Refusal) -> Result<(), AllocError>
    ensures { OnOk result (out.new.items ≡ out.old.items ++ mistake_text refusal.now) }
{
    match refusal {
        Refusal::Line(number, fault) => {
            print_line(alloc, out, *number)?;
            print_line_fault(out, *fault)?;
        }
        Refusal::Rule(number, name, premise) => {
            print_line(alloc, out, *number)?;
            print_premise(alloc, out, name, *premise)?;
        }
        Refusal::AfterEnd(number) => {
            print_line(alloc, out, *number)?;
            out.extend_from_slice(b"after the end")?;
        }
        Refusal::EndsEarly => out.extend_from_slice(b"ends early")?,
        Refusal::NoAlarm => out.extend_from_slice(b"no alarm")?,
        Refusal::Unfinished => out.extend_from_slice(b"unfinished")?,
    }
    Ok(())
}

/// Adds a verdict.
pub fn print_verdict(alloc: Global, out: &mut Vec<u8>, verdict: &Verdict) -> Result<(), AllocError>
    ensures { OnOk result (out.new.items ≡ out.old.items ++ verdict_text verdict.now) }
{
    match verdict {
        Verdict::Safe => out.extend_from_slice(b"safe")?,
        Verdict::Alarms(count) => {
            out.extend_from_slice(b"alarms: ")?;
            print_number(alloc, out, *count)?;
        }
        Verdict::Refused(refusal) => {
            out.extend_from_slice(b"refused: ")?;
            print_mistake(alloc, out, refusal)?;
        }
    }
    Ok(())
}

impl Checked {
    /// Adds the text that tells of it.
    pub fn print(&self, alloc: Global, out: &mut Vec<u8>) -> Result<(), AllocError>
        ensures { OnOk result (out.new.items ≡ out.old.items ++ checked_text self.now) }
    {
        match self {
            Checked::TooLong => out.extend_from_slice(b"program: TooLong"),
            Checked::Judged(verdict) => print_verdict(alloc, out, verdict),
        }
    }
}
