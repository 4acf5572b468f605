// What is printed of programs that were made.
ghost use Rattle.std.specs.Prelude.{◌≡◌, ◌++◌, OnOk};
ghost use Rattle.mc_app.specs.Demo.Demo.{count, has_alarms, is_limit, is_safe, kinds_text, last_text, line_text, seen_text};

use crate::demo::seen::Seen;
use crate::verdict_text::print_verdict;
use mc_base::text::print_number;
use mc_gen::BlockKind;
use std::alloc::{AllocError, Global};

// The kinds of blocks, a blank before each.
#[tactic(auto, unfolding(crate::specs::Demo::Demo::kinds_text))]
fn print_kinds(alloc: Global, out: &mut Vec<u8>, kinds: &[BlockKind]) -> Result<(), AllocError>
    ensures { OnOk result (out.new.items ≡ out.old.items ++ kinds_text kinds.now) }
{
    for kind in kinds {
        out.extend_from_slice(b" ")?;
        print_number(alloc, out, kind.number())?;
    }
    Ok(())
}

fn print_seen(alloc: Global, out: &mut Vec<u8>, seen: &Seen) -> Result<(), AllocError>
    ensures { OnOk result (out.new.items ≡ out.old.items ++ seen_text seen.now) }
{
    match seen {
        Seen::Unread => out.extend_from_slice(b"unread"),
        Seen::NotYet => out.extend_from_slice(b"NotYet"),
        Seen::Paths => out.extend_from_slice(b"limit: Paths"),
        Seen::Judged(verdict) => print_verdict(alloc, out, verdict),
    }
}

/// Adds the line of the program of this number.
#[tactic(auto, unfolding(crate::specs::Demo::Demo::line_text))]
pub fn print_line(
    alloc: Global,
    out: &mut Vec<u8>,
    number: u64,
    kinds: &[BlockKind],
    seen: &Seen,
) -> Result<(), AllocError>
    ensures { OnOk result (out.new.items ≡ out.old.items ++ line_text number kinds.now seen.now) }
{
    print_number(alloc, out, number)?;
    out.extend_from_slice(b":")?;
    print_kinds(alloc, out, kinds)?;
    out.extend_from_slice(b": ")?;
    print_seen(alloc, out, seen)?;
    out.extend_from_slice(b"\n")
}

// How many programs are safe.
fn count_safe(seen: &[Seen]) -> u64
    ensures { result ≡ count is_safe seen.now }
{
    seen.iter().filter(|one| one.is_safe()).count() as u64
}

// How many have alarms.
fn count_alarms(seen: &[Seen]) -> u64
    ensures { result ≡ count has_alarms seen.now }
{
    seen.iter().filter(|one| one.has_alarms()).count() as u64
}

// How many came to the limit.
fn count_limits(seen: &[Seen]) -> u64
    ensures { result ≡ count is_limit seen.now }
{
    seen.iter().filter(|one| one.is_limit()).count() as u64
}

/// Adds the line that counts them.
#[tactic(auto, unfolding(crate::specs::Demo::Demo::last_text))]
pub fn print_last(alloc: Global, out: &mut Vec<u8>, seen: &[Seen]) -> Result<(), AllocError>
    ensures { OnOk result (out.new.items ≡ out.old.items ++ last_text seen.now) }
{
    out.extend_from_slice(b"demo: ")?;
    print_number(alloc, out, count_safe(seen))?;
    out.extend_from_slice(b" safe, ")?;
    print_number(alloc, out, count_alarms(seen))?;
    out.extend_from_slice(b" alarms, ")?;
    print_number(alloc, out, count_limits(seen))?;
    out.extend_from_slice(b" limits\n")
}
