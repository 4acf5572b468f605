// Reads a line.
ghost use Rattle.std.specs.Prelude.{◌≡◌, ◌≢◌, ◌∷◌, [], ◌↔◌, IfErr, IsTrue, MatchOption, codes, map};
ghost use Rattle.serde_json.specs.View.{view};
ghost use Rattle.mc_lines.specs.declared.cert.line.Line.{Line as Form};
ghost use Rattle.mc_lines.specs.Cert.Document.{IsWholeNumber, LineFits, LineReadsAs, ReadsAs, SpellsNone, data_of};
ghost use Rattle.mc_lines.specs.Cert.Entries.{named_data};
ghost use Rattle.mc_lines.specs.Cert.Reads.{Reads};

use crate::cert::entry::{Entry, three, two};
use crate::cert::parts::named;
use crate::cert::rules::rule_named;
use crate::cert::{Line, LineFault};
use mc_state::{FoldInd, FoldSeg, Version};
use serde_json::Value;
use std::alloc::Global;

// The line of a name alone.
fn plain(name: &str) -> Option<Line>
    ensures { MatchOption result ((line : Form) → named_data name.now [] ≢ data_of line)
        (λ line. (named_data name.now [] ≡ data_of line) × LineFits line) }
{
    match name {
        "pass" => Some(Line::Pass),
        "end" => Some(Line::End),
        "L12" => Some(Line::L12),
        "C1" => Some(Line::C1),
        _ => match rule_named(name) {
            Some(rule) => Some(Line::Step(rule)),
            None => None,
        },
    }
}

// The line of a name and an entry.
fn of_one(alloc: Global, name: &str, a: &Value) -> Result<Line, LineFault>
    ensures { Reads data_of LineFits (named_data name.now (view a.now ∷ [])) result }
{
    match name {
        "cut" => Ok(Line::Cut(Entry::read(alloc, a)?)),
        "L1" => Ok(Line::L1(Entry::read(alloc, a)?)),
        "L2" => Ok(Line::L2(Entry::read(alloc, a)?)),
        "L10" => Ok(Line::L10(Entry::read(alloc, a)?)),
        "L11" => Ok(Line::L11(Entry::read(alloc, a)?)),
        "L14" => Ok(Line::L14(Entry::read(alloc, a)?)),
        "L15" => Ok(Line::L15(Entry::read(alloc, a)?)),
        "C2" => Ok(Line::C2(Entry::read(alloc, a)?)),
        _ => Err(LineFault::Form),
    }
}

// A header.
fn header(alloc: Global, version: &Value, form: &Value) -> Result<Line, LineFault>
    ensures { LineReadsAs (named_data (codes "memcad") (view version.now ∷ view form.now ∷ [])) result }
{
    let form = Entry::read(alloc, form)?;
    if version.as_u64() == Some(1) {
        Ok(Line::Header(Version::One, form))
    } else if is_whole(version) {
        Err(LineFault::Version)
    } else {
        Err(LineFault::Form)
    }
}

fn is_whole(value: &Value) -> bool
    ensures { IsTrue result ↔ IsWholeNumber (view value.now) }
{
    value.is_u64() || value.is_i64()
}

// The line of a name, but that of a header, and two entries.
fn of_two(alloc: Global, name: &str, a: &Value, b: &Value) -> Result<Line, LineFault>
    requires { name.now ≢ codes "memcad" }
    ensures { Reads data_of LineFits (named_data name.now (view a.now ∷ view b.now ∷ [])) result }
{
    match name {
        "head" => {
            let (point, state) = two(alloc, a, b)?;
            Ok(Line::Head(point, state))
        }
        "L5" => {
            let (first, second) = two(alloc, a, b)?;
            Ok(Line::L5(first, second))
        }
        "L6" => {
            let (first, second) = two(alloc, a, b)?;
            Ok(Line::L6(first, second))
        }
        "L9" => {
            let (keep, gone) = two(alloc, a, b)?;
            Ok(Line::L9(keep, gone))
        }
        "C3" => {
            let (disjunct, steps) = two(alloc, a, b)?;
            Ok(Line::C3(disjunct, steps))
        }
        _ => Err(LineFault::Form),
    }
}

// A header, or the line of another name and two entries.
fn header_or_two(alloc: Global, name: &str, a: &Value, b: &Value) -> Result<Line, LineFault>
    ensures { LineReadsAs (named_data name.now (view a.now ∷ view b.now ∷ [])) result }
{
    if name == "memcad" {
        header(alloc, a, b)
    } else {
        of_two(alloc, name, a, b)
    }
}

// The line of a name and three entries.
fn of_three(alloc: Global, name: &str, a: &Value, b: &Value, c: &Value) -> Result<Line, LineFault>
    ensures { Reads data_of LineFits (named_data name.now (view a.now ∷ view b.now ∷ view c.now ∷ [])) result }
{
    match name {
        "L8" => {
            let (node, add, kind) = three(alloc, a, b, c)?;
            Ok(Line::L8(node, add, kind))
        }
        "L13" => {
            let (disjunct, images, edges) = three(alloc, a, b, c)?;
            Ok(Line::L13(disjunct, images, edges))
        }
        _ => Err(LineFault::Form),
    }
}

// The line of a name and five entries.
fn of_five(
    alloc: Global,
    name: &str,
    a: &Value,
    b: &Value,
    c: &Value,
    d: &Value,
    e: &Value,
) -> Result<Line, LineFault>
    ensures { Reads data_of LineFits (named_data name.now (view a.now ∷ view b.now ∷ view c.now ∷ view d.now ∷ view e.now ∷ [])) result }
{
    match name {
        "L3" => {
            let (pred, rule) = two(alloc, a, b)?;
            let (names, block, edges) = three(alloc, c, d, e)?;
            Ok(Line::L3(FoldInd {
                pred,
                rule,
                names,
                block,
                edges,
            }))
        }
        "L7" => {
            let (pred, at) = two(alloc, a, b)?;
            let (args, end, ends) = three(alloc, c, d, e)?;
            Ok(Line::L7(pred, at, args, end, ends))
        }
        _ => Err(LineFault::Form),
    }
}

// The line of a name and six entries.
fn of_six(
    alloc: Global,
    name: &str,
    a: &Value,
    b: &Value,
    c: &Value,
    d: &Value,
    e: &Value,
    f: &Value,
) -> Result<Line, LineFault>
    ensures { Reads data_of LineFits (named_data name.now
        (view a.now ∷ view b.now ∷ view c.now ∷ view d.now ∷ view e.now ∷ view f.now ∷ [])) result }
{
    if name != "L4" {
        return Err(LineFault::Form);
    }
    let (pred, rule, names) = three(alloc, a, b, c)?;
    let (block, edges, call) = three(alloc, d, e, f)?;
    Ok(Line::L4(FoldSeg {
        pred,
        rule,
        names,
        block,
        edges,
        call,
    }))
}

// The line of a name and entries.
fn line_in(alloc: Global, name: &str, entries: &[Value]) -> Result<Line, LineFault>
    ensures { LineReadsAs (named_data name.now (map view entries.now)) result }
{
    match entries.len() {
        0 => plain(name).ok_or(LineFault::Form),
        1 => of_one(alloc, name, &entries[0]),
        2 => header_or_two(alloc, name, &entries[0], &entries[1]),
        3 => of_three(alloc, name, &entries[0], &entries[1], &entries[2]),
        5 => of_five(
            alloc,
            name,
            &entries[0],
            &entries[1],
            &entries[2],
            &entries[3],
            &entries[4],
        ),
        6 => of_six(
            alloc,
            name,
            &entries[0],
            &entries[1],
            &entries[2],
            &entries[3],
            &entries[4],
            &entries[5],
        ),
        _ => Err(LineFault::Form),
    }
}

fn line_in_value(alloc: Global, value: &Value) -> Result<Line, LineFault>
    ensures { LineReadsAs (view value.now) result }
{
    match named(value) {
        None => Err(LineFault::Form),
        Some((name, entries)) => line_in(alloc, name, entries),
    }
}

/// The line that bytes spell, or why they are none.
pub fn line_of(alloc: Global, bytes: &[u8]) -> Result<Line, LineFault>
    ensures reads { ReadsAs bytes.now result }
    ensures none { IfErr result (SpellsNone bytes.now) }
{
    match Value::from_slice(alloc, bytes) {
        Err(e) => Err(if e.is_memory() {
            LineFault::NoMemory
        } else {
            LineFault::NotJson
        }),
        Ok(value) => line_in_value(alloc, &value),
    }
}
