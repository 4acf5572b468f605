// Alarms for which runs are tried, and the lines of the scripts that are found.
ghost use Rattle.std.specs.Prelude.{◌≡◌, ◌++◌, true, All, Contains, IfOk, IfSome, List, OnOk, ℕ};
ghost use Rattle.mc_c_syntax.specs.Ast.Trees.{UnitTree};
ghost use Rattle.mc_c_syntax.specs.Ast.Views.{unit_of};
ghost use Rattle.mc_flow.specs.declared.defs.rules.Def.{Def};
ghost use Rattle.mc_lines.specs.Cert.Lines.{lines_of};
ghost use Rattle.mc_tries.specs.Found.{IsFound};
ghost use Rattle.mc_find.specs.declared.analysis.analysis.Analysis.TheVariants.{Alarms, Safe};
ghost use Rattle.mc_app.specs.Analyses.{IsWhyAnalysed};
ghost use Rattle.mc_app.specs.Tried.{AreShown, IsAddedBehind, IsAlarmAt, blank_for, parted, script_line};

use crate::analysing::Analysed;
use crate::words::Analyse;
use mc_base::NoMemory;
use mc_base::text::{Place, print_place};
use mc_c_check::Bound;
use mc_find::analysis::{Analysis, Findings};
use mc_lines::cert::first_line;
use mc_tries::{Found, scripts};
use std::alloc::Global;

// What the line of an alarm begins with, and what that of a script does.
const ALARM: &[u8] = b"alarm at ";

const REAL: &[u8] = b"real:";

// A number that bytes begin with, and what is behind it.
fn number(bytes: &[u8]) -> (u32, &[u8]) {
    let mut number: u32 = 0;
    let mut rest = bytes;
    while let [byte, more @ ..] = rest {
        if !byte.is_ascii_digit() {
            break;
        }
        number = number
            .saturating_mul(10)
            .saturating_add(u32::from(*byte).saturating_sub(48));
        rest = more;
    }
    (number, rest)
}

// The place that the line of an alarm names.
fn place_in(line: &[u8]) -> Option<Place> {
    let rest = line.strip_prefix(ALARM)?;
    let (line, rest) = number(rest);
    let (column, _) = number(rest.strip_prefix(b":")?);
    Some(Place { line, column })
}

// The places of the alarms of a report that carry no script, each once.
fn unmarked(alloc: Global, report: &[u8]) -> Result<Vec<Place>, NoMemory> {
    let mut places: Vec<Place> = Vec::new(alloc);
    let mut rest = report;
    while let Some((line, behind)) = first_line(rest) {
        if let Some(place) = place_in(line) {
            if !behind.starts_with(REAL) && !places.as_slice().contains(&place) {
                places.push(place)?;
            }
        }
        rest = behind;
    }
    Ok(places)
}

// What is printed for a byte of a script: a blank for a line feed.
fn blank_for(byte: u8) -> u8
    ensures { result ≡ blank_for byte }
{
    if byte == b'\n' { b' ' } else { byte }
}

// Adds the lines of a script, parted by blanks.
#[tactic(auto, using(crate::proofs::Shown::parted_of))]
fn push_parted(out: &mut Vec<u8>, script: &[u8]) -> Result<(), NoMemory>
    ensures { OnOk result (out.new.items ≡ out.old.items ++ parted script.now) }
{
    if script.is_empty() {
        out.push(b'-')?;
        return Ok(());
    }
    for byte in script {
        out.push(blank_for(*byte))?;
    }
    Ok(())
}

// Adds the line of a script.
fn push_real(out: &mut Vec<u8>, script: &[u8]) -> Result<(), NoMemory>
    ensures { OnOk result (out.new.items ≡ out.old.items ++ script_line script.now) }
{
    out.extend_from_slice(b"real: ")?;
    push_parted(out, script)?;
    out.push(b'\n')?;
    Ok(())
}

// Whether a line is that of an alarm at a place.
fn is_at(alloc: Global, line: &[u8], place: Place) -> Result<bool, NoMemory>
    ensures { IfOk result (λ at. at ≡ true → IsAlarmAt line.now place) }
{
    let mut front = Vec::new(alloc);
    front.extend_from_slice(ALARM)?;
    print_place(alloc, &mut front, place)?;
    front.push(b' ')?;
    Ok(line.starts_with(front.as_slice()))
}

// The first script that is for a line's place.
fn script_for<'a>(
    alloc: Global,
    line: &[u8],
    found: &'a [Found],
) -> Result<Option<&'a Found>, NoMemory>
    ensures { IfOk result (λ one. IfSome one (λ f. Contains found.now f.now × IsAlarmAt line.now f.now.place)) }
{
    for one in found {
        if is_at(alloc, line, one.place)? {
            return Ok(Some(one));
        }
    }
    Ok(None)
}

// Adds the line of the first script that is for a line's place, if there is one.
#[tactic(auto, using(crate::proofs::Shown::adds_script, crate::proofs::Shown::adds_nothing))]
fn push_found(
    alloc: Global,
    out: &mut Vec<u8>,
    line: &[u8],
    found: &[Found],
) -> Result<(), NoMemory>
    ensures { OnOk result (IsAddedBehind found.now line.now out.old.items out.new.items) }
{
    match script_for(alloc, line, found)? {
        Some(one) => {
            push_real(out, one.script.as_slice())?;
            Ok(())
        }
        None => Ok(()),
    }
}

// A report with the lines of scripts behind those of alarms that have none.
fn shown(alloc: Global, report: &[u8], found: &[Found]) -> Result<Vec<u8>, NoMemory>
    ensures { IfOk result (λ text. (entry : List ℕ) (unit : UnitTree) (defs : List Def)
        → All (IsFound entry unit defs) found.now → AreShown entry unit defs (lines_of report.now) text.items) }
{
    let mut text = Vec::new(alloc);
    let mut rest = report;
    while let Some((line, behind)) = first_line(rest) {
        text.extend_from_slice(line)?;
        text.push(b'\n')?;
        if !behind.starts_with(REAL) {
            push_found(alloc, &mut text, line, found)?;
        }
        rest = behind;
    }
    Ok(text)
}

// The report of a program with scripts for alarms that carry none, where some are found in so many runs.
fn report_with_scripts(
    alloc: Global,
    bound: &Bound,
    report: &[u8],
    runs: u64,
) -> Result<Option<Vec<u8>>, NoMemory>
    ensures { IfOk result (λ made. IfSome made (λ text. AreShown bound.now.typed.entry (unit_of bound.now.typed.unit) bound.now.defs
        (lines_of report.now) text.items)) }
{
    let places = unmarked(alloc, report)?;
    let found = scripts(alloc, bound, places.as_slice(), runs)?;
    if found.is_empty() {
        return Ok(None);
    }
    let text = shown(alloc, report, found.as_slice())?;
    Ok(Some(text))
}

// Alarms, so many, with scripts for those that carry none.
fn alarms_with_scripts(
    alloc: Global,
    names: Analyse<'_>,
    bound: &Bound,
    findings: Findings,
    count: u64,
) -> Result<Analysed, NoMemory>
    requires { bound.now.typed.entry ≡ names.start.now }
    ensures why { IfOk result (λ a. IsWhyAnalysed names.entry (unit_of bound.now.typed.unit) bound.now.defs (Analysed.Found (Alarms findings count))
        → IsWhyAnalysed names.entry (unit_of bound.now.typed.unit) bound.now.defs a) }
    ensures safe { IfOk result (λ a. (f : Findings) → a ≡ Analysed.Found (Safe f) → ⊥) }
{
    match report_with_scripts(alloc, bound, findings.report.as_slice(), names.runs)? {
        Some(text) => Ok(Analysed::Tried(findings, count, text)),
        None => Ok(Analysed::Found(Analysis::Alarms(findings, count))),
    }
}

/// What the analysis of a program comes to, with scripts for the alarms that carry none.
pub fn with_scripts(
    alloc: Global,
    names: Analyse<'_>,
    bound: &Bound,
    found: Analysed,
) -> Result<Analysed, NoMemory>
    requires { bound.now.typed.entry ≡ names.start.now }
    ensures why { IfOk result (λ a. IsWhyAnalysed names.entry (unit_of bound.now.typed.unit) bound.now.defs found
        → IsWhyAnalysed names.entry (unit_of bound.now.typed.unit) bound.now.defs a) }
    ensures safe { IfOk result (λ a. (f : Findings) → a ≡ Analysed.Found (Safe f) → found ≡ Analysed.Found (Safe f)) }
{
    match found {
        Analysed::TooLong => Ok(Analysed::TooLong),
        Analysed::Tried(findings, count, text) => Ok(Analysed::Tried(findings, count, text)),
        Analysed::Found(Analysis::Safe(findings)) => Ok(Analysed::Found(Analysis::Safe(findings))),
        Analysed::Found(Analysis::Paths(document)) => {
            Ok(Analysed::Found(Analysis::Paths(document)))
        }
        Analysed::Found(Analysis::Unknown) => Ok(Analysed::Found(Analysis::Unknown)),
        Analysed::Found(Analysis::Alarms(findings, count)) => {
            alarms_with_scripts(alloc, names, bound, findings, count)
        }
    }
}
