// How a flow graph is analysed.
ghost use Rattle.std.specs.Prelude.{◌≡◌, ◌<◌, [], Bool, false, IfOk, IfSome};
ghost use Rattle.mc_follow.specs.Alarms.Outcomes.{IsCrowded, IsWhole};
ghost use Rattle.mc_flow.specs.Valid.{IsValid};
ghost use Rattle.mc_kernel.specs.Certificates.{IsValidCertificate};
ghost use Rattle.mc_find.specs.Analysis.Findings.{HasAlarms, HasTooManyPaths, IsAnalysis, IsFollowedWhole, IsFound, IsProposed, IsProved, IsReported, stays, under_header};

use crate::analysis::{Analysis, Findings, Proposed, Settings};
use crate::{Runs, joined_ways, search};
use mc_base::NoMemory;
use mc_flow::{Defs, Flow};
use mc_follow::alarms::{Document, Outcome, alarms};
use mc_follow::report::{ChainReport, certificate_report};
use mc_kernel::lines_are_judged;
use mc_kernel::reading::lines_make_well_made;
use mc_lines::cert::{Form, Line, Version};
use mc_lines::written::document;
use mc_state::numbers_stay_bounded;
use std::alloc::Global;

// The document of a certificate and its report.
fn proved(alloc: Global, flow: &Flow, defs: &Defs, lines: &[Line]) -> Result<Findings, NoMemory>
    requires { IsValidCertificate flow.now defs.now lines.now }
    ensures { IfOk result (λ f. (merge : Bool) → IsFound flow.now defs.now merge lines.now → IsProved flow.now defs.now merge f) }
{
    let report = certificate_report(alloc, flow, defs, lines)?;
    let document = document(alloc, lines)?;
    Ok(Findings { document, report })
}

// The document of a chain that has alarms.
fn alarming(alloc: Global, flow: &Flow, defs: &Defs, chain: Document) -> Result<Findings, NoMemory>
    requires no_loops { flow.now.heads ≡ [] }
    requires chain { IsWhole flow.now defs.now chain }
    requires some { 0 < chain.count }
    ensures { IfOk result (λ f. HasAlarms flow.now defs.now false f chain.count) }
{
    let document = document(alloc, chain.lines.as_slice())?;
    Ok(Findings {
        document,
        report: chain.text,
    })
}

// The document of a chain that is found, with its report.
fn reporting(
    alloc: Global,
    flow: &Flow,
    defs: &Defs,
    merge: bool,
    lines: &[Line],
    report: ChainReport,
) -> Result<Findings, NoMemory>
    requires searched { IsFollowedWhole flow.now merge → ⊥ }
    requires reported { IsReported flow.now defs.now merge lines.now report }
    ensures { IfOk result (λ f. HasAlarms flow.now defs.now merge f report.count) }
{
    let document = document(alloc, lines)?;
    Ok(Findings {
        document,
        report: report.text,
    })
}

// The document of a chain in which too many branches are ended.
fn crowded(alloc: Global, flow: &Flow, defs: &Defs, lines: &[Line]) -> Result<Vec<u8>, NoMemory>
    requires { IsCrowded flow.now defs.now lines.now }
    ensures { IfOk result (λ text. HasTooManyPaths flow.now defs.now text.items) }
{
    let text = document(alloc, lines)?;
    Ok(text)
}

/// Whether a certificate has a line of a chain of one pass too.
fn stays(line: &Line) -> bool
    ensures { result ≡ stays line.now }
{
    match line {
        Line::Header(_, _) => false,
        Line::Pass => false,
        _ => true,
    }
}

// The lines of a chain of one pass under the header of a certificate, which they are where no branch is stuck.
fn certified(alloc: Global, lines: Vec<Line>) -> Result<Vec<Line>, NoMemory>
    ensures { IfOk result (λ list. list.items ≡ under_header lines.items) }
{
    let mut list = Vec::with_capacity(alloc, lines.len())?;
    list.push(Line::Header(Version::One, Form::Certificate))?;
    for line in lines {
        if stays(&line) {
            list.push(line)?;
        }
    }
    Ok(list)
}

// What a chain without alarms shows: the same lines make a certificate.
fn calm(alloc: Global, flow: &Flow, defs: &Defs, chain: Document) -> Result<Findings, NoMemory>
    requires valid { IsValid flow.now defs.now }
    requires no_loops { flow.now.heads ≡ [] }
    requires chain { IsWhole flow.now defs.now chain }
    requires none { chain.count ≡ 0 }
    ensures { IfOk result (IsProved flow.now defs.now false) }
{
    // For the proof alone: a line that is an instance in the chain is read in the certificate.
    numbers_stay_bounded();
    lines_are_judged();
    lines_make_well_made();
    let lines = certified(alloc, chain.lines)?;
    proved(alloc, flow, defs, lines.as_slice())
}

// What comes of a chain in which every branch is followed to its end.
fn followed(alloc: Global, flow: &Flow, defs: &Defs, chain: Document) -> Result<Analysis, NoMemory>
    requires valid { IsValid flow.now defs.now }
    requires no_loops { flow.now.heads ≡ [] }
    requires chain { IsWhole flow.now defs.now chain }
    ensures { IfOk result (IsAnalysis flow.now defs.now false) }
{
    if chain.count == 0 {
        let findings = calm(alloc, flow, defs, chain)?;
        return Ok(Analysis::Safe(findings));
    }
    let count = chain.count;
    let findings = alarming(alloc, flow, defs, chain)?;
    Ok(Analysis::Alarms(findings, count))
}

// The lines of a certificate, where a search finds one; a chain that it finds counts for nothing.
fn certificate<R: Runs>(
    alloc: Global,
    flow: &Flow,
    defs: &Defs,
    settings: Settings,
    runs: &R,
) -> Result<Option<Vec<Line>>, NoMemory>
    requires { IsValid flow.now defs.now }
    ensures { IfOk result (λ found. IfSome found (λ lines. IsFound flow.now defs.now settings.merge lines.items)) }
{
    match search(alloc, flow, defs, settings.limits(), runs)? {
        Some(Proposed::Certificate(lines)) => Ok(Some(lines)),
        Some(Proposed::Chain(_, _)) => Ok(None),
        None => Ok(None),
    }
}

// What comes of a program with so many branches that not all are followed: a certificate, where one is found whose cuts let
// branches come together, or the front of the chain.
fn with_many_paths<R: Runs>(
    alloc: Global,
    flow: &Flow,
    defs: &Defs,
    settings: Settings,
    runs: &R,
    lines: Vec<Line>,
) -> Result<Analysis, NoMemory>
    requires valid { IsValid flow.now defs.now }
    requires crowded { IsCrowded flow.now defs.now lines.items }
    ensures { IfOk result (IsAnalysis flow.now defs.now settings.merge) }
{
    match certificate(alloc, flow, defs, settings, runs)? {
        Some(found) => {
            let findings = proved(alloc, flow, defs, found.as_slice())?;
            Ok(Analysis::Safe(findings))
        }
        None => {
            let text = crowded(alloc, flow, defs, lines.as_slice())?;
            Ok(Analysis::Paths(text))
        }
    }
}

// Where there are no loops, every branch is followed to its end, unless there are many, and a certificate lets them come together.
fn without_loops<R: Runs>(
    alloc: Global,
    flow: &Flow,
    defs: &Defs,
    settings: Settings,
    runs: &R,
) -> Result<Analysis, NoMemory>
    requires valid { IsValid flow.now defs.now }
    requires no_loops { flow.now.heads ≡ [] }
    requires no_merge { settings.merge ≡ false }
    ensures { IfOk result (IsAnalysis flow.now defs.now settings.merge) }
{
    if let Some(lines) = joined_ways(alloc, flow, defs, settings.limits())? {
        let findings = proved(alloc, flow, defs, lines.as_slice())?;
        return Ok(Analysis::Safe(findings));
    }
    match alarms(alloc, flow, defs)? {
        Outcome::Whole(chain) => followed(alloc, flow, defs, chain),
        Outcome::Paths(lines) => with_many_paths(alloc, flow, defs, settings, runs, lines),
    }
}

// What is proposed, as it is answered.
fn answered(
    alloc: Global,
    flow: &Flow,
    defs: &Defs,
    merge: bool,
    proposed: Proposed,
) -> Result<Analysis, NoMemory>
    requires searched { IsFollowedWhole flow.now merge → ⊥ }
    requires proposed { IsProposed flow.now defs.now merge proposed }
    ensures { IfOk result (IsAnalysis flow.now defs.now merge) }
{
    match proposed {
        Proposed::Certificate(lines) => {
            let findings = proved(alloc, flow, defs, lines.as_slice())?;
            Ok(Analysis::Safe(findings))
        }
        Proposed::Chain(lines, report) => {
            let count = report.count;
            let findings = reporting(alloc, flow, defs, merge, lines.as_slice(), report)?;
            Ok(Analysis::Alarms(findings, count))
        }
    }
}

// Where there are loops, or states are merged, a certificate is searched for, and else a chain.
fn searched<R: Runs>(
    alloc: Global,
    flow: &Flow,
    defs: &Defs,
    settings: Settings,
    runs: &R,
) -> Result<Analysis, NoMemory>
    requires valid { IsValid flow.now defs.now }
    requires searched { IsFollowedWhole flow.now settings.merge → ⊥ }
    ensures { IfOk result (IsAnalysis flow.now defs.now settings.merge) }
{
    match search(alloc, flow, defs, settings.limits(), runs)? {
        Some(proposed) => answered(alloc, flow, defs, settings.merge, proposed),
        None => Ok(Analysis::Unknown),
    }
}

/// Analyses a flow graph: one without loops branch by branch, unless its states are to be merged, and others by a search, which
/// runs of the program may advise.
pub fn analyse<R: Runs>(
    alloc: Global,
    flow: &Flow,
    defs: &Defs,
    settings: Settings,
    runs: &R,
) -> Result<Analysis, NoMemory>
    requires { IsValid flow.now defs.now }
    ensures { IfOk result (IsAnalysis flow.now defs.now settings.merge) }
{
    if flow.heads.is_empty() && !settings.merge {
        without_loops(alloc, flow, defs, settings, runs)
    } else {
        searched(alloc, flow, defs, settings, runs)
    }
}
