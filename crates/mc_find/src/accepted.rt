// Which lines are accepted of an attempt.
ghost use Rattle.std.specs.Prelude.{◌≡◌, ◌↔◌, All, Contains, IsTrue, None, true, IfOk, IfSome, option_to_list};
ghost use Rattle.mc_document.specs.Places.{cut_of, cuts_of};
ghost use Rattle.mc_find.specs.Analysis.Findings.{HasCuts, IsFound, IsFoundChain, IsReported};
ghost use Rattle.mc_flow.specs.Valid.{IsValid};

use mc_base::{NoMemory, PointId};
use mc_document::certified::is_certificate;
use mc_flow::{Defs, Flow};
use mc_follow::alarms::ends_few;
use mc_follow::report::{ChainReport, chain_report};
use mc_kernel::oracle::judges_are_there;
use mc_kernel::reading::documents_are_read;
use mc_lines::cert::Line;
use std::alloc::Global;

/// The point of a cut line.
fn cut_at(line: &Line) -> Option<PointId>
    ensures { option_to_list result ≡ cut_of line.now }
{
    match line {
        Line::Cut(point) => Some(*point),
        _ => None,
    }
}

/// The points of the cut lines among these.
fn cuts_in(alloc: Global, lines: &[Line]) -> Result<Vec<PointId>, NoMemory>
    ensures { IfOk result (λ cuts. cuts.items ≡ cuts_of lines.now) }
{
    let mut cuts = Vec::new(alloc);
    for line in lines {
        if let Some(point) = cut_at(line) {
            cuts.push(point)?;
        }
    }
    Ok(cuts)
}

/// Whether a point is among the cuts.
fn is_cut(cuts: &[PointId], point: PointId) -> bool
    ensures { IsTrue result ↔ Contains cuts.now point }
{
    cuts.contains(&point)
}

/// Whether each of these points is.
fn are_cuts(cuts: &[PointId], points: &[PointId]) -> bool
    ensures { IsTrue result ↔ All (Contains cuts.now) points.now }
{
    for point in points {
        if !is_cut(cuts, *point) {
            return false;
        }
    }
    true
}

/// Whether the lines have the cuts that are asked for: the loop heads, and where states are merged the points where an `if`
/// ends.
fn has_cuts(alloc: Global, flow: &Flow, merge: bool, lines: &[Line]) -> Result<bool, NoMemory>
    ensures { IfOk result (λ has. IsTrue has ↔ HasCuts flow.now merge lines.now) }
{
    let cuts = cuts_in(alloc, lines)?;
    if !are_cuts(cuts.as_slice(), flow.heads.as_slice()) {
        return Ok(false);
    }
    if merge {
        return Ok(are_cuts(cuts.as_slice(), flow.merges.as_slice()));
    }
    Ok(true)
}

/// Whether lines are what may be found: a valid certificate that ends no more than 65,536 branches, with the cuts that are
/// asked for, on whose side branches no line stands but those that may.
pub fn is_found(
    alloc: Global,
    flow: &Flow,
    defs: &Defs,
    merge: bool,
    lines: &[Line],
) -> Result<bool, NoMemory>
    requires { IsValid flow.now defs.now }
    ensures { IfOk result (λ is. (is ≡ true) ↔ IsFound flow.now defs.now merge lines.now) }
{
    if !ends_few(lines) {
        return Ok(false);
    }
    if !has_cuts(alloc, flow, merge, lines)? {
        return Ok(false);
    }
    is_certificate(alloc, flow, defs, lines)
}

/// The report of lines that are a chain as it may be found: of one pass, with a stuck branch, that ends no more than 65,536
/// branches, with the cuts that are asked for, on whose side branches no line stands but those that may. None for other lines.
pub fn reported(
    alloc: Global,
    flow: &Flow,
    defs: &Defs,
    merge: bool,
    lines: &[Line],
) -> Result<Option<ChainReport>, NoMemory>
    requires { IsValid flow.now defs.now }
    ensures some { IfOk result (λ found. IfSome found (IsReported flow.now defs.now merge lines.now)) }
    ensures none { IfOk result (λ found. found ≡ None → IsFoundChain flow.now defs.now merge lines.now → ⊥) }
{
    // For the proof alone: a chain has its stuck branches and no others.
    judges_are_there();
    documents_are_read();
    if !ends_few(lines) {
        return Ok(None);
    }
    if !has_cuts(alloc, flow, merge, lines)? {
        return Ok(None);
    }
    let Some(report) = chain_report(alloc, flow, defs, lines)? else {
        return Ok(None);
    };
    if report.count == 0 {
        return Ok(None);
    }
    Ok(Some(report))
}
