// The report of a certificate.
ghost use Rattle.std.specs.Prelude.{◌≡◌, ◌++◌, List, IfOk, OnOk};
ghost use Rattle.mc_kernel.specs.Certificates.{IsValidCertificate, WrittenHead};
ghost use Rattle.mc_follow.specs.Report.Heads.{AreWellFormed, AreWritten, head_in, number_at};
ghost use Rattle.mc_follow.specs.Report.Report.{IsCertificateReport};

use crate::report::lines::push_head;
use mc_base::{NoMemory, PointId};
use mc_flow::Flow;
use mc_flow::defs::Defs;
use mc_lines::cert::Line;
use std::alloc::Global;

/// How many of some points are this one.
fn number_at(points: &[PointId], point: PointId) -> u64
    ensures { result ≡ number_at point points.now }
{
    let mut count = 0u64;
    for other in points {
        if other.0 == point.0 {
            count += 1;
        }
    }
    count
}

/// Adds the line of the head that a line of a document writes, if it writes one.
pub fn push_written(
    alloc: Global,
    text: &mut Vec<u8>,
    points: &mut Vec<PointId>,
    flow: &Flow,
    defs: &Defs,
    line: &Line,
) -> Result<(), NoMemory>
    requires { AreWellFormed flow.now defs.now (head_in line.now) }
    ensures { OnOk result ((heads : List WrittenHead) → AreWritten flow.now defs.now heads points.old.items text.old.items
        → AreWritten flow.now defs.now (heads ++ head_in line.now) points.new.items text.new.items) }
{
    match line {
        Line::Head(point, raw) => {
            let number = number_at(points.as_slice(), *point);
            push_head(alloc, text, flow, defs, number, *point, raw)?;
            points.push(*point)?;
            Ok(())
        }
        _ => Ok(()),
    }
}

/// The report of a certificate: its heads in order, and that the program is safe.
pub fn certificate_report(
    alloc: Global,
    flow: &Flow,
    defs: &Defs,
    lines: &[Line],
) -> Result<Vec<u8>, NoMemory>
    requires { IsValidCertificate flow.now defs.now lines.now }
    ensures { (c : IsValidCertificate flow.now defs.now lines.now)
        → IfOk result (λ text. IsCertificateReport flow.now defs.now c.heads text.items) }
{
    let mut text = Vec::new(alloc);
    let mut points = Vec::new(alloc);
    for line in lines {
        push_written(alloc, &mut text, &mut points, flow, defs, line)?;
    }
    text.extend_from_slice(b"safe\n")?;
    Ok(text)
}
