// The report of a chain.
ghost use Rattle.std.specs.Prelude.{◌≡◌, ◌↔◌, ◌∷◌, ◌++◌, [], List, None, true, false, IfOk, IfSome};
ghost use Rattle.mc_lines.specs.declared.cert.line.Line.{Line as Written};
ghost use Rattle.mc_lines.specs.declared.cert.line.Line.TheVariants.{Header};
ghost use Rattle.mc_flow.specs.Valid.{IsValid};
ghost use Rattle.mc_follow.specs.Report.Chains.{AddsAlarm, HasRead, IsDraft, IsFirstAlarm, IsNoChain, IsReportOf};
ghost use Rattle.mc_state.specs.declared.line.Form.TheVariants.{Chain};
ghost use Rattle.mc_state.specs.declared.line.Version.TheVariants.{One};

use crate::alarms::documents_are_followed;
use crate::report::heads::push_written;
use crate::report::lines::{push_alarm, push_count};
use mc_base::{NoMemory, PointId};
use mc_document::certified::{is_header, may_stand};
use mc_document::proof::{ApplyFault, Proof};
use mc_flow::{Defs, Flow};
use mc_kernel::reading::refusals_are_one;
use mc_lines::cert::Line;
use mc_state::Form;
use std::alloc::{AllocError, Global};

/// The report of a chain, and how many of its branches are stuck.
#[derive(Drop)]
pub struct ChainReport {
    pub text: Vec<u8>,
    pub count: u64,
}

/// The report of a chain that is being read: the chain so far, the points of its heads, and the lines of its heads and of its
/// stuck branches.
#[derive(Drop)]
pub struct Draft<'f> {
    pub alloc: Global,
    pub proof: Proof<'f>,
    pub points: Vec<PointId>,
    pub heads: Vec<u8>,
    pub alarms: Vec<u8>,
}

impl<'f> Draft<'f> {
    /// Begins with the header.
    fn start(alloc: Global, flow: &'f Flow, defs: &'f Defs) -> Draft<'f>
        requires { IsValid flow.now defs.now }
        ensures { IsDraft flow.now defs.now [] result }
    {
        // For the proof alone: a document is read from its header on.
        documents_are_followed();
        Draft {
            alloc,
            proof: Proof::start(alloc, flow, defs, Form::Chain),
            points: Vec::new(alloc),
            heads: Vec::new(alloc),
            alarms: Vec::new(alloc),
        }
    }

    /// The line of the first branch, where its instruction lacks something.
    fn first_alarm(&self, flow: &Flow, defs: &Defs) -> Result<Vec<u8>, NoMemory>
        requires { IsValid flow.now defs.now }
        ensures { IfOk result (λ text. IsFirstAlarm flow.now defs.now self.now.proof text.items) }
    {
        let mut text = Vec::new(self.alloc);
        let Some(branch) = self.proof.current() else {
            return Ok(text);
        };
        let point = branch.point;
        push_alarm(self.alloc, &mut text, flow, defs, point, &branch.state)?;
        Ok(text)
    }

    /// What a line adds to the lines of the stuck branches.
    fn alarm(&self, flow: &Flow, defs: &Defs, line: &Line) -> Result<Vec<u8>, NoMemory>
        requires { IsValid flow.now defs.now }
        ensures { IfOk result (λ text. AddsAlarm flow.now defs.now self.now.proof line.now text.items) }
    {
        match line {
            Line::C1 => self.first_alarm(flow, defs),
            _ => Ok(Vec::new(self.alloc)),
        }
    }

    /// Reads one line more; whether it may stand here.
    fn take(&mut self, flow: &Flow, defs: &Defs, line: &Line) -> Result<bool, NoMemory>
        requires valid { IsValid flow.now defs.now }
        requires read { HasRead flow.now defs.now self.old }
        ensures taken { IfOk result (λ taken. taken ≡ true → (lines : List Written) → IsDraft flow.now defs.now lines self.old
            → IsDraft flow.now defs.now (lines ++ line.now ∷ []) self.new) }
        ensures refused { IfOk result (λ taken. taken ≡ false → (lines later : List Written) → IsDraft flow.now defs.now lines self.old
            → IsNoChain flow.now defs.now (Header One Chain ∷ (lines ++ line.now ∷ later))) }
    {
        // For the proof alone: what is refused is never read.
        documents_are_followed();
        refusals_are_one();
        if !may_stand(&self.proof, line) {
            return Ok(false);
        }
        let alarm = self.alarm(flow, defs, line)?;
        match self.proof.apply(line) {
            Ok(()) => {
                self.alarms.extend_from_slice(alarm.as_slice())?;
                push_written(
                    self.alloc,
                    &mut self.heads,
                    &mut self.points,
                    flow,
                    defs,
                    line,
                )?;
                Ok(true)
            }
            Err(ApplyFault::Premise(_)) => Ok(false),
            Err(ApplyFault::NoMemory) => Err(AllocError),
        }
    }

    /// The report, where the chain has ended.
    fn finish(self, flow: &Flow, defs: &Defs) -> Result<Option<ChainReport>, NoMemory>
        requires { IsValid flow.now defs.now }
        ensures some { IfOk result (λ found. IfSome found (λ report. (lines : List Written)
            → IsDraft flow.now defs.now lines self.entry → IsReportOf flow.now defs.now (Header One Chain ∷ lines) report)) }
        ensures none { IfOk result (λ found. found ≡ None → (lines : List Written)
            → IsDraft flow.now defs.now lines self.entry → IsNoChain flow.now defs.now (Header One Chain ∷ lines)) }
    {
        // For the proof alone: a document that has ended is a chain of one pass.
        documents_are_followed();
        let Draft {
            alloc,
            proof,
            points: _,
            heads: mut text,
            alarms,
        } = self;
        match proof.finish() {
            Ok(complete) => {
                text.extend_from_slice(alarms.as_slice())?;
                push_count(alloc, &mut text, complete.alarms)?;
                Ok(Some(ChainReport {
                    text,
                    count: complete.alarms,
                }))
            }
            Err(_) => Ok(None),
        }
    }
}

/// The report of these lines, after the header of a chain.
fn report_after(
    alloc: Global,
    flow: &Flow,
    defs: &Defs,
    lines: &[Line],
) -> Result<Option<ChainReport>, NoMemory>
    requires { IsValid flow.now defs.now }
    ensures some { IfOk result (λ found. IfSome found (IsReportOf flow.now defs.now (Header One Chain ∷ lines.now))) }
    ensures none { IfOk result (λ found. found ≡ None → IsNoChain flow.now defs.now (Header One Chain ∷ lines.now)) }
{
    let mut draft = Draft::start(alloc, flow, defs);
    for line in lines {
        if !draft.take(flow, defs, line)? {
            return Ok(None);
        }
    }
    draft.finish(flow, defs)
}

/// The report of lines that are a chain of one pass: the lines of its heads and of its stuck branches, in order, and how many
/// are stuck. None for other lines, and where a line stands on a side branch that may not.
pub fn chain_report(
    alloc: Global,
    flow: &Flow,
    defs: &Defs,
    lines: &[Line],
) -> Result<Option<ChainReport>, NoMemory>
    requires { IsValid flow.now defs.now }
    ensures some { IfOk result (λ found. IfSome found (IsReportOf flow.now defs.now lines.now)) }
    ensures none { IfOk result (λ found. found ≡ None → IsNoChain flow.now defs.now lines.now) }
{
    match lines {
        [] => Ok(None),
        [header, rest @ ..] => {
            if is_header(header, Form::Chain) {
                report_after(alloc, flow, defs, rest)
            } else {
                Ok(None)
            }
        }
    }
}
