// Open documents of both forms.
ghost use Rattle.std.specs.Prelude.{◌≡◌, IfErr, IfOk, length};
ghost use Rattle.mc_flow.specs.Valid.{IsValid};
ghost use Rattle.mc_joins.specs.Chains.Judges.{Lore, Reading as Chain, finished, verdict_of};
ghost use Rattle.mc_joins.specs.Chains.Laws.{IsRight};
ghost use Rattle.mc_judge.specs.Documents.{Document, IsEnded, StandsAs, StandsFor, Takes, begun};
ghost use Rattle.mc_judge.specs.Judge.Verdicts.{said_of, verdict_on};

use crate::judge::{Refusal, Verdict};
use crate::passes::{Passes, WholeChain};
use mc_document::proof::{ApplyFault, Proof};
use mc_flow::{Defs, Flow};
use mc_lines::cert::{Form, Line};
use std::alloc::Global;

/// The open document of a certificate or of a chain of several passes.
#[derive(Drop)]
pub enum OpenDocument<'f> {
    Certificate(Proof<'f>),
    Chain(Passes<'f>),
}

/// What is said of a whole chain.
fn said(chain: WholeChain) -> Verdict
    ensures { (r : Chain) → r.stage ≡ finished → chain.alarms ≡ length r.stuck → chain.changed ≡ r.changed
        → result ≡ verdict_on (verdict_of r) }
{
    if chain.changed {
        return Verdict::Refused(Refusal::Unfinished);
    }
    if chain.alarms == 0 {
        Verdict::Refused(Refusal::NoAlarm)
    } else {
        Verdict::Alarms(chain.alarms)
    }
}

impl<'f> OpenDocument<'f> {
    /// Begins a document of which nothing but the header is read.
    pub fn begin(alloc: Global, flow: &'f Flow, defs: &'f Defs, form: Form) -> OpenDocument<'f>
        requires { IsValid flow.now defs.now }
        ensures { (k : Lore) → IsRight k flow.now defs.now → StandsFor k flow.now defs.now (begun form) result }
    {
        // For the proof alone: a document that is begun is kept.
        mc_kernel::reading::lines_are_read();
        mc_joins::chains::lines_are_read();
        match form {
            Form::Certificate => {
                OpenDocument::Certificate(Proof::start(alloc, flow, defs, Form::Certificate))
            }
            Form::Chain => OpenDocument::Chain(Passes::start(alloc, flow, defs)),
        }
    }

    /// Applies a line. After a refused line, and without memory, the document is of no use.
    pub fn apply(&mut self, line: &Line) -> Result<(), ApplyFault>
        ensures { Takes line.now self.old self.new result }
    {
        // For the proof alone: a document of a valid flow graph is kept line by line.
        mc_kernel::reading::lines_are_read();
        mc_joins::chains::lines_are_read();
        match self {
            OpenDocument::Certificate(proof) => {
                proof.is_held();
                proof.apply(line)
            }
            OpenDocument::Chain(passes) => {
                passes.is_held();
                passes.apply(line)
            }
        }
    }

    /// What is said of the document, where it has ended; else the document again.
    pub fn finish(self) -> Result<Verdict, OpenDocument<'f>>
        ensures ok { (k : Lore) (d : Document) → StandsAs k d self.entry
            → IfOk result (λ verdict. IsEnded d × (verdict ≡ said_of d)) }
        ensures err { (k : Lore) (d : Document) → StandsAs k d self.entry
            → IfErr result (λ p. (p ≡ self.entry) × (IsEnded d → ⊥)) }
    {
        match self {
            OpenDocument::Certificate(proof) => match proof.finish() {
                Ok(_) => Ok(Verdict::Safe),
                Err(proof) => Err(OpenDocument::Certificate(proof)),
            },
            OpenDocument::Chain(passes) => match passes.finish() {
                Ok(chain) => Ok(said(chain)),
                Err(passes) => Err(OpenDocument::Chain(passes)),
            },
        }
    }
}
