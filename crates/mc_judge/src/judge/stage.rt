// Where a judge of documents stands.
ghost use Rattle.std.specs.Prelude.{◌≡◌, ◌∷◌, ◌++◌, ◌≢◌, [], ℕ, List, Err, length, suc, IfOk, MatchOption, OnErr, OnOk};
ghost use Rattle.mc_lines.specs.declared.cert.line.Line.TheVariants.{Header};
ghost use Rattle.mc_lines.specs.Cert.Document.{ReadsAs, Spells};
ghost use Rattle.mc_flow.specs.declared.defs.rules.Def.{Def};
ghost use Rattle.mc_flow.specs.declared.graph.Flow.{Flow as Graph};
ghost use Rattle.mc_flow.specs.Valid.{IsValid};
ghost use Rattle.mc_judge.specs.declared.judge.stage.Stage.TheVariants.{Unbegun, Open, Refused, Spent};
ghost use Rattle.mc_judge.specs.declared.judge.verdict.Refusal.{Refusal as Cause};
ghost use Rattle.mc_judge.specs.declared.judge.verdict.Refusal.TheVariants.{Rule};
ghost use Rattle.mc_judge.specs.Judge.Stages.{IsAt, Leads, needs_more};
ghost use Rattle.mc_judge.specs.Judge.Verdicts.{GoesOn, IsReading};
ghost use Rattle.mc_judge.specs.Documents.{Document, StandsFor};
ghost use Rattle.mc_joins.specs.Chains.Judges.{Lore};
ghost use Rattle.mc_document.specs.declared.proof.fault.ApplyFault.TheVariants.{NoMemory, Premise};
ghost use Rattle.mc_state.specs.declared.line.Form.{Form as DocumentForm};
ghost use Rattle.mc_state.specs.declared.line.Version.{Version as DocumentVersion};
ghost use Rattle.mc_state.specs.declared.line.Version.TheVariants.{One};

use crate::judge::naming::name_of;
use crate::judge::open::OpenDocument;
use crate::judge::{Refusal, Verdict};
use mc_base::NoMemory;
use mc_document::proof::ApplyFault;
use mc_flow::{Defs, Flow};
use mc_lines::cert::{Form, Line, LineFault, Version, line_of};
use std::alloc::{AllocError, Global};

/// How far a document is judged.
#[derive(Drop)]
pub enum Stage<'f> {
    /// No line is read.
    Unbegun,
    /// Its lines are read so far, and more are to come.
    Open(OpenDocument<'f>),
    /// Its end line is read, and this is said of it.
    Ended(Verdict),
    /// A line is refused.
    Refused(Refusal),
    /// There was no memory to judge a line.
    Spent,
}

/// The refusal of bytes that are no line; nothing where there was no memory to tell.
fn no_line<'f>(number: u64, fault: LineFault) -> Stage<'f>
    ensures { (k : Lore) (flow : Graph) (defs : List Def) (before : List (List ℕ)) (bytes : List ℕ)
        → number ≡ suc (length before) → GoesOn k flow defs before → ReadsAs bytes (Err fault)
        → IsAt k flow defs (before ++ bytes ∷ []) result }
{
    match fault {
        LineFault::NoMemory => Stage::Spent,
        LineFault::NotJson => Stage::Refused(Refusal::Line(number, LineFault::NotJson)),
        LineFault::Form => Stage::Refused(Refusal::Line(number, LineFault::Form)),
        LineFault::Version => Stage::Refused(Refusal::Line(number, LineFault::Version)),
    }
}

/// The form that a header gives; nothing for another line.
fn form_of(line: &Line) -> Option<Form>
    ensures { MatchOption result ((version : DocumentVersion) (form : DocumentForm) → line.now ≢ Header version form)
        (λ form. line.now ≡ Header One form) }
{
    match line {
        Line::Header(version, form) => match version {
            Version::One => Some(*form),
        },
        _ => None,
    }
}

/// The first line: a header.
fn begun<'f>(alloc: Global, flow: &'f Flow, defs: &'f Defs, bytes: &[u8]) -> Stage<'f>
    requires { IsValid flow.now defs.now }
    ensures { Leads flow.now defs.now bytes.now [] Unbegun result }
{
    match line_of(alloc, bytes) {
        Ok(line) => match form_of(&line) {
            Some(form) => Stage::Open(OpenDocument::begin(alloc, flow, defs, form)),
            None => Stage::Refused(Refusal::Rule(1, name_of(&line), 1)),
        },
        Err(fault) => no_line(1, fault),
    }
}

/// What the document is by a line that was applied: it has ended, or goes on.
fn applied<'f>(document: OpenDocument<'f>) -> Stage<'f>
    ensures { (k : Lore) (flow : Graph) (defs : List Def) (texts : List (List ℕ)) (d : Document)
        → IsReading k flow defs texts d → StandsFor k flow defs d document.entry → IsAt k flow defs texts result }
{
    match document.finish() {
        Ok(verdict) => Stage::Ended(verdict),
        Err(document) => Stage::Open(document),
    }
}

/// The refusal of a line that is not applied; nothing where there was no memory to apply it.
fn unmet<'f>(number: u64, name: &'static str, fault: ApplyFault) -> Stage<'f>
    ensures premise { (premise : ℕ) → fault ≡ Premise premise → result ≡ Refused (Rule number name.entry premise) }
    ensures memory { fault ≡ NoMemory → result ≡ Spent }
{
    match fault {
        ApplyFault::Premise(premise) => Stage::Refused(Refusal::Rule(number, name, premise)),
        ApplyFault::NoMemory => Stage::Spent,
    }
}

/// A line after others.
fn taken<'f>(mut document: OpenDocument<'f>, number: u64, line: &Line) -> Stage<'f>
    ensures { (flow : Graph) (defs : List Def) (texts : List (List ℕ)) (bytes : List ℕ)
        → number ≡ suc (length texts) → Spells bytes line.now → Leads flow defs bytes texts (Open document.entry) result }
{
    match document.apply(line) {
        Ok(()) => applied(document),
        Err(fault) => unmet(number, name_of(line), fault),
    }
}

/// The bytes of a line after others.
fn gone_on<'f>(alloc: Global, document: OpenDocument<'f>, number: u64, bytes: &[u8]) -> Stage<'f>
    ensures { (flow : Graph) (defs : List Def) (texts : List (List ℕ)) → number ≡ suc (length texts)
        → Leads flow defs bytes.now texts (Open document.entry) result }
{
    match line_of(alloc, bytes) {
        Ok(line) => taken(document, number, &line),
        Err(fault) => no_line(number, fault),
    }
}

/// Where a judge stands by the line of a number.
pub fn next_stage<'f>(
    alloc: Global,
    flow: &'f Flow,
    defs: &'f Defs,
    stage: Stage<'f>,
    number: u64,
    bytes: &[u8],
) -> Stage<'f>
    requires { IsValid flow.now defs.now }
    ensures leads { (texts : List (List ℕ)) → number ≡ suc (length texts)
        → Leads flow.now defs.now bytes.now texts stage.entry result }
    ensures stays { (cause : Cause) → stage.entry ≡ Refused cause → result ≡ Refused cause }
    ensures spent { stage.entry ≡ Spent → result ≡ Spent }
{
    match stage {
        Stage::Unbegun => begun(alloc, flow, defs, bytes),
        Stage::Open(document) => gone_on(alloc, document, number, bytes),
        Stage::Ended(_) => Stage::Refused(Refusal::AfterEnd(number)),
        Stage::Refused(refusal) => Stage::Refused(refusal),
        Stage::Spent => Stage::Spent,
    }
}

impl<'f> Stage<'f> {
    /// Whether what is known is known still: an `Err` where memory was missing.
    pub fn is_known(&self) -> Result<(), NoMemory>
        ensures ok { OnOk result (self.now ≢ Spent) }
        ensures err { OnErr result (self.now ≡ Spent) }
    {
        match self {
            Stage::Spent => Err(AllocError),
            Stage::Unbegun => Ok(()),
            Stage::Open(_) => Ok(()),
            Stage::Ended(_) => Ok(()),
            Stage::Refused(_) => Ok(()),
        }
    }

    /// Whether more bytes may change what is said; an `Err` where memory was missing.
    pub fn needs_more(&self) -> Result<bool, NoMemory>
        ensures ok { IfOk result (λ needs. (self.now ≢ Spent) × (needs ≡ needs_more self.now)) }
        ensures err { OnErr result (self.now ≡ Spent) }
    {
        match self {
            Stage::Spent => Err(AllocError),
            Stage::Unbegun => Ok(true),
            Stage::Open(_) => Ok(true),
            Stage::Ended(_) => Ok(true),
            Stage::Refused(_) => Ok(false),
        }
    }
}
