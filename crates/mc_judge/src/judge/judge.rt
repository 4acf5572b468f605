// Judges documents that come in pieces.
ghost use Rattle.std.specs.Prelude.{◌≡◌, ◌≢◌, ◌+◌, ◌++◌, ◌∷◌, [], ℕ, List, length, IfOk, IfSome, MatchOption, OnErr, OnOk};
ghost use Rattle.mc_lines.specs.Cert.Lines.{lines_of};
ghost use Rattle.mc_flow.specs.declared.defs.rules.Def.{Def};
ghost use Rattle.mc_flow.specs.declared.graph.Flow.{Flow as Graph};
ghost use Rattle.mc_flow.specs.Valid.{IsValid};
ghost use Rattle.mc_judge.specs.Judge.Cuts.{HasNoFeed, IsCut};
ghost use Rattle.mc_judge.specs.declared.judge.stage.Stage.TheVariants.{Spent};
ghost use Rattle.mc_judge.specs.declared.judge.verdict.Refusal.{Refusal as Cause};
ghost use Rattle.mc_judge.specs.Judge.Stages.{HasHeard, Hears, IsAt, StaysFor};
ghost use Rattle.mc_judge.specs.Judge.Verdicts.{IsRefusal, IsVerdict, Tells};
ghost use Rattle.mc_joins.specs.Chains.Judges.{Lore};
ghost use Rattle.mc_joins.specs.Chains.Laws.{IsRight};

use crate::judge::pieces::whole_line;
use crate::judge::stage::{Stage, next_stage};
use crate::judge::{Refusal, Verdict};
use mc_base::NoMemory;
use mc_flow::{Defs, Flow};
use mc_joins::chains::{chain_judges_agree, legal_chains_are_read};
use mc_kernel::reading::documents_are_read;
use mc_lines::cert::{line_is_spelled_once, spelled_lines_are_read};
use std::alloc::{AllocError, Global};
use std::mem;

/// A judge of a document, which comes in pieces: its whole lines are judged as they come, and only the open one is held.
pub struct Judge<'f> {
    alloc: Global,
    flow: &'f Flow,
    defs: &'f Defs,
    stage: Stage<'f>,
    // How many lines are whole.
    lines: u64,
    // The bytes after the last line feed.
    open: Vec<u8>,
}

/// Drops its parts. What holds one calls this.
impl Drop for Judge<'_> {
    fn drop(self) {
        let Judge {
            alloc: _,
            flow: _,
            defs: _,
            stage,
            lines: _,
            open,
        } = self;
        drop(stage);
        drop(open);
    }
}

impl<'f> Judge<'f> {
    /// A judge that has read nothing.
    pub fn new(alloc: Global, flow: &'f Flow, defs: &'f Defs) -> Judge<'f>
        requires { IsValid flow.now defs.now }
        ensures heard { (k : Lore) → IsRight k flow.now defs.now → HasHeard k [] result }
        ensures flow { result.flow.now ≡ flow.now }
        ensures defs { result.defs.now ≡ defs.now }
    {
        Judge {
            alloc,
            flow,
            defs,
            stage: Stage::Unbegun,
            lines: 0,
            open: Vec::new(alloc),
        }
    }

    /// Takes a piece of the document. After an `Err` the judge is of no use, and answers `Err` again.
    pub fn feed(&mut self, piece: &[u8]) -> Result<(), NoMemory>
        requires { IsValid self.old.flow.now self.old.defs.now }
        ensures heard { OnOk result (Hears piece.now self.old self.new) }
        ensures unspent { OnOk result (self.old.stage ≢ Spent) }
        ensures spent { OnErr result (self.new.stage ≡ Spent) }
        ensures same { StaysFor self.old self.new }
    {
        let mut rest = piece;
        while let Some((line, more)) = whole_line(rest) {
            self.close(line)?;
            rest = more;
        }
        self.hold(rest)
    }

    /// Bytes with a line feed after them: the open line is whole.
    fn close(&mut self, bytes: &[u8]) -> Result<(), NoMemory>
        requires valid { IsValid self.old.flow.now self.old.defs.now }
        requires no_feed { HasNoFeed bytes.now }
        ensures heard { OnOk result (Hears (bytes.now ++ 10 ∷ []) self.old self.new) }
        ensures unspent { OnOk result (self.old.stage ≢ Spent) }
        ensures spent { OnErr result (self.new.stage ≡ Spent) }
        ensures same { StaysFor self.old self.new }
    {
        let stage = mem::replace(&mut self.stage, Stage::Spent);
        let number = next_number(self.lines)?;
        self.open.extend_from_slice(bytes)?;
        self.stage = next_stage(
            self.alloc,
            self.flow,
            self.defs,
            stage,
            number,
            self.open.as_slice(),
        );
        self.lines = number;
        self.open.clear();
        self.stage.is_known()
    }

    /// Bytes of a line that is still open. They are held while they are needed.
    fn hold(&mut self, bytes: &[u8]) -> Result<(), NoMemory>
        requires no_feed { HasNoFeed bytes.now }
        ensures heard { OnOk result (Hears bytes.now self.old self.new) }
        ensures unspent { OnOk result (self.old.stage ≢ Spent) }
        ensures spent { OnErr result (self.new.stage ≡ Spent) }
        ensures same { StaysFor self.old self.new }
    {
        if !self.stage.needs_more()? {
            return Ok(());
        }
        let stage = mem::replace(&mut self.stage, Stage::Spent);
        self.open.extend_from_slice(bytes)?;
        self.stage = stage;
        Ok(())
    }

    /// Why the first of the whole lines is refused that is; None exactly where none of them is.
    pub fn refused(&self) -> Option<&Refusal>
        ensures refused { (k : Lore) (text : List ℕ) (texts : List (List ℕ)) (rest : List ℕ)
            → IsRight k self.now.flow.now self.now.defs.now → HasHeard k text self.now → IsCut text texts rest
            → MatchOption result ((cause : Cause) → IsRefusal k self.now.flow.now self.now.defs.now texts cause → ⊥)
            (λ cause. IsRefusal k self.now.flow.now self.now.defs.now texts cause.now) }
        ensures unspent { IfSome result (λ cause. self.now.stage ≢ Spent) }
    {
        // For the proof alone: what is refused is never read.
        line_is_spelled_once();
        spelled_lines_are_read();
        match &self.stage {
            Stage::Refused(cause) => Some(cause),
            Stage::Unbegun => None,
            Stage::Open(_) => None,
            Stage::Ended(_) => None,
            Stage::Spent => None,
        }
    }

    /// The verdict on the document, however it was cut into pieces. No memory also where a piece found none.
    pub fn finish(self) -> Result<Verdict, NoMemory>
        requires { IsValid self.flow.now self.defs.now }
        ensures verdict { (k : Lore) (text : List ℕ)
            → IsRight k self.entry.flow.now self.entry.defs.now → HasHeard k text self.entry
            → IfOk result (IsVerdict k self.entry.flow.now self.entry.defs.now (lines_of text)) }
        ensures tells { (k : Lore) (text : List ℕ)
            → IsRight k self.entry.flow.now self.entry.defs.now → HasHeard k text self.entry
            → IfOk result (Tells self.entry.flow.now self.entry.defs.now text) }
        ensures unspent { IfOk result (λ verdict. self.entry.stage ≢ Spent) }
    {
        // For the proof alone: which documents are read is known without a judge.
        line_is_spelled_once();
        spelled_lines_are_read();
        documents_are_read();
        legal_chains_are_read();
        chain_judges_agree();
        let Judge {
            alloc,
            flow,
            defs,
            stage,
            lines,
            open,
        } = self;
        let bytes = open.as_slice();
        if bytes.is_empty() {
            return verdict(&stage);
        }
        let number = next_number(lines)?;
        let last = next_stage(alloc, flow, defs, stage, number, bytes);
        verdict(&last)
    }
}

/// The number of the next line. No memory where lines can't be counted any more.
fn next_number(lines: u64) -> Result<u64, NoMemory>
    ensures { IfOk result (λ number. number ≡ lines + 1) }
{
    match lines.checked_add(1) {
        Some(number) => Ok(number),
        None => Err(AllocError),
    }
}

/// The verdict where a judge stands at the end of the document.
fn verdict(stage: &Stage<'_>) -> Result<Verdict, NoMemory>
    ensures verdict { (k : Lore) (flow : Graph) (defs : List Def) (texts : List (List ℕ))
        → IsAt k flow defs texts stage.now → IfOk result (IsVerdict k flow defs texts) }
    ensures unspent { IfOk result (λ verdict. stage.now ≢ Spent) }
{
    match stage {
        Stage::Unbegun => Ok(Verdict::Refused(Refusal::EndsEarly)),
        Stage::Open(_) => Ok(Verdict::Refused(Refusal::EndsEarly)),
        Stage::Ended(verdict) => Ok(*verdict),
        Stage::Refused(cause) => Ok(Verdict::Refused(*cause)),
        Stage::Spent => Err(AllocError),
    }
}
