// What is seen of programs that were made.
ghost use Rattle.std.specs.Prelude.{◌≡◌, IfOk};
ghost use Rattle.mc_c_syntax.specs.Ast.Views.{unit_of};
ghost use Rattle.mc_flow.specs.Valid.{IsValid};
ghost use Rattle.mc_load.specs.Inputs.Texts.{IsWellFormed};
ghost use Rattle.mc_app.specs.Demo.Demo.{has_alarms, is_limit, is_safe};
ghost use Rattle.mc_app.specs.Demo.Seen.{IsSeen, IsSeenOf, IsSeenWith, start};

use crate::documents::verdict_on;
use mc_c_check::Bound;
use mc_find::NoRuns;
use mc_find::analysis::{Analysis, Settings, analyse};
use mc_flow::{Defs, Flow};
use mc_gen::definitions;
use mc_joins::chains::{lores_are_there, short_chains_are_legal};
use mc_judge::judge::Verdict;
use mc_load::inputs::read_pair;
use mc_load::lowered::graph;
use std::alloc::{AllocError, Global};

// The function that runs of these programs begin with.
const START: &str = "main";

// How their flow graphs are analysed.
const SETTINGS: Settings = Settings {
    states: 16,
    rounds: 30,
    merge: false,
};

/// What is seen of a program that was made.
#[derive(Drop)]
pub enum Seen {
    /// It is refused, or its flow graph has more than 10,000 points.
    Unread,
    /// Its analysis gave up.
    NotYet,
    /// Its analysis came to the limit of branches.
    Paths,
    /// The verdict on the document that its analysis wrote.
    Judged(Verdict),
}

impl Seen {
    /// Whether the document is a certificate.
    pub fn is_safe(&self) -> bool
        ensures { result ≡ is_safe self.now }
    {
        match self {
            Seen::Unread => false,
            Seen::NotYet => false,
            Seen::Paths => false,
            Seen::Judged(Verdict::Safe) => true,
            Seen::Judged(Verdict::Alarms(_)) => false,
            Seen::Judged(Verdict::Refused(_)) => false,
        }
    }

    /// Whether the document is a chain with alarms.
    pub fn has_alarms(&self) -> bool
        ensures { result ≡ has_alarms self.now }
    {
        match self {
            Seen::Unread => false,
            Seen::NotYet => false,
            Seen::Paths => false,
            Seen::Judged(Verdict::Safe) => false,
            Seen::Judged(Verdict::Alarms(_)) => true,
            Seen::Judged(Verdict::Refused(_)) => false,
        }
    }

    /// Whether the analysis came to its limit.
    pub fn is_limit(&self) -> bool
        ensures { result ≡ is_limit self.now }
    {
        match self {
            Seen::Unread => false,
            Seen::NotYet => false,
            Seen::Paths => true,
            Seen::Judged(_) => false,
        }
    }
}

// What is seen of a flow graph.
fn of_flow(alloc: Global, flow: &Flow, defs: &Defs) -> Result<Seen, AllocError>
    requires { IsValid flow.now defs.now }
    ensures { IfOk result (IsSeenOf flow.now defs.now) }
{
    // For the proof alone: a chain of one pass is a final legal chain, and there is what tells so.
    lores_are_there();
    short_chains_are_legal();
    match analyse(alloc, flow, defs, SETTINGS, &NoRuns)? {
        Analysis::Unknown => Ok(Seen::NotYet),
        Analysis::Paths(_) => Ok(Seen::Paths),
        Analysis::Safe(findings) => {
            let verdict = verdict_on(alloc, &findings.document, flow, defs)?;
            Ok(Seen::Judged(verdict))
        }
        Analysis::Alarms(findings, _) => {
            let verdict = verdict_on(alloc, &findings.document, flow, defs)?;
            Ok(Seen::Judged(verdict))
        }
    }
}

// What is seen of a program with its definitions.
fn of_bound(alloc: Global, bound: &Bound) -> Result<Seen, AllocError>
    requires well_formed { IsWellFormed start (unit_of bound.now.typed.unit) }
    requires start { bound.now.typed.entry ≡ start }
    ensures { IfOk result (IsSeenWith (unit_of bound.now.typed.unit) bound.now.defs) }
{
    let defs = bound.defs();
    match graph(alloc, bound)? {
        Ok(lowered) => {
            let seen = of_flow(alloc, &lowered.flow, defs)?;
            Ok(seen)
        }
        Err(_) => Ok(Seen::Unread),
    }
}

/// What is seen of the text of a program that was made.
pub fn seen_of(alloc: Global, text: &[u8]) -> Result<Seen, AllocError>
    ensures { IfOk result (IsSeen text.now) }
{
    match read_pair(alloc, text, definitions(), START)? {
        Err(_) => Ok(Seen::Unread),
        Ok(bound) => {
            let seen = of_bound(alloc, &bound)?;
            Ok(seen)
        }
    }
}
