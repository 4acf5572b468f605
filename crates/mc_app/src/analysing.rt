// Analyses a program.
ghost use Rattle.std.specs.Prelude.{◌≡◌, List, IfOk, ℕ};
ghost use Rattle.mc_find.specs.declared.analysis.analysis.Analysis.TheVariants.{Safe};
ghost use Rattle.mc_c_syntax.specs.Ast.Views.{unit_of};
ghost use Rattle.mc_load.specs.Inputs.Texts.{IsWellFormed};
ghost use Rattle.mc_outside.specs.Outside.{HasCause, Stays};
ghost use Rattle.mc_app.specs.declared.words.words.Request.TheVariants as Meant;
ghost use Rattle.mc_app.specs.Words.Words.{AsksAnalyse};
ghost use Rattle.mc_app.specs.Analyses.{IsWhyAnalysed};
ghost use Rattle.mc_app.specs.Answers.{IsWhyWords, sources_of};
ghost use Rattle.mc_app.specs.Checks.{IsSafeUnit, IsSafeWhereTold};

use crate::Answer;
use crate::tried::with_scripts;
use crate::words::Analyse;
use mc_base::text::Place;
use mc_base::{FaultKind, NoMemory};
use mc_c_check::Bound;
use mc_c_grammar::places::ascending_places_differ;
use mc_exact::{closed_alarms_are_marked, marks_are_exact};
use mc_find::Runs;
use mc_find::analysis::{Analysis, Findings, Settings, analyse};
use mc_kernel::{certificates_are_safe, last_pass_finds_faults};
use mc_load::inputs::{Sources, read};
use mc_load::lowered::graph;
use mc_load::read::programs_have_distinct_places;
use mc_lower_laws::closed::closed_programs_ask_for_malloc_alone;
use mc_lower_laws::scoped::{faults_are_in_flow_graphs, safe_flow_graphs_mean_safe_trees};
use mc_outside::{FileFault, Files};
use mc_real::marked_alarms_are_real;
use mc_tries::faults;
use std::alloc::{AllocError, Global};

/// What the analysis of a program comes to, where the program and its definitions fit.
#[derive(Drop)]
pub enum Analysed {
    /// The flow graph of the program has more than 10,000 points.
    TooLong,
    Found(Analysis),
    /// Alarms, so many, and their report with scripts that were found by running.
    Tried(Findings, u64, Vec<u8>),
}

// How many runs are tried before a search goes on.
const FEW: u64 = 100;

// A few runs of a program.
#[derive(Drop)]
struct FewRuns<'a> {
    bound: &'a Bound,
}

impl Runs for FewRuns<'_> {
    fn faults(&self, alloc: Global) -> Result<Vec<(FaultKind, Place)>, NoMemory> {
        faults(alloc, self.bound, FEW)
    }
}

// How the words want a flow graph to be analysed.
fn settings(names: Analyse<'_>) -> Settings
    ensures { result.merge ≡ names.entry.merge }
{
    Settings {
        states: names.disjuncts as usize,
        rounds: names.rounds,
        merge: names.merge,
    }
}

// Analyses a program with its definitions.
fn analyse_bound(alloc: Global, names: Analyse<'_>, bound: &Bound) -> Result<Analysed, AllocError>
    requires well_formed { IsWellFormed names.start.now (unit_of bound.now.typed.unit) }
    requires start { bound.now.typed.entry ≡ names.start.now }
    ensures why { IfOk result (λ found. IsWhyAnalysed names.entry (unit_of bound.now.typed.unit) bound.now.defs found) }
    ensures safe { IfOk result (λ found. (f : Findings) → found ≡ Analysed.Found (Safe f)
        → IsSafeUnit names.entry.start.now (unit_of bound.now.typed.unit) bound.now.defs) }
{
    // For the proof alone: a certificate means a safe flow graph, and that a safe program; a chain without changes tells by which
    // branches faults come, and a program's faults are those of its flow graph; alarms with answers of malloc are real, and those
    // of closed programs all have some.
    certificates_are_safe();
    safe_flow_graphs_mean_safe_trees();
    last_pass_finds_faults();
    faults_are_in_flow_graphs();
    programs_have_distinct_places();
    ascending_places_differ();
    marks_are_exact();
    closed_alarms_are_marked();
    marked_alarms_are_real();
    closed_programs_ask_for_malloc_alone();
    let defs = bound.defs();
    match graph(alloc, bound)? {
        Ok(lowered) => {
            let runs = FewRuns { bound };
            let found = analyse(alloc, &lowered.flow, defs, settings(names), &runs)?;
            Ok(Analysed::Found(found))
        }
        Err(_) => Ok(Analysed::TooLong),
    }
}

// Analyses a program with its definitions, and tries runs for its alarms.
fn analyse_and_try(alloc: Global, names: Analyse<'_>, bound: &Bound) -> Result<Analysed, AllocError>
    requires well_formed { IsWellFormed names.start.now (unit_of bound.now.typed.unit) }
    requires start { bound.now.typed.entry ≡ names.start.now }
    ensures why { IfOk result (λ found. IsWhyAnalysed names.entry (unit_of bound.now.typed.unit) bound.now.defs found) }
    ensures safe { IfOk result (λ found. (f : Findings) → found ≡ Analysed.Found (Safe f)
        → IsSafeUnit names.entry.start.now (unit_of bound.now.typed.unit) bound.now.defs) }
{
    let found = analyse_bound(alloc, names, bound)?;
    with_scripts(alloc, names, bound, found)
}

/// Reads the program and the definitions that a command names, and analyses the program.
pub fn answer_analysis<F: Files>(
    alloc: Global,
    files: &mut F,
    names: Analyse<'_>,
) -> Result<Answer, FileFault>
    ensures why { IfOk result (λ a. (words : List (List ℕ)) → AsksAnalyse words names.entry → IsWhyWords (F.holds files.old) words a) }
    ensures safe { IfOk result (λ a. (f : Findings) → a ≡ Answer.Analysed (Analysed.Found (Safe f))
        → IsSafeWhereTold (F.holds files.old) (sources_of (Meant.Analyse names.entry))) }
    ensures same { Stays (F.holds files.old) (F.holds files.new) }
    ensures cause { HasCause (F.faults files.old) (F.faults files.new) result }
{
    let sources = Sources {
        program: names.program,
        definitions: names.definitions,
        start: names.start,
    };
    match read(alloc, files, sources)? {
        Err(refusal) => Ok(Answer::Refused(refusal)),
        Ok(bound) => {
            let found = analyse_and_try(alloc, names, &bound)?;
            Ok(Answer::Analysed(found))
        }
    }
}
