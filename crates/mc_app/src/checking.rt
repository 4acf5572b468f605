// Checks a document.
ghost use Rattle.std.specs.Prelude.{◌≡◌, List, IfOk, ℕ};
ghost use Rattle.mc_c_syntax.specs.Ast.Views.{unit_of};
ghost use Rattle.mc_load.specs.Inputs.Texts.{IsWellFormed};
ghost use Rattle.mc_outside.specs.Outside.{HasCause, Stays};
ghost use Rattle.mc_app.specs.Words.Words.{AsksCheck};
ghost use Rattle.mc_app.specs.declared.words.words.Request.TheVariants as Meant;
ghost use Rattle.mc_app.specs.Answers.{IsWhyWords, sources_of};
ghost use Rattle.mc_app.specs.Checks.{IsSafeUnit, IsSafeWhereTold, IsWhyChecked};

use crate::Answer;
use crate::documents::verdict_in;
use crate::words::Check;
use mc_c_check::Bound;
use mc_c_grammar::places::ascending_places_differ;
use mc_judge::judge::Verdict;
use mc_load::inputs::{Sources, read};
use mc_load::lowered::graph;
use mc_load::read::programs_have_distinct_places;
use mc_lower_laws::scoped::{faults_are_in_flow_graphs, safe_flow_graphs_mean_safe_trees};
use mc_outside::{FileFault, Files};
use std::alloc::Global;

/// What the check of a document comes to, where the program and its definitions fit.
#[derive(Drop)]
pub enum Checked {
    /// The flow graph of the program has more than 10,000 points.
    TooLong,
    Judged(Verdict),
}

// Checks a document of a program with its definitions.
fn check<F: Files>(
    alloc: Global,
    files: &mut F,
    names: Check<'_>,
    bound: &Bound,
) -> Result<Checked, FileFault>
    requires well_formed { IsWellFormed names.start.now (unit_of bound.now.typed.unit) }
    requires start { bound.now.typed.entry ≡ names.start.now }
    ensures why { IfOk result (λ found. IsWhyChecked (F.holds files.old) names.entry (unit_of bound.now.typed.unit) bound.now.defs found) }
    ensures safe { IfOk result (λ found. found ≡ Checked.Judged Verdict.Safe
        → IsSafeUnit names.entry.start.now (unit_of bound.now.typed.unit) bound.now.defs) }
    ensures same { Stays (F.holds files.old) (F.holds files.new) }
    ensures cause { HasCause (F.faults files.old) (F.faults files.new) result }
{
    // For the proof alone: a safe flow graph means a safe program, whose faults are those of its flow graph.
    safe_flow_graphs_mean_safe_trees();
    faults_are_in_flow_graphs();
    programs_have_distinct_places();
    ascending_places_differ();
    let defs = bound.defs();
    match graph(alloc, bound)? {
        Ok(lowered) => {
            let verdict = verdict_in(alloc, files, names.document, &lowered.flow, defs)?;
            Ok(Checked::Judged(verdict))
        }
        Err(_) => Ok(Checked::TooLong),
    }
}

/// Reads the program and the definitions that a command names, and checks its document.
pub fn answer_check<F: Files>(
    alloc: Global,
    files: &mut F,
    names: Check<'_>,
) -> Result<Answer, FileFault>
    ensures why { IfOk result (λ a. (words : List (List ℕ)) → AsksCheck words names.entry → IsWhyWords (F.holds files.old) words a) }
    ensures safe { IfOk result (λ a. a ≡ Answer.Checked (Checked.Judged Verdict.Safe)
        → IsSafeWhereTold (F.holds files.old) (sources_of (Meant.Check names.entry))) }
    ensures same { Stays (F.holds files.old) (F.holds files.new) }
    ensures cause { HasCause (F.faults files.old) (F.faults files.new) result }
{
    let sources = Sources {
        program: names.program,
        definitions: names.definitions,
        start: names.start,
    };
    match read(alloc, files, sources)? {
        Err(refusal) => Ok(Answer::Refused(refusal)),
        Ok(bound) => {
            let found = check(alloc, files, names, &bound)?;
            Ok(Answer::Checked(found))
        }
    }
}
