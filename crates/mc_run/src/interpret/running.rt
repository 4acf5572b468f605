// A program is run on a script.
ghost use Rattle.std.specs.Prelude.{IfOk, slice_get};
ghost use Rattle.mc_c_syntax.specs.Ast.Views.{unit_of};
ghost use Rattle.mc_lines.specs.Cert.Lines.{lines_of};
ghost use Rattle.mc_semantics.specs.Resolved.Views.{program_of};
ghost use Rattle.mc_run.specs.Runs.{RunsFrom};
ghost use Rattle.mc_run.specs.Interpret.Programs.{ProgramRuns, ResolvedRuns};

use crate::interpret::ending::{Ending, ending_of};
use crate::{Outcome, Program, run};
use mc_base::NoMemory;
use mc_c_check::Bound;
use mc_flow::defs::Defs;
use mc_resolve::resolve;
use mc_run_values::script::{NamedStructs, Script, struct_texts};
use mc_semantics::resolved::{
    Resolved, resolved_programs_run_alike, resolved_programs_stand_alike,
};
use mc_semantics::waiting::programs_step_end_or_wait;
use std::alloc::Global;

// What a resolved program comes to.
fn run_with(
    alloc: Global,
    resolved: &Resolved,
    defs: &Defs,
    structs: &NamedStructs<'_>,
    script: &[u8],
    fuel: u64,
) -> Result<Outcome, NoMemory>
    ensures { IfOk result
        (λ outcome. RunsFrom (program_of resolved.now defs.now) structs.now (lines_of script.now) fuel outcome
        (slice_get (program_of resolved.now defs.now).functions (program_of resolved.now defs.now).entry)) }
{
    let program = Program {
        resolved,
        defs,
        structs,
    };
    run(alloc, program, &mut Script::of(script), fuel)
}

// What the program with its names resolved comes to.
fn run_resolved(alloc: Global, bound: &Bound, script: &[u8], fuel: u64) -> Result<Outcome, NoMemory>
    ensures { IfOk result
        (λ outcome. ResolvedRuns (unit_of bound.now.typed.unit) bound.now.typed.entry bound.now.defs
        (lines_of script.now) fuel outcome) }
{
    let resolved = resolve(alloc, bound)?;
    let infos = bound.typed().structs().list.as_slice();
    let texts = struct_texts(alloc, infos)?;
    let structs = NamedStructs::of(alloc, infos, texts.as_slice())?;
    run_with(alloc, &resolved, bound.defs(), &structs, script, fuel)
}

/// What the program comes to with the choices of a script, in at most so many steps. The only error is want of memory.
pub fn interpret(alloc: Global, bound: &Bound, script: &[u8], fuel: u64) -> Result<Ending, NoMemory>
    ensures { IfOk result
        (λ ending. ProgramRuns (unit_of bound.now.typed.unit) bound.now.typed.entry bound.now.defs
        (lines_of script.now) fuel ending) }
{
    // For the proof alone: the program runs as its resolved program does, and is never stuck.
    resolved_programs_run_alike();
    resolved_programs_stand_alike();
    programs_step_end_or_wait();
    let outcome = run_resolved(alloc, bound, script, fuel)?;
    Ok(ending_of(outcome))
}
