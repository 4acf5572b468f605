// Runs a program on a script.
ghost use Rattle.std.specs.Prelude.{◌≡◌, List, IfOk, ℕ};
ghost use Rattle.mc_c_syntax.specs.Ast.Views.{unit_of};
ghost use Rattle.mc_outside.specs.Outside.{HasCause, Stays};
ghost use Rattle.mc_app.specs.Words.Words.{AsksRun};
ghost use Rattle.mc_app.specs.Answers.{IsWhyWords};
ghost use Rattle.mc_app.specs.Runs.{IsWhyRan};

use crate::Answer;
use crate::words::Run;
use mc_c_check::Bound;
use mc_load::inputs::{Sources, read, text};
use mc_outside::{FileFault, Files};
use mc_run::interpret::{Ending, interpret};
use std::alloc::Global;

// How many bytes a script may have.
const SCRIPT_BYTES: u64 = 1_048_576;

/// What the run of a program comes to, where the program and its definitions fit.
#[derive(Drop)]
pub enum Ran {
    /// The script has more than 1,048,576 bytes.
    TooBig,
    To(Ending),
}

// Runs a program with its definitions.
fn run<F: Files>(
    alloc: Global,
    files: &mut F,
    names: Run<'_>,
    bound: &Bound,
) -> Result<Ran, FileFault>
    requires { bound.now.typed.entry ≡ names.start.now }
    ensures why { IfOk result (λ found. IsWhyRan (F.holds files.old) names.entry (unit_of bound.now.typed.unit) bound.now.defs found) }
    ensures same { Stays (F.holds files.old) (F.holds files.new) }
    ensures cause { HasCause (F.faults files.old) (F.faults files.new) result }
{
    match text(alloc, files, names.script, SCRIPT_BYTES)? {
        None => Ok(Ran::TooBig),
        Some(script) => {
            let ending = interpret(alloc, bound, &script, names.fuel)?;
            Ok(Ran::To(ending))
        }
    }
}

/// Reads the program and the definitions that a command names, and runs the program on its script.
pub fn answer_run<F: Files>(
    alloc: Global,
    files: &mut F,
    names: Run<'_>,
) -> Result<Answer, FileFault>
    ensures why { IfOk result (λ a. (words : List (List ℕ)) → AsksRun words names.entry → IsWhyWords (F.holds files.old) words a) }
    ensures same { Stays (F.holds files.old) (F.holds files.new) }
    ensures cause { HasCause (F.faults files.old) (F.faults files.new) result }
{
    let sources = Sources {
        program: names.program,
        definitions: names.definitions,
        start: names.start,
    };
    match read(alloc, files, sources)? {
        Err(refusal) => Ok(Answer::Refused(refusal)),
        Ok(bound) => {
            let found = run(alloc, files, names, &bound)?;
            Ok(Answer::Ran(found))
        }
    }
}
