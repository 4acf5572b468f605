// Runs with any fuel, none too, which the words of the command line refuse.
use crate::input::bytes;
use anyhow::{Result, bail};
use mc_base::NoMemory;
use mc_c_check::{Bound, Typed, bind};
use mc_c_syntax::lex::MAX_BYTES;
use mc_cases::Case;
use mc_def_read::read_defs;
use mc_flow::Defs;
use mc_load::read::read;
use mc_resolve::resolve;
use mc_run::{Outcome, Program, run};
use mc_run_values::script::{NamedStructs, Script, struct_texts};
use mc_semantics::resolved::Resolved;
use std::alloc::Global;

// The program of a text.
fn typed(alloc: Global, text: &[u8]) -> Result<Typed> {
    if text.len() > MAX_BYTES {
        bail!("too long");
    }
    match read(alloc, text, b"main") {
        Ok(typed) => Ok(typed),
        Err(_) => bail!("no program"),
    }
}

// A program with the definitions of a text.
fn bound(alloc: Global, typed: Typed, text: &[u8]) -> Result<Bound> {
    if text.len() > MAX_BYTES {
        bail!("too long");
    }
    let Ok(defs) = read_defs(alloc, text, typed.structs()) else {
        bail!("no definitions");
    };
    match bind(alloc, typed, defs) {
        Ok(bound) => Ok(bound),
        Err(_) => bail!("the program does not fit the definitions"),
    }
}

/// What the run of a case's program on its script comes to.
pub fn came(alloc: Global, case: Case<'_>) -> Result<String> {
    let text = bytes(alloc, case, "program")?;
    let typed = typed(alloc, text.as_slice())?;
    let text = bytes(alloc, case, "definitions")?;
    let bound = bound(alloc, typed, text.as_slice())?;
    let script = bytes(alloc, case, "script")?;
    let outcome = outcome_of(alloc, &bound, script.as_slice(), case.number("fuel")?)?;
    Ok(format!(in alloc; "{outcome:?}")?)
}

// What a program comes to.
fn outcome_of(alloc: Global, bound: &Bound, script: &[u8], fuel: u64) -> Result<Outcome, NoMemory> {
    let resolved = resolve(alloc, bound)?;
    let infos = bound.typed().structs().list.as_slice();
    let texts = struct_texts(alloc, infos)?;
    let structs = NamedStructs::of(alloc, infos, texts.as_slice())?;
    run_with(alloc, &resolved, bound.defs(), &structs, script, fuel)
}

// What a resolved program comes to.
fn run_with(
    alloc: Global,
    resolved: &Resolved,
    defs: &Defs,
    structs: &NamedStructs<'_>,
    script: &[u8],
    fuel: u64,
) -> Result<Outcome, NoMemory> {
    let program = Program {
        resolved,
        defs,
        structs,
    };
    run(alloc, program, &mut Script::of(script), fuel)
}
