// Scripts on which a program faults, each of which was run.
ghost use Rattle.std.specs.Prelude.{◌↔◌, All, IfOk, IfSome, IsTrue};
ghost use Rattle.mc_c_syntax.specs.Ast.Views.{unit_of};
ghost use Rattle.mc_tries.specs.Found.{FaultsOnScript, IsFound, IsNoBlank};

use crate::constants::constants_of;
use crate::numbers::Numbers;
use crate::search::{Candidate, Effort, Tried, try_runs};
use crate::shorten::joined;
use crate::walk::{STEPS, Task};
use mc_base::text::Place;
use mc_base::{FaultKind, NoMemory};
use mc_c_check::Bound;
use mc_resolve::resolve;
use mc_run::Program;
use mc_run::interpret::{Ending, faults_are_one, interpret};
use mc_run_values::script::{NamedStructs, struct_texts};
use mc_semantics::resolved::Resolved;
use std::alloc::Global;

// How many steps all runs for scripts make together at most.
const STEPS_FOR_SCRIPTS: u64 = 3_000_000;

// How many steps all runs for faults make together at most.
const STEPS_FOR_FAULTS: u64 = 5_000;

/// A script, and the fault of a program's run on it.
#[derive(Drop)]
pub struct Found {
    pub kind: FaultKind,
    pub place: Place,
    pub script: Vec<u8>,
}

// Runs of a resolved program, none of whose candidates was run as a whole.
fn runs_of(
    alloc: Global,
    bound: &Bound,
    program: Program<'_>,
    numbers: &Numbers,
    places: &[Place],
    effort: Effort,
) -> Result<Tried, NoMemory> {
    let Some(entry) = program.resolved.functions.get(program.resolved.entry) else {
        return Ok(Tried {
            candidates: Vec::new(alloc),
            faults: Vec::new(alloc),
        });
    };
    let task = Task {
        alloc,
        program,
        structs: bound.typed().structs().list.as_slice(),
        entry,
        numbers,
    };
    try_runs(task, places, effort)
}

// The same, with the names of its structs.
fn runs_with(
    alloc: Global,
    bound: &Bound,
    resolved: &Resolved,
    structs: &NamedStructs<'_>,
    places: &[Place],
    effort: Effort,
) -> Result<Tried, NoMemory> {
    let constants = constants_of(alloc, resolved, bound.defs().as_slice())?;
    let numbers = Numbers::of(alloc, constants.as_slice())?;
    let program = Program {
        resolved,
        defs: bound.defs(),
        structs,
    };
    runs_of(alloc, bound, program, &numbers, places, effort)
}

// Runs of a program, for candidates for some places.
fn runs_for(
    alloc: Global,
    bound: &Bound,
    places: &[Place],
    effort: Effort,
) -> Result<Tried, NoMemory> {
    let resolved = resolve(alloc, bound)?;
    let infos = bound.typed().structs().list.as_slice();
    let texts = struct_texts(alloc, infos)?;
    let structs = NamedStructs::of(alloc, infos, texts.as_slice())?;
    runs_with(alloc, bound, &resolved, &structs, places, effort)
}

// Whether no byte is a blank.
fn has_no_blank(bytes: &[u8]) -> bool
    ensures { IsTrue result ↔ All IsNoBlank bytes.now }
{
    bytes.iter().all(|byte| *byte != b' ')
}

// The kind of the fault at a place to which the program comes with a script, if it comes to one.
fn kind_of(
    alloc: Global,
    bound: &Bound,
    place: Place,
    script: &[u8],
) -> Result<Option<FaultKind>, NoMemory>
    ensures { IfOk result (λ found. IfSome found (λ kind. FaultsOnScript bound.now.typed.entry (unit_of bound.now.typed.unit)
        bound.now.defs kind place script.now)) }
{
    // For the proof alone: a program comes to one end with a script.
    faults_are_one();
    match interpret(alloc, bound, script, STEPS)? {
        Ending::Fault(kind, at) => {
            if at == place {
                Ok(Some(kind))
            } else {
                Ok(None)
            }
        }
        Ending::Ended => Ok(None),
        Ending::Stopped => Ok(None),
        Ending::FuelSpent => Ok(None),
        Ending::Short(_) => Ok(None),
        Ending::Bad(_) => Ok(None),
    }
}

// A script is run: it is found where the program faults at the place.
fn tried(
    alloc: Global,
    bound: &Bound,
    place: Place,
    script: Vec<u8>,
) -> Result<Option<Found>, NoMemory>
    ensures { IfOk result (λ found. IfSome found (IsFound bound.now.typed.entry (unit_of bound.now.typed.unit) bound.now.defs)) }
{
    if !has_no_blank(script.as_slice()) {
        return Ok(None);
    }
    match kind_of(alloc, bound, place, script.as_slice())? {
        Some(kind) => Ok(Some(Found {
            kind,
            place,
            script,
        })),
        None => Ok(None),
    }
}

// A candidate is run.
fn confirmed(alloc: Global, bound: &Bound, candidate: &Candidate) -> Result<Option<Found>, NoMemory>
    ensures { IfOk result (λ found. IfSome found (IsFound bound.now.typed.entry (unit_of bound.now.typed.unit) bound.now.defs)) }
{
    let Some(lines) = &candidate.lines else {
        return Ok(None);
    };
    let script = joined(alloc, lines.as_slice(), 0, 0)?;
    tried(alloc, bound, candidate.place, script)
}

// The candidates that are found.
fn all_confirmed(
    alloc: Global,
    bound: &Bound,
    candidates: &[Candidate],
) -> Result<Vec<Found>, NoMemory>
    ensures { IfOk result (λ found. All (IsFound bound.now.typed.entry (unit_of bound.now.typed.unit) bound.now.defs) found.items) }
{
    let mut list = Vec::new(alloc);
    for candidate in candidates {
        if let Some(found) = confirmed(alloc, bound, candidate)? {
            list.push(found)?;
        }
    }
    Ok(list)
}

/// Scripts on which the program faults at some of the places, found in at most so many runs.
pub fn scripts(
    alloc: Global,
    bound: &Bound,
    places: &[Place],
    runs: u64,
) -> Result<Vec<Found>, NoMemory>
    ensures { IfOk result (λ found. All (IsFound bound.now.typed.entry (unit_of bound.now.typed.unit) bound.now.defs) found.items) }
{
    if places.is_empty() || runs == 0 {
        return Ok(Vec::new(alloc));
    }
    let effort = Effort {
        runs,
        steps: STEPS_FOR_SCRIPTS,
    };
    let tried = runs_for(alloc, bound, places, effort)?;
    all_confirmed(alloc, bound, tried.candidates.as_slice())
}

/// The faults to which so many runs of the program come, and their places, each once. Nothing is claimed of them: the runs' lines
/// are not kept.
pub fn faults(
    alloc: Global,
    bound: &Bound,
    runs: u64,
) -> Result<Vec<(FaultKind, Place)>, NoMemory> {
    let effort = Effort {
        runs,
        steps: STEPS_FOR_FAULTS,
    };
    let tried = runs_for(alloc, bound, &[], effort)?;
    Ok(tried.faults)
}
