// Reads a program and its definitions, and binds its shape commands to them.
ghost use Rattle.std.specs.Prelude.{◌≡◌, ◌≤◌, ◌^◌, IfOk, MatchResult, length};
ghost use Rattle.mc_c_syntax.specs.Ast.Views.{unit_of};
ghost use Rattle.mc_flow.specs.Defs.Conditions.{DefsFit};
ghost use Rattle.mc_load.specs.Inputs.Inputs.{AreInputs, IsBoundIn, IsRefused, IsRefusedWith};
ghost use Rattle.mc_load.specs.Inputs.Texts.{AreDefinitions, HasMisfit, IsProgramHere, IsUndefined, IsUnread, IsWellFormed};
ghost use Rattle.mc_outside.specs.Outside.{HasCause, Stays, WhereTold};
ghost use Rattle.mc_c_check.specs.Programs.{Binds};
ghost use Rattle.mc_c_types.specs.Shapes.{IsBound};
ghost use Rattle.mc_c_types.specs.Tables.{struct_infos};

use crate::inputs::contents::text;
use crate::inputs::refusal::{NoDefinitions, NoProgram, Refusal};
use crate::read::{ReadFault, Refusal as ProgramFault};
use mc_c_check::{Bound, Typed, bind};
use mc_c_types::TypeFault;
use mc_def_read::{DefFault, read_defs};
use mc_flow::defs::Defs;
use mc_outside::{FileFault, Files};
use std::alloc::{AllocError, Global};

/// How many bytes a program may have.
pub const PROGRAM_BYTES: u64 = 1_048_576;

/// How many bytes definitions may have.
pub const DEFINITION_BYTES: u64 = 262_144;

/// The files of a program and of its definitions.
#[derive(Clone, Copy, Debug, PartialEq, Eq)]
pub struct Sources<'w> {
    pub program: &'w str,
    pub definitions: &'w str,
    /// The function that runs begin with.
    pub start: &'w str,
}

/// The program of a text, or why there is none.
pub fn read_program(
    alloc: Global,
    bytes: &[u8],
    start: &str,
) -> Result<Result<Typed, NoProgram>, AllocError>
    requires { length bytes.now ≤ 2 ^ 20 }
    ensures read { IfOk result (λ r. MatchResult r (λ t. IsProgramHere start.now bytes.now (unit_of t.unit))
        (IsUnread start.now bytes.now)) }
    ensures well_formed { IfOk result (λ r. IfOk r (λ t. IsWellFormed start.now (unit_of t.unit))) }
    ensures start { IfOk result (λ r. IfOk r (λ t. t.entry ≡ start.now)) }
{
    match crate::read::read(alloc, bytes, start.as_bytes()) {
        Ok(typed) => Ok(Ok(typed)),
        Err(ReadFault::Refused(fault)) => Ok(Err(NoProgram::Refused(fault))),
        Err(ReadFault::NoMemory) => Err(AllocError),
    }
}

fn program_in<F: Files>(
    alloc: Global,
    files: &mut F,
    name: &str,
    start: &str,
) -> Result<Result<Typed, NoProgram>, FileFault>
    ensures told { WhereTold (F.holds files.old name.now)
        (λ text. IfOk result (λ r. MatchResult r (λ t. IsProgramHere start.now text (unit_of t.unit))
        (IsUnread start.now text))) }
    ensures well_formed { IfOk result (λ r. IfOk r (λ t. IsWellFormed start.now (unit_of t.unit))) }
    ensures start { IfOk result (λ r. IfOk r (λ t. t.entry ≡ start.now)) }
    ensures same { Stays (F.holds files.old) (F.holds files.new) }
    ensures cause { HasCause (F.faults files.old) (F.faults files.new) result }
{
    match text(alloc, files, name, PROGRAM_BYTES)? {
        None => Ok(Err(NoProgram::TooBig)),
        Some(bytes) => {
            let read = read_program(alloc, &bytes, start)?;
            Ok(read)
        }
    }
}

/// The definitions of a text over a program's structs, or why there are none.
pub fn read_definitions(
    alloc: Global,
    bytes: &[u8],
    typed: &Typed,
) -> Result<Result<Defs, NoDefinitions>, AllocError>
    requires { length bytes.now ≤ 2 ^ 18 }
    ensures read { IfOk result (λ r. MatchResult r (λ defs. AreDefinitions (unit_of typed.now.unit) defs bytes.now)
        (λ cause. IsUndefined (unit_of typed.now.unit) cause bytes.now)) }
    ensures fit { IfOk result (λ r. IfOk r (λ defs. DefsFit (struct_infos (unit_of typed.now.unit)) defs)) }
{
    match read_defs(alloc, bytes, typed.structs()) {
        Ok(defs) => Ok(Ok(defs)),
        Err(DefFault::Refused(fault)) => Ok(Err(NoDefinitions::Refused(fault))),
        Err(DefFault::NoMemory) => Err(AllocError),
    }
}

fn definitions_in<F: Files>(
    alloc: Global,
    files: &mut F,
    name: &str,
    typed: &Typed,
) -> Result<Result<Defs, NoDefinitions>, FileFault>
    ensures told { WhereTold (F.holds files.old name.now)
        (λ text. IfOk result (λ r. MatchResult r (λ defs. AreDefinitions (unit_of typed.now.unit) defs text)
        (λ cause. IsUndefined (unit_of typed.now.unit) cause text))) }
    ensures fit { IfOk result (λ r. IfOk r (λ defs. DefsFit (struct_infos (unit_of typed.now.unit)) defs)) }
    ensures same { Stays (F.holds files.old) (F.holds files.new) }
    ensures cause { HasCause (F.faults files.old) (F.faults files.new) result }
{
    match text(alloc, files, name, DEFINITION_BYTES)? {
        None => Ok(Err(NoDefinitions::TooBig)),
        Some(bytes) => {
            let read = read_definitions(alloc, &bytes, typed)?;
            Ok(read)
        }
    }
}

/// The program with its definitions, or the first fault of its shape commands.
pub fn bound(
    alloc: Global,
    typed: Typed,
    defs: Defs,
) -> Result<Result<Bound, ProgramFault>, AllocError>
    requires { DefsFit (struct_infos (unit_of typed.unit)) defs }
    ensures { IfOk result (λ r. MatchResult r (λ bound. Binds bound typed defs × IsBound (unit_of typed.unit) defs)
        (HasMisfit (unit_of typed.unit) defs)) }
{
    match bind(alloc, typed, defs) {
        Ok(bound) => {
            // For the proof alone: its shape commands fit.
            bound.defs();
            Ok(Ok(bound))
        }
        Err(TypeFault::Refused(fault)) => Ok(Err(ProgramFault::of_typing(fault))),
        Err(TypeFault::NoMemory) => Err(AllocError),
    }
}

// A program with the definitions that a file holds, or why there are none that it fits.
fn with_definitions<F: Files>(
    alloc: Global,
    files: &mut F,
    sources: Sources<'_>,
    typed: Typed,
) -> Result<Result<Bound, Refusal>, FileFault>
    ensures read { IfOk result (λ r. MatchResult r (IsBoundIn (F.holds files.old) sources.entry typed)
        (IsRefusedWith (F.holds files.old) sources.entry (unit_of typed.unit))) }
    ensures same { Stays (F.holds files.old) (F.holds files.new) }
    ensures cause { HasCause (F.faults files.old) (F.faults files.new) result }
{
    match definitions_in(alloc, files, sources.definitions, &typed)? {
        Err(cause) => Ok(Err(Refusal::Definitions(cause))),
        Ok(defs) => match bound(alloc, typed, defs)? {
            Err(fault) => Ok(Err(Refusal::Misfit(fault))),
            Ok(bound) => Ok(Ok(bound)),
        },
    }
}

/// The program of the one file with the definitions of the other, or why they are refused. The program is read first, and then
/// the definitions.
pub fn read<F: Files>(
    alloc: Global,
    files: &mut F,
    sources: Sources<'_>,
) -> Result<Result<Bound, Refusal>, FileFault>
    ensures read { IfOk result (λ r. MatchResult r
        (λ bound. AreInputs (F.holds files.old) sources.entry (unit_of bound.typed.unit) bound.defs)
        (IsRefused (F.holds files.old) sources.entry)) }
    ensures well_formed { IfOk result (λ r. IfOk r (λ bound. IsWellFormed sources.entry.start.now (unit_of bound.typed.unit))) }
    ensures start { IfOk result (λ r. IfOk r (λ bound. bound.typed.entry ≡ sources.entry.start.now)) }
    ensures same { Stays (F.holds files.old) (F.holds files.new) }
    ensures cause { HasCause (F.faults files.old) (F.faults files.new) result }
{
    match program_in(alloc, files, sources.program, sources.start)? {
        Err(cause) => Ok(Err(Refusal::Program(cause))),
        Ok(typed) => {
            let inputs = with_definitions(alloc, files, sources, typed)?;
            Ok(inputs)
        }
    }
}
