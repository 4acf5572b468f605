// A program and its definitions, from their texts.
ghost use Rattle.std.specs.Prelude.{◌≡◌, ◌≤◌, ◌^◌, IfOk, MatchResult, length};
ghost use Rattle.mc_c_syntax.specs.Ast.Views.{unit_of};
ghost use Rattle.mc_load.specs.Inputs.Pairs.{ArePair, AreRefused, AreRefusedWith, IsBoundTo};
ghost use Rattle.mc_load.specs.Inputs.Texts.{IsWellFormed};

use crate::inputs::reading::{
    DEFINITION_BYTES, PROGRAM_BYTES, bound, read_definitions, read_program,
};
use crate::inputs::refusal::{NoDefinitions, NoProgram, Refusal};
use mc_c_check::{Bound, Typed};
use std::alloc::{AllocError, Global};

// A program with the definitions of a text, or why there are none that it fits.
fn with_definitions(
    alloc: Global,
    typed: Typed,
    definitions: &[u8],
) -> Result<Result<Bound, Refusal>, AllocError>
    ensures { IfOk result (λ r. MatchResult r (IsBoundTo definitions.now typed)
        (AreRefusedWith definitions.now (unit_of typed.unit))) }
{
    if definitions.len() as u64 > DEFINITION_BYTES {
        return Ok(Err(Refusal::Definitions(NoDefinitions::TooBig)));
    }
    match read_definitions(alloc, definitions, &typed)? {
        Err(cause) => Ok(Err(Refusal::Definitions(cause))),
        Ok(defs) => match bound(alloc, typed, defs)? {
            Err(fault) => Ok(Err(Refusal::Misfit(fault))),
            Ok(bound) => Ok(Ok(bound)),
        },
    }
}

/// The program of the one text with the definitions of the other, or why they are refused.
pub fn read_pair(
    alloc: Global,
    program: &[u8],
    definitions: &[u8],
    start: &str,
) -> Result<Result<Bound, Refusal>, AllocError>
    ensures read { IfOk result (λ r. MatchResult r
        (λ bound. ArePair start.now program.now definitions.now (unit_of bound.typed.unit) bound.defs)
        (AreRefused start.now program.now definitions.now)) }
    ensures well_formed { IfOk result (λ r. IfOk r (λ bound. IsWellFormed start.now (unit_of bound.typed.unit))) }
    ensures start { IfOk result (λ r. IfOk r (λ bound. bound.typed.entry ≡ start.now)) }
{
    if program.len() as u64 > PROGRAM_BYTES {
        return Ok(Err(Refusal::Program(NoProgram::TooBig)));
    }
    match read_program(alloc, program, start)? {
        Err(cause) => Ok(Err(Refusal::Program(cause))),
        Ok(typed) => {
            let pair = with_definitions(alloc, typed, definitions)?;
            Ok(pair)
        }
    }
}
