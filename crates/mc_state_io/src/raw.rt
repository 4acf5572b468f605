//! States as documents write them: whether one is well formed, and the state that it writes.

ghost use Rattle.std.specs.Prelude.{IfOk};
ghost use Rattle.mc_state_io.specs.Raw.Raw.{Writes};

mod building;
mod fitting;

use building::{begins_with_zero, fill, with_kinds};
use fitting::pieces_fit;
use mc_base::{NoMemory, VarInfo};
use mc_flow::defs::{Def, StructInfo};
use mc_state::RawState;
use mc_symbolic::State;
use std::alloc::Global;

/// The state that a document writes, where it is well formed over definitions, variables and structs; None where it is
/// not.
pub fn state_of(
    alloc: Global,
    defs: &[Def],
    vars: &[VarInfo],
    structs: &[StructInfo],
    raw: &RawState,
) -> Result<Option<State>, NoMemory>
    ensures { IfOk result (λ found. Writes defs.now vars.now structs.now raw.now found) }
{
    if !begins_with_zero(raw.kinds.as_slice()) {
        return Ok(None);
    }
    let mut state = with_kinds(alloc, raw.vars.len(), raw.kinds.as_slice())?;
    if !pieces_fit(&state, defs, vars, structs, raw) {
        return Ok(None);
    }
    fill(alloc, &mut state, raw)?;
    Ok(Some(state))
}
