// The flow graph of a program.
ghost use Rattle.std.specs.Prelude.{◌≤◌, IfErr, IfOk, length};
ghost use Rattle.mc_c_syntax.specs.Ast.Views.{unit_of};
ghost use Rattle.mc_flow.specs.Valid.{IsValid};
ghost use Rattle.mc_load.specs.Inputs.Texts.{IsWellFormed};
ghost use Rattle.mc_load.specs.Lowered.Graphs.{IsGraphOf, IsLong};

use crate::read::programs_have_distinct_places;
use mc_c_check::{Bound, calls_have_ranks};
use mc_c_grammar::numbers::numbers_are_small;
use mc_c_grammar::places::ascending_places_differ;
use mc_lower::{LowerFault, Lowered, lower};
use mc_lower_laws::existing::{flow_graphs_exist, resolved_programs_have_ranks};
use mc_lower_laws::kinds::{resolved_programs_are_well_made, typedefs_are_known};
use mc_lower_laws::lowerable::resolved_programs_are_lowerable;
use mc_lower_laws::scoped::resolved_programs_are_scoped;
use mc_resolve::resolve;
use std::alloc::{AllocError, Global};

/// The flow graph of a program has more than 10,000 points.
#[derive(Clone, Copy, Debug, PartialEq, Eq)]
pub struct TooLong;

/// The flow graph of a program, which is valid with its definitions, and its points whose End counts as a stop.
pub fn graph(alloc: Global, bound: &Bound) -> Result<Result<Lowered, TooLong>, AllocError>
    requires { IsWellFormed bound.now.typed.entry (unit_of bound.now.typed.unit) }
    ensures graph { IfOk result (λ r. IfOk r (λ x. IsGraphOf bound.now.typed.entry (unit_of bound.now.typed.unit) bound.now.defs x.flow)) }
    ensures short { IfOk result (λ r. IfOk r (λ x. length x.flow.points ≤ 10000)) }
    ensures valid { IfOk result (λ r. IfOk r (λ x. IsValid x.flow bound.now.defs)) }
    ensures long { IfOk result (λ r. IfErr r (λ e. IsLong bound.now.typed.entry (unit_of bound.now.typed.unit) bound.now.defs)) }
{
    // For the proof alone: of what was read and is well typed, all that lowering asks for is there, and it has a flow graph.
    programs_have_distinct_places();
    ascending_places_differ();
    typedefs_are_known();
    numbers_are_small();
    resolved_programs_are_well_made();
    resolved_programs_are_scoped();
    resolved_programs_are_lowerable();
    calls_have_ranks();
    resolved_programs_have_ranks();
    flow_graphs_exist();
    bound.defs();
    let program = resolve(alloc, bound)?;
    match lower(alloc, &program, bound.typed().structs()) {
        Ok(lowered) => Ok(Ok(lowered)),
        Err(LowerFault::TooLong) => Ok(Err(TooLong)),
        Err(LowerFault::NoMemory) => Err(AllocError),
    }
}
