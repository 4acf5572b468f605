// What an instruction lacks.
ghost use Rattle.std.specs.Prelude.{◌≡◌, ◌↔◌, Some, IfOk, option_map};
ghost use Rattle.mc_flow.specs.Valid.{IsValid};
ghost use Rattle.mc_state.specs.Facts.{IsFalse};
ghost use Rattle.mc_rules_steps.specs.declared.gap.Gap.TheVariants.{NoShape};
ghost use Rattle.mc_rules_steps.specs.Unmet.{IsUnmet};
ghost use Rattle.mc_gaps.specs.Lacking.Lacking.{IsOfProgram, IsShape, IsShapeGap};

use crate::lacking::laws::is_told;
use crate::lacking::shapes::lacked_shape;
use crate::unmet::{gap_at, gaps_are_told};
use mc_apply_steps::instructions::code_at;
use mc_base::{NoMemory, NodeId, PointId, PredId};
use mc_flow::defs::Defs;
use mc_flow::{Flow, Instr};
use mc_rules_steps::{Gap, causes_are_one};
use mc_symbolic::State;
use std::alloc::Global;

/// The shape, where it is lacking at a node.
fn shape_at(pred: PredId, node: Option<NodeId>) -> Option<Gap>
    ensures { result ≡ option_map (NoShape pred) node }
{
    match node {
        Some(node) => Some(Gap::NoShape(pred, node)),
        None => None,
    }
}

/// The shape that an instruction lacks, if it lacks one.
fn shape_gap(alloc: Global, s: &State, defs: &Defs, code: &Instr) -> Result<Option<Gap>, NoMemory>
    requires sound { IsFalse s.now → ⊥ }
    requires fits { IsOfProgram defs.now code.now }
    ensures { IfOk result (λ found. (gap : Gap) → (found ≡ Some gap) ↔ IsShapeGap defs.now code.now s.now gap) }
{
    match code {
        Instr::AssertShape(pred, o, os, _) => {
            let node = lacked_shape(alloc, s, defs, *pred, *o, os.as_slice())?;
            Ok(shape_at(*pred, node))
        }
        _ => Ok(None),
    }
}

/// The shape that the instruction at a point lacks at a state, if it lacks one.
fn shape_gap_at(
    alloc: Global,
    flow: &Flow,
    defs: &Defs,
    p: PointId,
    s: &State,
) -> Result<Option<Gap>, NoMemory>
    requires { IsValid flow.now defs.now }
    ensures { IfOk result (λ found. (gap : Gap) → (found ≡ Some gap)
        ↔ (IsUnmet flow.now defs.now p s.now gap × IsShape gap)) }
{
    if s.is_false() {
        return Ok(None);
    }
    match code_at(flow, p) {
        Some(code) => {
            let found = shape_gap(alloc, s, defs, code)?;
            Ok(found)
        }
        None => Ok(None),
    }
}

/// What the instruction at a point lacks at a state. None exactly where it is not unmet.
pub fn lacking_at(
    alloc: Global,
    flow: &Flow,
    defs: &Defs,
    p: PointId,
    s: &State,
) -> Result<Option<Gap>, NoMemory>
    requires { IsValid flow.now defs.now }
    ensures { IfOk result (λ found. (gap : Gap) → (found ≡ Some gap) ↔ IsUnmet flow.now defs.now p s.now gap) }
{
    // For the proof alone: all gaps but shapes are known, and there is one at most.
    gaps_are_told();
    causes_are_one();
    is_told(s);
    s.is_bounded();
    match gap_at(flow, defs.as_slice(), p, s) {
        Some(gap) => Ok(Some(gap)),
        None => {
            let found = shape_gap_at(alloc, flow, defs, p, s)?;
            Ok(found)
        }
    }
}
