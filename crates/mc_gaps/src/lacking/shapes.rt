// Shapes that assertions lack.
ghost use Rattle.std.specs.Prelude.{◌≡◌, ◌↔◌, ◌∷◌, List, true, Some, None, IfOk, if◌then◌else◌};
ghost use Rattle.std.specs.List.{AllByRecursion};
ghost use Rattle.mc_base.specs.declared.plain.VarInfo.{VarInfo};
ghost use Rattle.mc_state.specs.Facts.{IsFalse};
ghost use Rattle.mc_rules_steps.specs.Judges.{operand_nodes};
ghost use Rattle.mc_rules_steps.specs.Operands.{operand_node, with_operand, with_operands};
ghost use Rattle.mc_rules_steps.specs.Unmet.{AreKnown, LacksShape};
ghost use Rattle.mc_apply_steps.specs.Instructions.Arguments.{FitsVars, all_known};
ghost use Rattle.mc_gaps.specs.Lacking.Lacking.{AreOperands};

use crate::lacking::covers::has_no_cover;
use mc_apply_steps::instructions::{are_known, is_known, put_operand, put_operands};
use mc_base::{Args, NoMemory, NodeId, PredId};
use mc_flow::Operand;
use mc_flow::defs::Defs;
use mc_rules_steps::operands_tell_nothing;
use mc_symbolic::State;
use std::alloc::Global;

/// Whether an operand and others are known.
fn all_are_known(s: &State, o: Operand, os: &[Operand]) -> bool
    ensures { result ≡ all_known s.now (o ∷ os.now) }
{
    is_known(s, o) && are_known(s, os)
}

/// The node of an operand and those of arguments, in a state where they stand.
#[derive(Drop)]
struct Asked {
    state: State,
    at: NodeId,
    args: Args<NodeId>,
}

/// What is asked by operands that are known.
fn ask(alloc: Global, s: &State, o: Operand, os: &[Operand]) -> Result<Asked, NoMemory>
    requires known { all_known s.now (o ∷ os.now) ≡ true }
    requires fits { (vars : List VarInfo) × AllByRecursion (FitsVars vars) (o ∷ os.now) }
    ensures at { IfOk result (λ asked. operand_node s.now o ≡ Some asked.at) }
    ensures args { IfOk result (λ asked. operand_nodes (with_operand s.now o) os.now ≡ Some asked.args) }
    ensures state { IfOk result (λ asked. asked.state ≡ with_operands (with_operand s.now o) os.now) }
{
    let mut state = s.copy(alloc)?;
    let at = put_operand(&mut state, o)?;
    let args = put_operands(alloc, &mut state, os)?;
    Ok(Asked { state, at, args })
}

/// The node, if something is lacking there.
fn node_if(lacks: bool, node: NodeId) -> Option<NodeId>
    ensures { result ≡ (if lacks then Some node else None) }
{
    if lacks { Some(node) } else { None }
}

/// The node at which an assertion lacks the shape. None where some edges make it, and where an operand is not known.
pub fn lacked_shape(
    alloc: Global,
    s: &State,
    defs: &Defs,
    pred: PredId,
    o: Operand,
    os: &[Operand],
) -> Result<Option<NodeId>, NoMemory>
    requires sound { IsFalse s.now → ⊥ }
    requires fits { AreOperands (o ∷ os.now) }
    ensures { IfOk result (λ found. (n : NodeId) → (found ≡ Some n)
        ↔ (AreKnown s.now (o ∷ os.now) × LacksShape defs.now s.now pred o os.now pred n)) }
{
    // For the proof alone: the operands' nodes make no state false.
    operands_tell_nothing();
    s.is_bounded();
    if !all_are_known(s, o, os) {
        return Ok(None);
    }
    let asked = ask(alloc, s, o, os)?;
    let none = has_no_cover(
        alloc,
        &asked.state,
        defs,
        pred,
        asked.at,
        asked.args.as_slice(),
    )?;
    Ok(node_if(none, asked.at))
}
