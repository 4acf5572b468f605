// Comparisons of operands.
ghost use Rattle.std.specs.Prelude.{◌≡◌, pos, Some, IfOk, OnOk};
ghost use Rattle.mc_base.specs.declared.plain.Atom.TheVariants.{Eq, Ne};
ghost use Rattle.mc_flow.specs.declared.instr.Instr.TheVariants.{TestEq};
ghost use Rattle.mc_state.specs.Known.{Test, Tells};
ghost use Rattle.mc_pure.specs.Pure.{AreOfOneKind};
ghost use Rattle.mc_state.specs.State.{with_atom};
ghost use Rattle.mc_rules_steps.specs.Judges.{testing_equal};
ghost use Rattle.mc_rules_steps.specs.Fitting.{FitsAt};
ghost use Rattle.mc_apply_steps.specs.Step.Stepped.{Steps};
ghost use Rattle.mc_apply_steps.specs.Step.Values.{CanPut, value_node, with_value};

use crate::step::moves::branched;
use crate::step::operands::{Value, put, read};
use crate::step::{Refused, Stepped};
use mc_base::{Atom, NoMemory, NodeId, PointId};
use mc_flow::Operand;
use mc_rules_steps::operands_fit;
use mc_symbolic::changes::State;
use std::alloc::Global;

/// Writes into a state that two nodes are equal, and answers the state where they differ. Without memory both are lost.
fn split(alloc: Global, s: &mut State, a: NodeId, b: NodeId) -> Result<State, NoMemory>
    requires { AreOfOneKind s.old.kinds a b }
    ensures same { OnOk result (s.new ≡ with_atom s.old (Eq a b (pos 0))) }
    ensures apart { IfOk result (λ t. t ≡ with_atom s.old (Ne a b (pos 0))) }
{
    let mut apart = s.copy(alloc)?;
    s.assume(&Atom::Eq(a, b, 0))?;
    apart.assume(&Atom::Ne(a, b, 0))?;
    Ok(apart)
}

/// The same of two values, with their nodes.
fn split_values(
    alloc: Global,
    s: &mut State,
    left: &Value,
    right: &Value,
) -> Result<State, NoMemory>
    requires left { CanPut left.now }
    requires right { CanPut right.now }
    requires kinds { AreOfOneKind (with_value (with_value s.old left.now) right.now).kinds
        (value_node s.old left.now) (value_node (with_value s.old left.now) right.now) }
    ensures same { OnOk result (s.new ≡ with_atom (with_value (with_value s.old left.now) right.now)
        (Eq (value_node s.old left.now) (value_node (with_value s.old left.now) right.now) (pos 0))) }
    ensures apart { IfOk result (λ t. t ≡ with_atom (with_value (with_value s.old left.now) right.now)
        (Ne (value_node s.old left.now) (value_node (with_value s.old left.now) right.now) (pos 0))) }
{
    let a = put(s, left)?;
    let b = put(s, right)?;
    split(alloc, s, a, b)
}

/// S13: a TestEq of two operands: they are equal, or they differ.
pub fn test_equal(
    alloc: Global,
    mut s: State,
    left: Operand,
    right: Operand,
    t: PointId,
    f: PointId,
) -> Result<Stepped, Refused>
    requires { FitsAt (TestEq left right t f) s }
    ensures { (know : Test) → Tells know s → Steps (testing_equal know (Some (TestEq left right t f)) s) s result }
{
    // For the proof alone: the operands' nodes can be put, and are of one kind.
    operands_fit();
    if s.is_false() {
        return Err(Refused::Premise(2, s));
    }
    let Some(first) = read(&s, left) else {
        return Err(Refused::Premise(3, s));
    };
    let Some(second) = read(&s, right) else {
        return Err(Refused::Premise(4, s));
    };
    match split_values(alloc, &mut s, &first, &second) {
        Ok(apart) => Ok(branched(t, s, f, apart)),
        Err(_) => Err(Refused::NoMemory),
    }
}
