// The order of operands.
ghost use Rattle.std.specs.Prelude.{◌≡◌, ◌+ℤ◌, ◌-ℤ◌, pos, Some, IfOk, OnOk};
ghost use Rattle.mc_base.specs.declared.plain.Atom.TheVariants.{Ne};
ghost use Rattle.mc_base.specs.declared.plain.Kind.TheVariants.{Int};
ghost use Rattle.mc_flow.specs.declared.instr.Instr.TheVariants.{TestLe};
ghost use Rattle.mc_state.specs.Known.{Test, Tells};
ghost use Rattle.mc_pure.specs.Pure.{AreOfOneKind, HasKind};
ghost use Rattle.mc_base.specs.Ranges.Range.{IsIntRange};
ghost use Rattle.mc_state.specs.Facts.{IsFalse};
ghost use Rattle.mc_state.specs.State.{with_atom, with_atoms};
ghost use Rattle.mc_rules_steps.specs.Fitting.{FitsAt, ends_of};
ghost use Rattle.mc_rules_steps.specs.Judges.{testing_at_most};
ghost use Rattle.mc_rules_steps.specs.Sums.{AreLeast, IsLeast, Ranges, above_atoms, at_most_atoms};
ghost use Rattle.mc_apply_steps.specs.Step.Stepped.{Steps};
ghost use Rattle.mc_apply_steps.specs.Step.Values.{CanPut, value_node, with_value};

use crate::compute::results::{assume_in, int_range};
use crate::step::{Refused, Stepped, Value, branched, put, read};
use mc_base::ranges::Range;
use mc_base::{Atom, NoMemory, NodeId, PointId};
use mc_flow::Operand;
use mc_rules_steps::{least_ranges_are_known, operands_fit, operands_tell_nothing};
use mc_symbolic::State;
use std::alloc::Global;

/// Writes that the left number is at most the right one, where they lie in these ranges. Without memory the state is lost.
fn assume_at_most(
    s: &mut State,
    a: NodeId,
    b: NodeId,
    left: Range,
    right: Range,
) -> Result<(), NoMemory>
    requires a { HasKind s.old.kinds Int a }
    requires b { HasKind s.old.kinds Int b }
    ensures { OnOk result (s.new ≡ with_atoms s.old (at_most_atoms a b (ends_of left) (ends_of right))) }
{
    let both = left.meet(right);
    assume_in(s, a, left, both)?;
    assume_in(s, b, both, right)?;
    Ok(())
}

/// The numbers above the least of the right ones and below the greatest of the left ones.
fn between(left: Range, right: Range) -> Range
    requires left { IsIntRange left }
    requires right { IsIntRange right }
    ensures low { result.lo ≡ right.lo +ℤ pos 1 }
    ensures high { result.hi ≡ left.hi -ℤ pos 1 }
{
    Range {
        lo: right.lo + 1,
        hi: left.hi - 1,
    }
}

/// Writes that two numbers differ. Without memory nothing changes.
fn assume_apart(s: &mut State, a: NodeId, b: NodeId) -> Result<(), NoMemory>
    requires { AreOfOneKind s.old.kinds a b }
    ensures { OnOk result (s.new ≡ with_atom s.old (Ne a b (pos 0))) }
{
    s.assume(&Atom::Ne(a, b, 0))
}

/// Writes that the left number is greater, where they lie in these ranges. Without memory the state is lost.
fn assume_above(
    s: &mut State,
    a: NodeId,
    b: NodeId,
    left: Range,
    right: Range,
) -> Result<(), NoMemory>
    requires a { HasKind s.old.kinds Int a }
    requires b { HasKind s.old.kinds Int b }
    requires left { IsIntRange left }
    requires right { IsIntRange right }
    ensures { OnOk result (s.new ≡ with_atoms s.old (above_atoms a b (ends_of left) (ends_of right))) }
{
    let middle = between(left, right);
    let low = left.meet(middle);
    let high = right.meet(middle);
    assume_in(s, a, low, left)?;
    assume_in(s, b, right, high)?;
    assume_apart(s, a, b)?;
    Ok(())
}

/// Writes into a state that a node is at most another, and answers the state where it is greater. Without memory both are
/// lost.
fn split_order(alloc: Global, s: &mut State, a: NodeId, b: NodeId) -> Result<State, NoMemory>
    requires a { HasKind s.old.kinds Int a }
    requires b { HasKind s.old.kinds Int b }
    requires not_false { IsFalse s.old → ⊥ }
    ensures at_most { (range : Ranges) → IsLeast range s.old a → IsLeast range s.old b
        → OnOk result (s.new ≡ with_atoms s.old (at_most_atoms a b (range s.old a) (range s.old b))) }
    ensures above { (range : Ranges) → IsLeast range s.old a → IsLeast range s.old b
        → IfOk result (λ t. t ≡ with_atoms s.old (above_atoms a b (range s.old a) (range s.old b))) }
{
    // For the proof alone: least ranges are one.
    least_ranges_are_known();
    let left = int_range(s, a);
    let right = int_range(s, b);
    let mut above = s.copy(alloc)?;
    assume_at_most(s, a, b, left, right)?;
    assume_above(&mut above, a, b, left, right)?;
    Ok(above)
}

/// The same of two values, with their nodes.
fn split_values(
    alloc: Global,
    s: &mut State,
    left: &Value,
    right: &Value,
) -> Result<State, NoMemory>
    requires put_left { CanPut left.now }
    requires put_right { CanPut right.now }
    requires left { HasKind (with_value (with_value s.old left.now) right.now).kinds Int (value_node s.old left.now) }
    requires right { HasKind (with_value (with_value s.old left.now) right.now).kinds Int
        (value_node (with_value s.old left.now) right.now) }
    requires not_false { IsFalse (with_value (with_value s.old left.now) right.now) → ⊥ }
    ensures at_most { (range : Ranges)
        → IsLeast range (with_value (with_value s.old left.now) right.now) (value_node s.old left.now)
        → IsLeast range (with_value (with_value s.old left.now) right.now) (value_node (with_value s.old left.now) right.now)
        → OnOk result (s.new ≡ with_atoms (with_value (with_value s.old left.now) right.now)
        (at_most_atoms (value_node s.old left.now) (value_node (with_value s.old left.now) right.now)
        (range (with_value (with_value s.old left.now) right.now) (value_node s.old left.now))
        (range (with_value (with_value s.old left.now) right.now) (value_node (with_value s.old left.now) right.now)))) }
    ensures above { (range : Ranges)
        → IsLeast range (with_value (with_value s.old left.now) right.now) (value_node s.old left.now)
        → IsLeast range (with_value (with_value s.old left.now) right.now) (value_node (with_value s.old left.now) right.now)
        → IfOk result (λ t. t ≡ with_atoms (with_value (with_value s.old left.now) right.now)
        (above_atoms (value_node s.old left.now) (value_node (with_value s.old left.now) right.now)
        (range (with_value (with_value s.old left.now) right.now) (value_node s.old left.now))
        (range (with_value (with_value s.old left.now) right.now) (value_node (with_value s.old left.now) right.now)))) }
{
    let a = put(s, left)?;
    let b = put(s, right)?;
    let above = split_order(alloc, s, a, b)?;
    Ok(above)
}

/// S14: a TestLe of two operands: the left is at most the right, or it is greater.
pub fn test_at_most(
    alloc: Global,
    mut s: State,
    left: Operand,
    right: Operand,
    t: PointId,
    f: PointId,
) -> Result<Stepped, Refused>
    requires { FitsAt (TestLe left right t f) s }
    ensures { (know : Test) (range : Ranges) → Tells know s → ((IsFalse s → ⊥) → AreLeast range left right s)
        → Steps (testing_at_most know range (Some (TestLe left right t f)) s) s result }
{
    // For the proof alone: the operands' nodes can be put, and make no state false.
    operands_fit();
    operands_tell_nothing();
    if s.is_false() {
        return Err(Refused::Premise(2, s));
    }
    let Some(first) = read(&s, left) else {
        return Err(Refused::Premise(3, s));
    };
    let Some(second) = read(&s, right) else {
        return Err(Refused::Premise(4, s));
    };
    match split_values(alloc, &mut s, &first, &second) {
        Ok(above) => Ok(branched(t, s, f, above)),
        Err(_) => Err(Refused::NoMemory),
    }
}
