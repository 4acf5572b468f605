// Sums, differences and products of operands.
ghost use Rattle.std.specs.Prelude.{◌≡◌, Some, OnOk};
ghost use Rattle.mc_base.specs.declared.plain.Kind.TheVariants.{Int};
ghost use Rattle.mc_state.specs.Known.{Test, Tells};
ghost use Rattle.mc_pure.specs.Pure.{HasKind};
ghost use Rattle.mc_state.specs.Facts.{IsFalse};
ghost use Rattle.mc_rules_steps.specs.Fitting.{FitsAt};
ghost use Rattle.mc_rules_steps.specs.Judges.{computing};
ghost use Rattle.mc_rules_steps.specs.Sums.{AreLeast, IsLeast, Ranges, with_result};
ghost use Rattle.mc_apply_steps.specs.Step.Stepped.{Steps};
ghost use Rattle.mc_apply_steps.specs.Step.Values.{CanPut, value_node, with_value};
ghost use Rattle.mc_apply_steps.specs.Compute.Computed.{computes, operation};

use crate::compute::results::{Operation, assume_computed, int_range};
use crate::step::{Refused, Stepped, Value, moved_to, put, put_new, read};
use mc_base::{NoMemory, NodeId, PointId, VarId};
use mc_flow::Operand;
use mc_rules_steps::{least_ranges_are_known, operands_fit, operands_tell_nothing};
use mc_state::nodes_are_there;
use mc_symbolic::State;

/// The variable at a new node, which is the result of two nodes. Without memory the state is lost.
fn compute_in(s: &mut State, op: Operation, x: VarId, a: NodeId, b: NodeId) -> Result<(), NoMemory>
    requires left { HasKind s.old.kinds Int a }
    requires right { HasKind s.old.kinds Int b }
    requires not_false { IsFalse s.old → ⊥ }
    ensures { (range : Ranges) → IsLeast range s.old a → IsLeast range s.old b
        → OnOk result (s.new ≡ with_result (operation op) x a b (range s.old a) (range s.old b) s.old) }
{
    // For the proof alone: least ranges are one, and the new node is there.
    least_ranges_are_known();
    nodes_are_there();
    s.is_bounded();
    let left = int_range(s, a);
    let right = int_range(s, b);
    let node = s.next_node();
    put_new(s, x)?;
    assume_computed(s, op, node, a, b, left, right)?;
    Ok(())
}

/// The same of two values, with their nodes. Without memory the state is lost.
fn compute_values(
    s: &mut State,
    op: Operation,
    x: VarId,
    left: &Value,
    right: &Value,
) -> Result<(), NoMemory>
    requires put_left { CanPut left.now }
    requires put_right { CanPut right.now }
    requires left { HasKind (with_value (with_value s.old left.now) right.now).kinds Int (value_node s.old left.now) }
    requires right { HasKind (with_value (with_value s.old left.now) right.now).kinds Int
        (value_node (with_value s.old left.now) right.now) }
    requires not_false { IsFalse (with_value (with_value s.old left.now) right.now) → ⊥ }
    ensures { (range : Ranges)
        → IsLeast range (with_value (with_value s.old left.now) right.now) (value_node s.old left.now)
        → IsLeast range (with_value (with_value s.old left.now) right.now) (value_node (with_value s.old left.now) right.now)
        → OnOk result (s.new ≡ with_result (operation op) x (value_node s.old left.now)
        (value_node (with_value s.old left.now) right.now)
        (range (with_value (with_value s.old left.now) right.now) (value_node s.old left.now))
        (range (with_value (with_value s.old left.now) right.now) (value_node (with_value s.old left.now) right.now))
        (with_value (with_value s.old left.now) right.now)) }
{
    let a = put(s, left)?;
    let b = put(s, right)?;
    compute_in(s, op, x, a, b)?;
    Ok(())
}

/// S5 to S7: an Add, a Sub or a Mul gives the variable a new node, of which is known what follows of the least ranges of
/// the operands.
pub fn compute(
    mut s: State,
    op: Operation,
    x: VarId,
    left: Operand,
    right: Operand,
    q: PointId,
) -> Result<Stepped, Refused>
    requires { FitsAt (computes op x left right q) s }
    ensures { (know : Test) (range : Ranges) → Tells know s → ((IsFalse s → ⊥) → AreLeast range left right s)
        → Steps (computing (operation op) know range (Some (record { x = x; o = left; o' = right; q = q })) s) s result }
{
    // For the proof alone: the operands' nodes can be put, and make no state false.
    operands_fit();
    operands_tell_nothing();
    if s.is_false() {
        return Err(Refused::Premise(2, s));
    }
    let Some(first) = read(&s, left) else {
        return Err(Refused::Premise(3, s));
    };
    let Some(second) = read(&s, right) else {
        return Err(Refused::Premise(4, s));
    };
    match compute_values(&mut s, op, x, &first, &second) {
        Ok(()) => Ok(moved_to(q, s)),
        Err(_) => Err(Refused::NoMemory),
    }
}
