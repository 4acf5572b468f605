// Skips, copies, variables that become undefined, and inputs.
ghost use Rattle.std.specs.Prelude.{◌≡◌, ◌∷◌, [], Some, OnOk};
ghost use Rattle.mc_base.specs.declared.plain.Kind.TheVariants.{Int};
ghost use Rattle.mc_flow.specs.declared.instr.Instr.TheVariants.{Skip, Copy, Undef, Input};
ghost use Rattle.mc_state.specs.Known.{Test, Tells};
ghost use Rattle.mc_pure.specs.Pure.{IsNode};
ghost use Rattle.mc_state.specs.State.{next_node, with_nodes, with_var};
ghost use Rattle.mc_rules_steps.specs.Judges.{skipping, copying, forgetting, taking};
ghost use Rattle.mc_rules_steps.specs.Steps.{moved_to};
ghost use Rattle.mc_rules_steps.specs.Fitting.{FitsAt};
ghost use Rattle.mc_apply_steps.specs.Step.Stepped.{Steps, seen, successors};
ghost use Rattle.mc_apply_steps.specs.Step.Values.{CanPut, value_node, with_value};

use crate::step::operands::{Value, put, read};
use crate::step::{Next, Refused, Stepped};
use mc_base::{Kind, NoMemory, PointId, VarId};
use mc_flow::Operand;
use mc_rules_steps::operands_fit;
use mc_state::nodes_are_there;
use mc_symbolic::changes::{State, forget_vars};

/// The branch that goes on at a point.
pub fn next_at(point: PointId, state: State) -> Next
    ensures { moved_to point state ≡ seen result }
{
    Next {
        point,
        goal: None,
        state,
    }
}

/// The branch goes on at a point.
pub fn moved_to(point: PointId, state: State) -> Stepped
    ensures { successors result ≡ moved_to point state ∷ [] }
{
    Stepped::Moved(next_at(point, state))
}

/// There are two branches, in this order.
pub fn branched(first: PointId, one: State, second: PointId, other: State) -> Stepped
    ensures { successors result ≡ moved_to first one ∷ moved_to second other ∷ [] }
{
    Stepped::Branched(next_at(first, one), next_at(second, other))
}

/// S1: a Skip goes on.
pub fn skip(s: State, q: PointId) -> Result<Stepped, Refused>
    ensures { (know : Test) → Tells know s → Steps (skipping know (Some (Skip q)) s) s result }
{
    if s.is_false() {
        return Err(Refused::Premise(2, s));
    }
    Ok(moved_to(q, s))
}

/// Gives the variable the node of a value. Without memory the state is lost.
fn put_in(s: &mut State, x: VarId, value: &Value) -> Result<(), NoMemory>
    requires put { CanPut value.now }
    requires there { IsNode (with_value s.old value.now).kinds (value_node s.old value.now) }
    ensures { OnOk result (s.new ≡ with_var (with_value s.old value.now) x (Some (value_node s.old value.now))) }
{
    let node = put(s, value)?;
    s.set_var(x, Some(node));
    Ok(())
}

/// S2: a Copy gives the variable the operand's node.
pub fn copy(mut s: State, x: VarId, from: Operand, q: PointId) -> Result<Stepped, Refused>
    requires { FitsAt (Copy x from q) s }
    ensures { (know : Test) → Tells know s → Steps (copying know (Some (Copy x from q)) s) s result }
{
    // For the proof alone: the operand's node can be put.
    operands_fit();
    if s.is_false() {
        return Err(Refused::Premise(2, s));
    }
    let Some(value) = read(&s, from) else {
        return Err(Refused::Premise(3, s));
    };
    match put_in(&mut s, x, &value) {
        Ok(()) => Ok(moved_to(q, s)),
        Err(_) => Err(Refused::NoMemory),
    }
}

/// S3: an Undef makes variables unknown.
pub fn forget(mut s: State, xs: &[VarId], q: PointId) -> Result<Stepped, Refused>
    ensures { (know : Test) → Tells know s → Steps (forgetting know (Some (Undef xs.now q)) s) s result }
{
    if s.is_false() {
        return Err(Refused::Premise(2, s));
    }
    forget_vars(&mut s, xs);
    Ok(moved_to(q, s))
}

/// Gives the variable a new node. Without memory the state is lost.
pub fn put_new(s: &mut State, x: VarId) -> Result<(), NoMemory>
    ensures { OnOk result (s.new ≡ with_var (with_nodes s.old (Int ∷ [])) x (Some (next_node s.old))) }
{
    // For the proof alone: the new node is there.
    nodes_are_there();
    s.is_bounded();
    let node = s.add_node(Kind::Int)?;
    s.set_var(x, Some(node));
    Ok(())
}

/// S4: an Input gives the variable a new node.
pub fn take(mut s: State, x: VarId, q: PointId) -> Result<Stepped, Refused>
    ensures { (know : Test) → Tells know s → Steps (taking know (Some (Input x q)) s) s result }
{
    if s.is_false() {
        return Err(Refused::Premise(2, s));
    }
    match put_new(&mut s, x) {
        Ok(()) => Ok(moved_to(q, s)),
        Err(_) => Err(Refused::NoMemory),
    }
}
