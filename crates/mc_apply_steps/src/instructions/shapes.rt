// Shapes that are assumed and asserted.
ghost use Rattle.std.specs.Prelude.{◌≡◌, ◌∷◌, List, true, Some, IfOk, OnOk, is_some};
ghost use Rattle.std.specs.List.{AllByRecursion};
ghost use Rattle.mc_base.specs.declared.plain.VarInfo.{VarInfo};
ghost use Rattle.mc_flow.specs.declared.instr.Instr.TheVariants.{AssumeShape, AssertShape};
ghost use Rattle.mc_state.specs.Known.{Test, Tells};
ghost use Rattle.mc_state.specs.Fits.{AreNodes};
ghost use Rattle.mc_state.specs.State.{next_node, with_var};
ghost use Rattle.mc_rules_steps.specs.Fitting.{FitsAt};
ghost use Rattle.mc_rules_steps.specs.Judges.{asserting, assuming, operand_nodes, side_branch, with_shape};
ghost use Rattle.mc_rules_steps.specs.Operands.{operand_node, with_operand, with_operands};
ghost use Rattle.mc_apply_steps.specs.Step.Stepped.{Steps, seen};
ghost use Rattle.mc_apply_steps.specs.Instructions.Arguments.{FitsVars};

use crate::instructions::arguments::{are_known, put_operand, put_operands};
use crate::step::{Next, Refused, Stepped, moved_to, next_at, read};
use mc_base::{Args, Kind, NoMemory, NodeId, PointId, PredId, VarId};
use mc_flow::Operand;
use mc_rules_steps::operands_fit;
use mc_state::graph::Edge;
use mc_state::{Goal, nodes_are_there};
use mc_symbolic::State;
use std::alloc::Global;

/// Adds a new node at which a predicate holds on memory of its own, and gives it to the variable. Without memory the state
/// is lost.
fn put_shape(s: &mut State, pred: PredId, x: VarId, args: Args<NodeId>) -> Result<(), NoMemory>
    requires { AreNodes s.old.kinds args }
    ensures { OnOk result (s.new ≡ with_var (with_shape pred args s.old) x (Some (next_node s.old))) }
{
    // For the proof alone: the new node is there, and so are the others.
    nodes_are_there();
    s.is_bounded();
    let at = s.add_node(Kind::Ptr)?;
    s.add_edge(Edge::Ind { at, pred, args })?;
    s.set_var(x, Some(at));
    Ok(())
}

/// The same where the arguments are operands.
fn assume_in(
    alloc: Global,
    s: &mut State,
    pred: PredId,
    x: VarId,
    os: &[Operand],
) -> Result<(), NoMemory>
    requires known { is_some (operand_nodes s.old os.now) ≡ true }
    requires fits { (vars : List VarInfo) × AllByRecursion (FitsVars vars) os.now }
    requires there { (args : _) → operand_nodes s.old os.now ≡ Some args → AreNodes (with_operands s.old os.now).kinds args }
    ensures { (args : _) → operand_nodes s.old os.now ≡ Some args → OnOk result (s.new
        ≡ with_var (with_shape pred args (with_operands s.old os.now)) x (Some (next_node (with_operands s.old os.now)))) }
{
    let args = put_operands(alloc, s, os)?;
    put_shape(s, pred, x, args)?;
    Ok(())
}

/// S15: an AssumeShape gives the variable a new node, at which the predicate holds.
pub fn assume_shape(
    alloc: Global,
    mut s: State,
    pred: PredId,
    x: VarId,
    os: &[Operand],
    q: PointId,
) -> Result<Stepped, Refused>
    requires { FitsAt (AssumeShape pred x os.now q) s }
    ensures { (know : Test) → Tells know s → Steps (assuming know (Some (AssumeShape pred x os.now q)) s) s result }
{
    // For the proof alone: the operands' nodes can be put.
    operands_fit();
    if s.is_false() {
        return Err(Refused::Premise(2, s));
    }
    if !are_known(&s, os) {
        return Err(Refused::Premise(3, s));
    }
    match assume_in(alloc, &mut s, pred, x, os) {
        Ok(()) => Ok(moved_to(q, s)),
        Err(_) => Err(Refused::NoMemory),
    }
}

/// The side branch that has to show a predicate.
fn side(
    alloc: Global,
    s: &State,
    p: PointId,
    pred: PredId,
    o: Operand,
    os: &[Operand],
) -> Result<Next, NoMemory>
    requires known { is_some (operand_node s.now o) ≡ true }
    requires args { is_some (operand_nodes (with_operand s.now o) os.now) ≡ true }
    requires fits { (vars : List VarInfo) × AllByRecursion (FitsVars vars) (o ∷ os.now) }
    ensures { (n args : _) → operand_node s.now o ≡ Some n → operand_nodes (with_operand s.now o) os.now ≡ Some args
        → IfOk result (λ b. seen b ≡ side_branch p pred n args (with_operands (with_operand s.now o) os.now)) }
{
    let mut state = s.copy(alloc)?;
    let at = put_operand(&mut state, o)?;
    let args = put_operands(alloc, &mut state, os)?;
    let goal = Some(Goal { pred, at, args });
    Ok(Next {
        point: p,
        goal,
        state,
    })
}

/// S16: an AssertShape has a side branch at the point, which has to show the predicate; the state goes on as it was.
pub fn assert_shape(
    alloc: Global,
    s: State,
    p: PointId,
    pred: PredId,
    o: Operand,
    os: &[Operand],
    q: PointId,
) -> Result<Stepped, Refused>
    requires { FitsAt (AssertShape pred o os.now q) s }
    ensures { (know : Test) → Tells know s → Steps (asserting know p (Some (AssertShape pred o os.now q)) s) s result }
{
    if s.is_false() {
        return Err(Refused::Premise(2, s));
    }
    let Some(_) = read(&s, o) else {
        return Err(Refused::Premise(3, s));
    };
    if !are_known(&s, os) {
        return Err(Refused::Premise(4, s));
    }
    match side(alloc, &s, p, pred, o, os) {
        Ok(branch) => Ok(Stepped::Branched(branch, next_at(q, s))),
        Err(_) => Err(Refused::NoMemory),
    }
}
