// Lines of other rules of logic.
ghost use Rattle.std.specs.Prelude.{◌≡◌, ◌==◌, ◌&&◌, ◌∷◌, [], IfOk, List, Err, Some, not, option_map, false, map};
ghost use Rattle.std.specs.List.{list_any};
ghost use Rattle.mc_base.specs.declared.plain.Atom.{Atom as Fact};
ghost use Rattle.mc_base.specs.Nodes.{moved};
ghost use Rattle.mc_apply_fold.specs.Change.Lacking.{ChangesWithMemory};
ghost use Rattle.mc_rules_logic.specs.Fold.Changed.{IsListWithout};
ghost use Rattle.mc_rules_logic.specs.Fold.ChangeJudges.{dropping_edge, forgetting_node, is_there, merging_nodes};
ghost use Rattle.mc_rules_logic.specs.Fold.Judges.{meeting_goal};
ghost use Rattle.mc_apply_fold.specs.Forget.Left.{IsMade};
ghost use Rattle.mc_check_line.specs.Judging.{IsLineAnswer, path};
ghost use Rattle.mc_kernel.specs.Branches.{merged_goal, with_state};
ghost use Rattle.mc_kernel.specs.Judges.{and_need, by_forgetting, by_logic, by_merging, ending_false, ends, goal_is_free, is_one_of};
ghost use Rattle.mc_state.specs.Known.{Test, Tells};
ghost use Rattle.mc_state.specs.Premises.{Changes, Judged, have, then_give};
ghost use Rattle.mc_state.specs.Facts.{instead};
ghost use Rattle.mc_state.specs.State.{State as Symbolic};

use crate::{Branch, Next, Refused};
use mc_apply_fold::change::{drop_edge, forget_node, merge_nodes};
use mc_apply_fold::fold::meets_goal;
use mc_base::{Args, EdgeId, NoMemory, NodeId};
use mc_state::{Goal, LogicFault};
use mc_symbolic::State;
use std::alloc::Global;

/// One node in place of another.
fn instead(keep: NodeId, gone: NodeId, node: NodeId) -> NodeId
    ensures { result ≡ moved (instead keep.0 gone.0) node }
{
    if node.0 == gone.0 { keep } else { node }
}

/// Nodes with one in place of another.
fn instead_all(
    alloc: Global,
    keep: NodeId,
    gone: NodeId,
    nodes: &[NodeId],
) -> Result<Args<NodeId>, NoMemory>
    ensures { IfOk result (λ args. args ≡ map (moved (instead keep.0 gone.0)) nodes.now) }
{
    let mut args = Args::new(alloc);
    for node in nodes {
        args.push(instead(keep, gone, *node))?;
    }
    Ok(args)
}

/// The goal of a branch with one node in place of another.
fn merged_goal(
    alloc: Global,
    keep: NodeId,
    gone: NodeId,
    goal: &Option<Goal>,
) -> Result<Option<Goal>, NoMemory>
    ensures { IfOk result (λ merged. merged ≡ option_map (merged_goal keep gone) goal.now) }
{
    match goal {
        Some(goal) => Ok(Some(Goal {
            pred: goal.pred,
            at: instead(keep, gone, goal.at),
            args: instead_all(alloc, keep, gone, goal.args.as_slice())?,
        })),
        None => Ok(None),
    }
}

/// The branch with one node in place of another in its goal.
fn with_merged_goal(
    alloc: Global,
    keep: NodeId,
    gone: NodeId,
    mut branch: Branch,
) -> Result<Branch, NoMemory>
    ensures { IfOk result (λ b. path b ≡ record (path branch) { goal = option_map (merged_goal keep gone) branch.goal }) }
{
    branch.goal = merged_goal(alloc, keep, gone, &branch.goal)?;
    Ok(branch)
}

/// What comes of a branch whose state L9 changed, or its first premise that is unmet.
fn merged(
    alloc: Global,
    keep: NodeId,
    gone: NodeId,
    done: Result<(), LogicFault>,
    branch: Branch,
) -> Result<Next, Refused>
    ensures { (judged : Judged (List Symbolic)) (old : Symbolic) → Changes judged (old ∷ []) (branch.state ∷ []) done
        → IsLineAnswer (by_merging judged keep gone (with_state (path branch) old)) (with_state (path branch) old) result }
{
    match done {
        Ok(()) => match with_merged_goal(alloc, keep, gone, branch) {
            Ok(next) => Ok(Next::One(next)),
            Err(_) => Err(Refused::NoMemory),
        },
        Err(LogicFault::Premise(k)) => Err(Refused::Premise(k, branch)),
        Err(LogicFault::NoMemory) => Err(Refused::NoMemory),
    }
}

/// L9: puts a node in place of an equal one, in the goal of a side branch too.
pub fn merge(alloc: Global, keep: NodeId, gone: NodeId, mut branch: Branch) -> Result<Next, Refused>
    ensures { (know : Test) → Tells know branch.state → IsLineAnswer (by_merging
        (merging_nodes know keep gone branch.state) keep gone (path branch)) (path branch) result }
{
    let done = merge_nodes(alloc, &mut branch.state, keep, gone);
    merged(alloc, keep, gone, done, branch)
}

/// L10: drops an edge.
pub fn drop(alloc: Global, edge: EdgeId, mut branch: Branch) -> Result<Next, Refused>
    ensures { (know : Test) → Tells know branch.state → IsLineAnswer (by_logic
        (dropping_edge know edge branch.state) (path branch)) (path branch) result }
{
    match drop_edge(alloc, &mut branch.state, edge) {
        Ok(()) => Ok(Next::One(branch)),
        Err(LogicFault::Premise(k)) => Err(Refused::Premise(k, branch)),
        Err(LogicFault::NoMemory) => Err(Refused::NoMemory),
    }
}

/// Whether the node is one of a list.
fn is_one_of(node: NodeId, nodes: &[NodeId]) -> bool
    ensures { result ≡ is_one_of node nodes.now }
{
    for other in nodes {
        if other.0 == node.0 {
            return true;
        }
    }
    false
}

/// Whether the goal of a side branch does not name the node.
fn goal_is_free(node: NodeId, goal: &Option<Goal>) -> bool
    ensures { result ≡ goal_is_free node goal.now }
{
    match goal {
        Some(goal) => !(goal.at.0 == node.0) && !is_one_of(node, goal.args.as_slice()),
        None => true,
    }
}

/// Whether the node is there.
#[tactic(auto, unfolding(mc_rules_logic::specs::Fold::ChangeJudges::is_there))]
fn is_there(s: &State, node: NodeId) -> bool
    ensures { result ≡ is_there s.now.kinds node }
{
    if node.0 == 0 {
        return true;
    }
    match s.kind(node) {
        Some(_) => true,
        None => false,
    }
}

/// Whether the node is there and is not node 0.
fn is_another(s: &State, node: NodeId) -> bool
    ensures { result ≡ (is_there s.now.kinds node && not (node.0 == 0)) }
{
    is_there(s, node) && !(node.0 == 0)
}

/// The first unmet premise of L11 where a goal names the node.
fn first_unmet(s: &State, node: NodeId) -> u8
    ensures { (know : Test) (atoms : List Fact) → Tells know s.now
        → and_need 4 false (forgetting_node know atoms node s.now) ≡ Err result }
{
    if s.is_false() {
        return 2;
    }
    if !is_another(s, node) {
        return 3;
    }
    4
}

/// What comes of a branch whose state a rule changed, or the rule's first premise that is unmet.
fn changed(done: Result<(), LogicFault>, branch: Branch) -> Result<Next, Refused>
    ensures { (judged : Judged (List Symbolic)) (old : Symbolic) → Changes judged (old ∷ []) (branch.state ∷ []) done
        → IsLineAnswer (by_logic judged (with_state (path branch) old)) (with_state (path branch) old) result }
{
    match done {
        Ok(()) => Ok(Next::One(branch)),
        Err(LogicFault::Premise(k)) => Err(Refused::Premise(k, branch)),
        Err(LogicFault::NoMemory) => Err(Refused::NoMemory),
    }
}

/// L11: forgets a node.
pub fn forget(alloc: Global, node: NodeId, mut branch: Branch) -> Result<Next, Refused>
    requires { IsMade branch.state }
    ensures { (know : Test) (atoms : List Fact) → Tells know branch.state → IsListWithout node branch.state atoms
        → IsLineAnswer (by_forgetting (forgetting_node know atoms node branch.state) node (path branch))
        (path branch) result }
{
    if !goal_is_free(node, &branch.goal) {
        let unmet = first_unmet(&branch.state, node);
        return Err(Refused::Premise(unmet, branch));
    }
    let done = forget_node(alloc, &mut branch.state, node);
    changed(done, branch)
}

/// L12: the state is false, and the branch ends.
pub fn end_false(branch: Branch) -> Result<Next, Refused>
    ensures { (know : Test) → Tells know branch.state
        → IsLineAnswer (ending_false know (path branch)) (path branch) result }
{
    if branch.closing {
        return Err(Refused::Premise(1, branch));
    }
    if !branch.state.is_false() {
        return Err(Refused::Premise(2, branch));
    }
    Ok(Next::Ended)
}

/// L14: an Ind meets the goal of a side branch, which ends.
pub fn end_side(edge: EdgeId, branch: Branch) -> Result<Next, Refused>
    ensures { (know : Test) → Tells know branch.state → IsLineAnswer
        (have 1 branch.goal (λ goal. then_give ends (meeting_goal know goal edge branch.state))) (path branch) result }
{
    let Some(goal) = &branch.goal else {
        return Err(Refused::Premise(1, branch));
    };
    match meets_goal(&branch.state, goal, edge) {
        Ok(()) => Ok(Next::Ended),
        Err(k) => Err(Refused::Premise(k, branch)),
    }
}
