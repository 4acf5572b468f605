// Lines of the rules that fold.
ghost use Rattle.std.specs.Prelude.{◌≡◌, ◌∷◌, [], IfOk, List};
ghost use Rattle.mc_rules_logic.specs.Fold.ChangeJudges.{naming_spare};
ghost use Rattle.mc_rules_logic.specs.Fold.Judges.{closing_seg, folding_ind, folding_seg, joining_segs, making_seg};
ghost use Rattle.mc_apply_fold.specs.Forget.Left.{IsMade};
ghost use Rattle.mc_check_line.specs.Judging.{IsLineAnswer, path, setting_of};
ghost use Rattle.mc_kernel.specs.Branches.{closes_by, with_state};
ghost use Rattle.mc_kernel.specs.Judges.{by_folding};
ghost use Rattle.mc_state.specs.Known.{Test, Tells};
ghost use Rattle.mc_state.specs.Premises.{AnswersBy, Changes, Judged};
ghost use Rattle.mc_state.specs.State.{State as Symbolic};

use crate::unfolds::with_states;
use crate::{Branch, Next, Refused, Setting};
use mc_apply_fold::change::{EmptySeg, SpareNode, close_seg, join_segs, make_seg, name_spare};
use mc_apply_fold::fold::{fold_ind, fold_seg};
use mc_base::{Args, EdgeId, Kind, NoMemory, NodeId, PredId};
use mc_flow::defs::Defs;
use mc_state::{FoldInd, FoldSeg, Form, Goal, LogicFault};
use mc_symbolic::State;
use std::alloc::Global;

/// Whether a branch is closing after a fold: in a chain it is, side branches aside.
fn closes_by(form: Form, goal: &Option<Goal>, closing: bool) -> bool
    ensures { result ≡ closes_by form goal.now closing }
{
    match form {
        Form::Certificate => closing,
        Form::Chain => match goal {
            Some(_) => closing,
            None => true,
        },
    }
}

/// The branch after a fold.
fn closed_by(form: Form, mut branch: Branch) -> Branch
    ensures { path result ≡ record (path branch) { closing = closes_by form branch.goal branch.closing } }
{
    branch.closing = closes_by(form, &branch.goal, branch.closing);
    branch
}

/// What comes of a branch whose state a fold changed, or the fold's first premise that is unmet.
fn folded(
    setting: Setting<'_>,
    done: Result<(), LogicFault>,
    branch: Branch,
) -> Result<Next, Refused>
    ensures { (judged : Judged (List Symbolic)) (old : Symbolic) → Changes judged (old ∷ []) (branch.state ∷ []) done
        → IsLineAnswer (by_folding judged (setting_of setting.entry) (with_state (path branch) old))
        (with_state (path branch) old) result }
{
    match done {
        Ok(()) => Ok(Next::One(closed_by(setting.form, branch))),
        Err(LogicFault::Premise(k)) => Err(Refused::Premise(k, branch)),
        Err(LogicFault::NoMemory) => Err(Refused::NoMemory),
    }
}

/// The branches after a fold that gives states, or its first premise that is unmet.
fn folded_to(
    alloc: Global,
    setting: Setting<'_>,
    given: Result<Vec<State>, LogicFault>,
    branch: Branch,
) -> Result<Next, Refused>
    ensures { (judged : Judged (List Symbolic)) → AnswersBy (λ v. v.items) judged given
        → IsLineAnswer (by_folding judged (setting_of setting.entry) (path branch)) (path branch) result }
{
    match given {
        Ok(states) => match with_states(alloc, &closed_by(setting.form, branch), states) {
            Ok(list) => Ok(Next::More(list)),
            Err(_) => Err(Refused::NoMemory),
        },
        Err(LogicFault::Premise(k)) => Err(Refused::Premise(k, branch)),
        Err(LogicFault::NoMemory) => Err(Refused::NoMemory),
    }
}

/// L3: folds a rule's block and calls into an Ind.
pub fn fold_to_ind(
    alloc: Global,
    defs: &Defs,
    setting: Setting<'_>,
    fold: &FoldInd,
    branch: Branch,
) -> Result<Next, Refused>
    ensures { (know : Test) → Tells know branch.state → IsLineAnswer (by_folding
        (folding_ind know defs.now fold.now branch.state) (setting_of setting.entry) (path branch)) (path branch)
        result }
{
    let given = fold_ind(alloc, &branch.state, defs, fold);
    folded_to(alloc, setting, given, branch)
}

/// L4: folds a rule's block and calls without one into a Seg to that call.
pub fn fold_to_seg(
    alloc: Global,
    defs: &Defs,
    setting: Setting<'_>,
    fold: &FoldSeg,
    branch: Branch,
) -> Result<Next, Refused>
    ensures { (know : Test) → Tells know branch.state → IsLineAnswer (by_folding
        (folding_seg know defs.now fold.now branch.state) (setting_of setting.entry) (path branch)) (path branch)
        result }
{
    let given = fold_seg(alloc, &branch.state, defs, fold);
    folded_to(alloc, setting, given, branch)
}

/// L5: folds a Seg and an Ind at its end.
pub fn close(
    alloc: Global,
    setting: Setting<'_>,
    first: EdgeId,
    second: EdgeId,
    mut branch: Branch,
) -> Result<Next, Refused>
    ensures { (know : Test) → Tells know branch.state → IsLineAnswer (by_folding
        (closing_seg know first second branch.state) (setting_of setting.entry) (path branch)) (path branch) result }
{
    let done = close_seg(alloc, &mut branch.state, first, second);
    folded(setting, done, branch)
}

/// L6: folds a Seg and another at its end.
pub fn join(
    alloc: Global,
    setting: Setting<'_>,
    first: EdgeId,
    second: EdgeId,
    mut branch: Branch,
) -> Result<Next, Refused>
    ensures { (know : Test) → Tells know branch.state → IsLineAnswer (by_folding
        (joining_segs know first second branch.state) (setting_of setting.entry) (path branch)) (path branch) result }
{
    let done = join_segs(alloc, &mut branch.state, first, second);
    folded(setting, done, branch)
}

/// The entries of L7.
#[derive(Clone, Copy)]
pub struct EmptyLine<'a> {
    pub pred: PredId,
    pub at: NodeId,
    pub args: &'a Args<NodeId>,
    pub end: NodeId,
    pub end_args: &'a Args<NodeId>,
}

/// The Seg that L7 makes.
fn empty_seg(alloc: Global, line: &EmptyLine<'_>) -> Result<EmptySeg, NoMemory>
    ensures { IfOk result (λ seg. seg ≡ record {
      pred = line.now.pred;
      at = line.now.at;
      args = line.now.args.now;
      end = line.now.end;
      end_args = line.now.end_args.now;
    }) }
{
    Ok(EmptySeg {
        pred: line.pred,
        at: line.at,
        args: line.args.copy(alloc)?,
        end: line.end,
        end_args: line.end_args.copy(alloc)?,
    })
}

/// L7 with lists of its own.
fn make_from(
    alloc: Global,
    defs: &Defs,
    setting: Setting<'_>,
    seg: &EmptySeg,
    mut branch: Branch,
) -> Result<Next, Refused>
    ensures { (know : Test) → Tells know branch.state → IsLineAnswer (by_folding
        (making_seg know defs.now seg.now.pred seg.now.at seg.now.args seg.now.end seg.now.end_args branch.state)
        (setting_of setting.entry) (path branch)) (path branch) result }
{
    let done = make_seg(alloc, &mut branch.state, defs, seg);
    folded(setting, done, branch)
}

/// L7: makes a Seg from a node to an equal one.
pub fn make(
    alloc: Global,
    defs: &Defs,
    setting: Setting<'_>,
    line: &EmptyLine<'_>,
    branch: Branch,
) -> Result<Next, Refused>
    ensures { (know : Test) → Tells know branch.state → IsLineAnswer (by_folding
        (making_seg know defs.now line.now.pred line.now.at line.now.args.now line.now.end line.now.end_args.now
        branch.state) (setting_of setting.entry) (path branch)) (path branch) result }
{
    match empty_seg(alloc, line) {
        Ok(seg) => make_from(alloc, defs, setting, &seg, branch),
        Err(_) => Err(Refused::NoMemory),
    }
}

/// The entries of L8.
fn spare_node(node: NodeId, add: &i64, kind: Kind) -> SpareNode
    ensures { result ≡ record { node = node; add = add.now; kind = kind } }
{
    SpareNode {
        node,
        add: *add,
        kind,
    }
}

/// L8: names a node and a number more.
fn name(setting: Setting<'_>, spare: &SpareNode, mut branch: Branch) -> Result<Next, Refused>
    requires { IsMade branch.state }
    ensures { (know : Test) → Tells know branch.state → IsLineAnswer (by_folding
        (naming_spare know spare.now.node spare.now.add spare.now.kind branch.state) (setting_of setting.entry)
        (path branch)) (path branch) result }
{
    let done = name_spare(&mut branch.state, spare);
    folded(setting, done, branch)
}

/// L8 with the entries of a line.
pub fn name_node(
    setting: Setting<'_>,
    node: NodeId,
    add: &i64,
    kind: Kind,
    branch: Branch,
) -> Result<Next, Refused>
    requires { IsMade branch.state }
    ensures { (know : Test) → Tells know branch.state → IsLineAnswer (by_folding
        (naming_spare know node add.now kind branch.state) (setting_of setting.entry) (path branch)) (path branch) result }
{
    let spare = spare_node(node, add, kind);
    name(setting, &spare, branch)
}
