// Lines of documents.
ghost use Rattle.std.specs.Prelude.{◌≡◌};
ghost use Rattle.mc_flow.specs.Valid.{IsValid};
ghost use Rattle.mc_check_line.specs.Judging.{IsLineAnswer, path, setting_of};
ghost use Rattle.mc_kernel.specs.JudgedLaws.{IsAsked};
ghost use Rattle.mc_kernel.specs.Judges.{Knowledge, judged_line};
ghost use Rattle.mc_state.specs.Fits.{IsWellMade};

use crate::folds::{EmptyLine, close, fold_to_ind, fold_to_seg, join, make, name_node};
use crate::jumps::jump_to;
use crate::logic::{drop, end_false, end_side, forget, merge};
use crate::steps::step;
use crate::stuck::stick;
use crate::unfolds::{back, ind, seg};
use crate::{Branch, Next, Refused, Setting};
use mc_flow::Flow;
use mc_flow::defs::Defs;
use mc_lines::cert::Line;
use std::alloc::Global;

/// Judges a line at a branch: the branches that come of it, in order, or its first premise that is unmet, with the branch
/// as it was. A line of no rule fails premise 1. Without memory the branch is lost.
pub fn judge(
    alloc: Global,
    flow: &Flow,
    defs: &Defs,
    setting: Setting<'_>,
    line: &Line,
    branch: Branch,
) -> Result<Next, Refused>
    requires valid { IsValid flow.now defs.now }
    requires made { IsWellMade defs.now flow.now.vars flow.now.structs.list branch.state }
    ensures { (k : Knowledge) → IsAsked k flow.now defs.now (path branch) → IsLineAnswer
        (judged_line k flow.now defs.now (setting_of setting.entry) line.now (path branch)) (path branch) result }
{
    match line {
        Line::Step(rule) => step(alloc, flow, defs, setting, *rule, branch),
        Line::L1(edge) => ind(alloc, flow, defs, *edge, branch),
        Line::L2(edge) => seg(alloc, flow, defs, *edge, branch),
        Line::L3(fold) => fold_to_ind(alloc, defs, setting, fold, branch),
        Line::L4(fold) => fold_to_seg(alloc, defs, setting, fold, branch),
        Line::L5(first, second) => close(alloc, setting, *first, *second, branch),
        Line::L6(first, second) => join(alloc, setting, *first, *second, branch),
        Line::L7(pred, at, args, end, end_args) => {
            let empty = EmptyLine {
                pred: *pred,
                at: *at,
                args,
                end: *end,
                end_args,
            };
            make(alloc, defs, setting, &empty, branch)
        }
        Line::L8(node, add, kind) => name_node(setting, *node, add, *kind, branch),
        Line::L9(keep, gone) => merge(alloc, *keep, *gone, branch),
        Line::L10(edge) => drop(alloc, *edge, branch),
        Line::L11(node) => forget(alloc, *node, branch),
        Line::L12 => end_false(branch),
        Line::L13(number, images, edges) => jump_to(setting, *number, images, edges, branch),
        Line::L14(edge) => end_side(*edge, branch),
        Line::L15(edge) => back(alloc, flow, defs, *edge, branch),
        Line::C1 => stick(alloc, flow, defs, setting, branch),
        Line::Header(_, _) | Line::Cut(_) | Line::Head(_, _) | Line::Pass | Line::End => {
            Err(Refused::Premise(1, branch))
        }
        Line::C2(_) | Line::C3(_, _) => Err(Refused::Premise(1, branch)),
    }
}
