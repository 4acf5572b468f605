// Lines that jump.
ghost use Rattle.std.specs.Prelude.{◌≡◌, map, slice_get};
ghost use Rattle.std.specs.Option.{option_copied};
ghost use Rattle.mc_check_line.specs.Jump.Fitting.{unmet};
ghost use Rattle.mc_check_line.specs.Judging.{IsLineAnswer, head_of, path, setting_of};
ghost use Rattle.mc_kernel.specs.Branches.{states_at};
ghost use Rattle.mc_kernel.specs.Judges.{ends, jumping_to, may_cut};
ghost use Rattle.mc_state.specs.Known.{Test, Tells};
ghost use Rattle.mc_state.specs.Premises.{Judged, need, then_give};

use crate::jump::{fits, jumps_are_fits};
use crate::places::may_cut;
use crate::{Branch, Head, Next, Refused, Setting};
use mc_base::{EdgeId, Items, NodeId, PointId};
use mc_symbolic::State;

/// The state of a number among those of a cut.
fn state_at(heads: &[Head], point: PointId, number: u64) -> Option<&State>
    ensures { option_copied result ≡ slice_get (states_at point (map head_of heads.now)) number }
{
    let mut left = number;
    for head in heads {
        if head.point.0 == point.0 {
            if left == 0 {
                return Some(&head.state);
            }
            left -= 1;
        }
    }
    None
}

/// What comes of a branch that has or has not an unmet premise of fitting.
fn landed(unfit: Option<u8>, branch: Branch) -> Result<Next, Refused>
    ensures { (judged : Judged (Unit {0})) → unfit ≡ unmet judged
        → IsLineAnswer (then_give ends judged) (path branch) result }
{
    match unfit {
        None => Ok(Next::Ended),
        Some(k) => Err(Refused::Premise(k, branch)),
    }
}

/// L13: jumps to a state of the cut, by its number, with an image for each of its nodes and an edge for each of its
/// edges.
fn jump(
    setting: Setting<'_>,
    number: u64,
    images: &[NodeId],
    edges: &[EdgeId],
    branch: Branch,
) -> Result<Next, Refused>
    ensures { (know : Test) → Tells know branch.state → IsLineAnswer
        (need 1 (may_cut (setting_of setting.entry) (path branch)) (jumping_to know
        (states_at branch.point (setting_of setting.entry).heads) number images.now edges.now branch.state))
        (path branch) result }
{
    // For the proof alone: premises from 4 on are those of fitting.
    jumps_are_fits();
    if !may_cut(setting, &branch) {
        return Err(Refused::Premise(1, branch));
    }
    if branch.state.is_false() {
        return Err(Refused::Premise(2, branch));
    }
    let Some(target) = state_at(setting.heads, branch.point, number) else {
        return Err(Refused::Premise(3, branch));
    };
    let unfit = fits(&branch.state, target, images, edges);
    landed(unfit, branch)
}

/// L13 with the entries of a line.
pub fn jump_to(
    setting: Setting<'_>,
    number: u64,
    images: &Items<NodeId>,
    edges: &Items<EdgeId>,
    branch: Branch,
) -> Result<Next, Refused>
    ensures { (know : Test) → Tells know branch.state → IsLineAnswer
        (need 1 (may_cut (setting_of setting.entry) (path branch)) (jumping_to know
        (states_at branch.point (setting_of setting.entry).heads) number images.now edges.now branch.state))
        (path branch) result }
{
    let nodes = images.as_slice();
    let ids = edges.as_slice();
    jump(setting, number, nodes, ids, branch)
}
