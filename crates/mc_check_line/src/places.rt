// Where lines may stand.
ghost use Rattle.std.specs.Prelude.{◌≡◌};
ghost use Rattle.mc_check_line.specs.Judging.{path, setting_of};
ghost use Rattle.mc_kernel.specs.Judges.{is_chain, is_cut, is_plain, may_cut, may_step, may_stick};

use crate::{Branch, Setting};
use mc_base::PointId;
use mc_state::Form;

/// Whether the branch is no side branch.
fn is_plain(branch: &Branch) -> bool
    ensures { result ≡ is_plain (path branch.now) }
{
    match &branch.goal {
        Some(_) => false,
        None => true,
    }
}

/// Whether the point is a cut.
fn is_cut(cuts: &[PointId], point: PointId) -> bool
    ensures { result ≡ is_cut cuts.now point }
{
    for cut in cuts {
        if cut.0 == point.0 {
            return true;
        }
    }
    false
}

/// Whether an instruction's line may stand on the branch.
pub fn may_step(setting: Setting<'_>, branch: &Branch) -> bool
    ensures { result ≡ may_step (setting_of setting.entry) (path branch.now) }
{
    is_plain(branch) && !branch.closing && (!is_cut(setting.cuts, branch.point) || !branch.moved)
}

/// Whether a jump may.
pub fn may_cut(setting: Setting<'_>, branch: &Branch) -> bool
    ensures { result ≡ may_cut (setting_of setting.entry) (path branch.now) }
{
    is_plain(branch) && is_cut(setting.cuts, branch.point) && branch.moved
}

/// Whether the document is a chain.
fn is_chain(form: Form) -> bool
    ensures { result ≡ is_chain form }
{
    match form {
        Form::Certificate => false,
        Form::Chain => true,
    }
}

/// Whether a line that says that the instruction is stuck may.
pub fn may_stick(setting: Setting<'_>, branch: &Branch) -> bool
    ensures { result ≡ may_stick (setting_of setting.entry) (path branch.now) }
{
    is_chain(setting.form) && is_plain(branch) && !branch.closing
}
