// What alarms carry.
ghost use Rattle.std.specs.Prelude.{◌≡◌, IfOk, true, option_map};
ghost use Rattle.mc_exact.specs.Marks.{IsMark, IsShape};

use mc_base::{NoMemory, NodeId};
use mc_exact::answers;
use mc_rules_steps::Gap;
use mc_symbolic::State;
use std::alloc::Global;

/// Whether a gap is a shape.
fn is_shape(gap: Gap) -> bool
    ensures yes { result ≡ true → IsShape gap }
    ensures no { IsShape gap → result ≡ true }
{
    match gap {
        Gap::NoShape(_, _) => true,
        Gap::Uninit(_) => false,
        Gap::NoBlock(_) => false,
        Gap::Reached => false,
        Gap::UninitField(_, _) => false,
        Gap::NotEmpty(_) => false,
    }
}

/// The answers of malloc to the run that faults where a branch with this track is stuck at a state with a gap. None where it is
/// not exact, or lacks a shape.
pub fn mark(
    alloc: Global,
    state: &State,
    track: Option<&[Option<NodeId>]>,
    gap: Gap,
) -> Result<Option<Vec<u64>>, NoMemory>
    ensures { IfOk result (λ mark.
        IsMark state.now (option_map (λ picks. picks.now) track.entry) gap (option_map (λ list. list.items) mark)) }
{
    let Some(picks) = track else {
        return Ok(None);
    };
    if is_shape(gap) {
        return Ok(None);
    }
    let list = answers(alloc, state, picks)?;
    Ok(Some(list))
}
