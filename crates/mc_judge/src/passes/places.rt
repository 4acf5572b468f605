// Places of states among the states of cuts.
ghost use Rattle.std.specs.Prelude.{◌≡◌, IfOk, map};
ghost use Rattle.mc_check_line.specs.Judging.{head_of};
ghost use Rattle.mc_kernel.specs.Branches.{states_at};
ghost use Rattle.mc_replay.specs.Changes.{states_held};
ghost use Rattle.mc_judge.specs.Passes.Places.{IsPlaceAt, IsPlaceFor};

use mc_base::{NoMemory, PointId};
use mc_check_line::Head;
use mc_symbolic::State;
use std::alloc::Global;

/// Where a state more at a point comes among the states of cuts: after all that are at points up to it.
pub fn place_at(heads: &[Head], point: PointId) -> usize
    ensures { IsPlaceAt (map head_of heads.now) point result }
{
    let mut place = 0;
    for head in heads {
        if point.0 < head.point.0 {
            return place;
        }
        place += 1;
    }
    place
}

/// Where the state with a number at a point stands among the states of cuts.
pub fn place_for(heads: &[Head], point: PointId, number: u64) -> Option<usize>
    ensures { IsPlaceFor (map head_of heads.now) point number result }
{
    let mut left = number;
    for (place, head) in heads.iter().enumerate() {
        if head.point.0 == point.0 {
            if left == 0 {
                return Some(place);
            }
            left -= 1;
        }
    }
    None
}

/// The states at a point, in order.
pub fn states_at(alloc: Global, heads: &[Head], point: PointId) -> Result<Vec<&State>, NoMemory>
    ensures { IfOk result (λ states. states_held states.items ≡ states_at point (map head_of heads.now)) }
{
    let mut states = Vec::new(alloc);
    for head in heads {
        if head.point.0 == point.0 {
            states.push(&head.state)?;
        }
    }
    Ok(states)
}
