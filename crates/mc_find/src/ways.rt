// How many ways lead through a program without loops.
use mc_base::{NoMemory, PointId};
use mc_flow::Flow;
use std::alloc::Global;

/// How many ways lead on from a point, if there is one.
fn ways_from(ways: &[u64], point: Option<PointId>) -> u64 {
    match point {
        Some(next) => ways.get(next.0 as usize).copied().unwrap_or(0),
        None => 0,
    }
}

/// How many ways lead from the first point of a flow graph to an end, where there are no loops: each point is followed by later
/// ones alone.
pub fn count_ways(alloc: Global, flow: &Flow) -> Result<u64, NoMemory> {
    let points = flow.points.as_slice();
    let mut ways = vec![in alloc; 1; points.len()]?;
    for behind in 0..points.len() {
        let place = points.len() - 1 - behind;
        if let Some(point) = points.get(place) {
            let (one, other) = point.code.targets();
            let first = ways_from(ways.as_slice(), one);
            let both = first.saturating_add(ways_from(ways.as_slice(), other));
            if let Some(slot) = ways.get_mut(place) {
                *slot = both.max(1);
            }
        }
    }
    Ok(ways.as_slice().first().copied().unwrap_or(0))
}
