// The cuts of a certificate.
use mc_base::{NoMemory, PointId};
use mc_flow::Flow;
use std::alloc::Global;

/// The points that a certificate has to cut, ascending, each once: the loop heads, and where states are merged the points where
/// an `if` ends.
pub fn first_cuts(alloc: Global, flow: &Flow, merge: bool) -> Result<Vec<PointId>, NoMemory> {
    let mut cuts: Vec<PointId> = Vec::new(alloc);
    cuts.extend_from_slice(flow.heads.as_slice())?;
    if merge {
        cuts.extend_from_slice(flow.merges.as_slice())?;
    }
    cuts.sort()?;
    cuts.dedup();
    Ok(cuts)
}
