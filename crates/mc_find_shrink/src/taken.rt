// The edges that a cover takes.
use mc_base::{EdgeId, NoMemory};
use mc_cover::Mark;
use std::alloc::Global;

/// The edge that a mark takes.
fn edge_of(mark: &Mark) -> Option<EdgeId> {
    match mark {
        Mark::AtEnd => None,
        Mark::ByInd(edge) => Some(*edge),
        Mark::BySeg(edge) => Some(*edge),
        Mark::ByRule { block, .. } => *block,
        Mark::ByCall { block, .. } => *block,
    }
}

/// The edges that marks take.
pub fn taken_by(alloc: Global, marks: &[Mark]) -> Result<Vec<EdgeId>, NoMemory> {
    let mut list = Vec::new(alloc);
    for mark in marks {
        if let Some(edge) = edge_of(mark) {
            list.push(edge)?;
        }
    }
    Ok(list)
}
