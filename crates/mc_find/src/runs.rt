// What runs of a program tell a search.
use mc_base::text::Place;
use mc_base::{FaultKind, NoMemory};
use std::alloc::Global;

/// Runs of the program that a flow graph comes of. They are advice to a search: nothing is claimed of them.
pub trait Runs {
    /// The faults to which some runs come, and their places. None says only that none was found.
    fn faults(&self, alloc: Global) -> Result<Vec<(FaultKind, Place)>, NoMemory>;
}

/// No run.
#[derive(Drop)]
pub struct NoRuns;

impl Runs for NoRuns {
    fn faults(&self, alloc: Global) -> Result<Vec<(FaultKind, Place)>, NoMemory> {
        Ok(Vec::new(alloc))
    }
}
