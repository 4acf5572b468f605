//! The heap: a finite map from addresses to blocks, and the laws of its disjoint parts.

mod blocks;
mod laws;

pub use blocks::{Heap, NoMemory, Read};
pub use laws::{
    blocks_come_together, changes_are_local, heaps_change_one_address, parts_regroup,
    two_blocks_are_parts,
};
