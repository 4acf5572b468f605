// The addresses that a run has used.
use crate::draws::Draws;
use mc_base::NoMemory;
use mc_flow::heap::Heap;
use std::alloc::Global;

/// An address, and the struct that was allocated there.
#[derive(Clone, Copy)]
struct Used {
    address: u64,
    shape: u64,
}

/// The addresses that a run has used.
#[derive(Drop)]
pub struct Addresses {
    used: Vec<Used>,
    /// The least one that it has not.
    next: u64,
}

impl Addresses {
    pub fn new(alloc: Global) -> Addresses {
        Addresses {
            used: Vec::new(alloc),
            next: 1,
        }
    }

    /// The least address that the run has not used.
    pub fn fresh(&self) -> u64 {
        self.next
    }

    /// A struct is allocated at an address.
    pub fn put(&mut self, address: u64, shape: u64) -> Result<(), NoMemory> {
        self.next = self.next.max(address.saturating_add(1));
        self.used.push(Used { address, shape })?;
        Ok(())
    }

    // Whether something is allocated at an address that was used.
    fn is_there(&self, heap: &Heap, address: u64) -> bool {
        for used in self.used.as_slice() {
            if used.address == address && heap.fields(address, used.shape).is_some() {
                return true;
            }
        }
        false
    }

    /// One of the used addresses, if nothing is allocated there any more.
    pub fn freed(&self, draws: &mut Draws, heap: &Heap) -> Option<u64> {
        let used = self.used.as_slice();
        let one = used.get(draws.place(used.len()))?;
        if self.is_there(heap, one.address) {
            None
        } else {
            Some(one.address)
        }
    }
}
