// The calls of each function, one after another.
use crate::graph::Edge;
use std::alloc::{AllocError, Global};

/// The number at a place, and past all numbers the greatest there is.
pub fn at(numbers: &[usize], place: usize) -> usize {
    match numbers.get(place) {
        None => usize::MAX,
        Some(number) => *number,
    }
}

/// Puts a number at a place, if there is the place.
pub fn put(numbers: &mut [usize], place: usize, number: usize) {
    if place < numbers.len() {
        numbers[place] = number;
    }
}

/// Which calls each function has, each taken once. What is taken is tested by those who use it.
pub struct Links {
    /// For each call the next one of its caller, or a number past all calls.
    nexts: Vec<usize>,
    /// For each function its first call that is not taken, or a number past all calls.
    firsts: Vec<usize>,
}

/// Drops its parts. What holds one calls this.
impl Drop for Links {
    fn drop(self) {
        let Links { nexts, firsts } = self;
        drop(nexts);
        drop(firsts);
    }
}

impl Links {
    /// All calls, of functions with numbers below this size.
    pub fn new(alloc: Global, edges: &[Edge], size: usize) -> Result<Links, AllocError> {
        let mut nexts = vec![in alloc; usize::MAX; edges.len()]?;
        let mut firsts = vec![in alloc; usize::MAX; size]?;
        for (call, edge) in edges.iter().enumerate() {
            put(
                nexts.as_mut_slice(),
                call,
                at(firsts.as_slice(), edge.caller),
            );
            put(firsts.as_mut_slice(), edge.caller, call);
        }
        Ok(Links { nexts, firsts })
    }

    /// Takes a call of a function, the last one in the text first.
    pub fn next(&mut self, function: usize) -> Option<usize> {
        let call = at(self.firsts.as_slice(), function);
        if call >= self.nexts.len() {
            return None;
        }
        put(
            self.firsts.as_mut_slice(),
            function,
            at(self.nexts.as_slice(), call),
        );
        Some(call)
    }
}
