// Levels of functions: none has a lower level than one that it calls, so a call to a lower level never comes back.
ghost use Rattle.std.specs.Prelude.{◌≡◌, IsTrue, IfOk, slice_index};
ghost use Rattle.mc_c_check.specs.Graphs.{NeverRise};

use crate::graph::Edge;
use crate::links::{Links, at, put};
use std::alloc::{AllocError, Global};

/// A search through all calls, which levels the functions of a loop alike and each other one above those that it calls.
/// What it finds is tested by those who use it.
#[derive(Drop)]
struct Search {
    links: Links,
    /// When a function was met, from 1 on, and 0 before.
    numbers: Vec<usize>,
    /// The least of these numbers that the function is known to lead to and that has no level.
    lows: Vec<usize>,
    /// The level of a function, from 1 on, and 0 before it is known.
    levels: Vec<usize>,
    /// The functions that called one another up to here.
    path: Vec<usize>,
    /// The functions that were met and have no level.
    waiting: Vec<usize>,
    root: usize,
    met: usize,
    level: usize,
}

impl Search {
    /// Nothing is met.
    fn new(alloc: Global, edges: &[Edge], size: usize) -> Result<Search, AllocError> {
        Ok(Search {
            links: Links::new(alloc, edges, size)?,
            numbers: vec![in alloc; 0; size]?,
            lows: vec![in alloc; 0; size]?,
            levels: vec![in alloc; 0; size]?,
            path: Vec::new(alloc),
            waiting: Vec::new(alloc),
            root: 0,
            met: 0,
            level: 0,
        })
    }

    /// Meets a function.
    fn meet(&mut self, function: usize) -> Result<(), AllocError> {
        self.met = self.met.saturating_add(1);
        put(self.numbers.as_mut_slice(), function, self.met);
        put(self.lows.as_mut_slice(), function, self.met);
        self.waiting.push(function)?;
        self.path.push(function)?;
        Ok(())
    }

    /// Notes that a function leads to one with this number.
    fn lower(&mut self, function: usize, number: usize) {
        if number < at(self.lows.as_slice(), function) {
            put(self.lows.as_mut_slice(), function, number);
        }
    }

    /// Goes from a function to one that it calls.
    fn follow(&mut self, function: usize, callee: usize) -> Result<(), AllocError> {
        let number = at(self.numbers.as_slice(), callee);
        if number == 0 {
            return self.meet(callee);
        }
        if at(self.levels.as_slice(), callee) == 0 {
            self.lower(function, number);
        }
        Ok(())
    }

    /// Gives the next level to the functions that were met from this one on and have none.
    fn close(&mut self, function: usize) {
        self.level = self.level.saturating_add(1);
        while let Some(last) = self.waiting.pop() {
            put(self.levels.as_mut_slice(), last, self.level);
            if last == function {
                return;
            }
        }
    }

    /// Goes back from a function to the one that led to it.
    fn leave(&mut self, function: usize) {
        self.path.pop();
        let low = at(self.lows.as_slice(), function);
        if low == at(self.numbers.as_slice(), function) {
            self.close(function);
            return;
        }
        if let Some(caller) = self.path.last() {
            let caller = *caller;
            self.lower(caller, low);
        }
    }

    /// Goes one call on, or one function back, or to the next function that was not met.
    fn go_on(&mut self, edges: &[Edge]) -> Result<(), AllocError> {
        let Some(last) = self.path.last() else {
            let root = self.root;
            self.root = root.saturating_add(1);
            if at(self.numbers.as_slice(), root) == 0 {
                return self.meet(root);
            }
            return Ok(());
        };
        let function = *last;
        match self.links.next(function) {
            None => self.leave(function),
            Some(call) => {
                if let Some(edge) = edges.get(call) {
                    self.follow(function, edge.callee)?;
                }
            }
        }
        Ok(())
    }
}

/// The levels that the search finds.
fn found_levels(alloc: Global, edges: &[Edge], size: usize) -> Result<Vec<usize>, AllocError> {
    let mut search = Search::new(alloc, edges, size)?;
    let steps = edges.len().saturating_add(size).saturating_add(size);
    for _ in 0..steps {
        search.go_on(edges)?;
    }
    Ok(search.levels)
}

/// The level of a function; past all it is 0.
pub fn level_of(levels: &[usize], function: usize) -> usize
    ensures { result ≡ slice_index levels.now function }
{
    match levels.get(function) {
        None => 0,
        Some(level) => *level,
    }
}

/// Whether no call leads to a higher level.
fn never_rise(edges: &[Edge], levels: &[usize]) -> bool
    ensures { IsTrue result → NeverRise edges.now levels.now }
{
    for edge in edges {
        if level_of(levels, edge.caller) < level_of(levels, edge.callee) {
            return false;
        }
    }
    true
}

/// Levels of functions, of which no call leads to a higher one.
pub fn find_levels(alloc: Global, edges: &[Edge], size: usize) -> Result<Vec<usize>, AllocError>
    ensures { IfOk result (λ levels. NeverRise edges.now levels.items) }
{
    let levels = found_levels(alloc, edges, size)?;
    if never_rise(edges, levels.as_slice()) {
        return Ok(levels);
    }
    Ok(Vec::new(alloc))
}
