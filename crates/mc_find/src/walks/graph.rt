// The points of a flow graph, forward and backward.
use mc_base::{NoMemory, PointId};
use mc_flow::{Flow, Instr};
use std::alloc::Global;

/// For each point of a flow graph the points after it, those before it, and the number of its component: points that reach
/// each other are of one.
#[derive(Drop)]
pub struct Graph {
    after: Vec<Vec<usize>>,
    before: Vec<Vec<usize>>,
    components: Vec<usize>,
}

/// So many empty lists.
fn empty_lists(alloc: Global, count: usize) -> Result<Vec<Vec<usize>>, NoMemory> {
    let mut lists = Vec::with_capacity(alloc, count)?;
    for _ in 0..count {
        lists.push(Vec::new(alloc))?;
    }
    Ok(lists)
}

/// Adds a point to the list of another.
fn add(lists: &mut Vec<Vec<usize>>, at: usize, point: usize) -> Result<(), NoMemory> {
    if let Some(list) = lists.get_mut(at) {
        list.push(point)?;
    }
    Ok(())
}

/// The list of a point.
fn list_at(lists: &[Vec<usize>], at: usize) -> &[usize] {
    match lists.get(at) {
        Some(list) => list.as_slice(),
        None => &[],
    }
}

/// A search forward: which points were met, which are open with the places of the points after them that come next, and all
/// that are done, in this order.
#[derive(Drop)]
struct Search {
    met: Vec<bool>,
    open: Vec<(usize, usize)>,
    done: Vec<usize>,
}

impl Search {
    /// Meets a point.
    fn meet(&mut self, point: usize) -> Result<(), NoMemory> {
        if let Some(slot) = self.met.get_mut(point) {
            if !*slot {
                *slot = true;
                self.open.push((point, 0))?;
            }
        }
        Ok(())
    }

    /// Goes one step; whether there is one.
    fn step(&mut self, after: &[Vec<usize>]) -> Result<bool, NoMemory> {
        let Some(top) = self.open.pop() else {
            return Ok(false);
        };
        match list_at(after, top.0).get(top.1) {
            Some(next) => {
                self.open.push((top.0, top.1.saturating_add(1)))?;
                self.meet(*next)?;
            }
            None => self.done.push(top.0)?,
        }
        Ok(true)
    }
}

/// All points, each after those that are met from it, but for what reaches it in turn.
fn done_order(alloc: Global, after: &[Vec<usize>]) -> Result<Vec<usize>, NoMemory> {
    let mut search = Search {
        met: vec![in alloc; false; after.len()]?,
        open: Vec::new(alloc),
        done: Vec::with_capacity(alloc, after.len())?,
    };
    for start in 0..after.len() {
        search.meet(start)?;
        for _ in 0..after.len().saturating_mul(3) {
            if !search.step(after)? {
                break;
            }
        }
    }
    Ok(search.done)
}

/// Gives a number to a point that has none, and to all of these that reach it.
fn flood(
    alloc: Global,
    numbers: &mut Vec<usize>,
    before: &[Vec<usize>],
    start: usize,
) -> Result<(), NoMemory> {
    let mut open = vec![in alloc; start]?;
    for _ in 0..before.len().saturating_mul(3).saturating_add(1) {
        let Some(point) = open.pop() else {
            return Ok(());
        };
        if let Some(slot) = numbers.get_mut(point) {
            if *slot == usize::MAX {
                *slot = start;
                open.extend_from_slice(list_at(before, point))?;
            }
        }
    }
    Ok(())
}

/// The number of the component of each point.
fn components_of(
    alloc: Global,
    done: &[usize],
    before: &[Vec<usize>],
) -> Result<Vec<usize>, NoMemory> {
    let mut numbers = vec![in alloc; usize::MAX; before.len()]?;
    for behind in 0..done.len() {
        let left = done.len() - 1 - behind;
        if let Some(start) = done.get(left) {
            flood(alloc, &mut numbers, before, *start)?;
        }
    }
    Ok(numbers)
}

/// Marks a point, and all that are reached from it along lists.
fn spread(
    alloc: Global,
    marks: &mut Vec<bool>,
    lists: &[Vec<usize>],
    start: usize,
) -> Result<(), NoMemory> {
    let mut open = vec![in alloc; start]?;
    for _ in 0..lists.len().saturating_mul(3).saturating_add(1) {
        let Some(point) = open.pop() else {
            return Ok(());
        };
        if let Some(slot) = marks.get_mut(point) {
            if !*slot {
                *slot = true;
                open.extend_from_slice(list_at(lists, point))?;
            }
        }
    }
    Ok(())
}

impl Graph {
    /// The points of a flow graph.
    pub fn of(alloc: Global, flow: &Flow) -> Result<Graph, NoMemory> {
        let count = flow.points.len();
        let mut after = empty_lists(alloc, count)?;
        let mut before = empty_lists(alloc, count)?;
        for (place, point) in flow.points.as_slice().iter().enumerate() {
            let (one, other) = point.code.targets();
            if let Some(next) = one {
                add(&mut after, place, next.0 as usize)?;
                add(&mut before, next.0 as usize, place)?;
            }
            if let Some(next) = other {
                add(&mut after, place, next.0 as usize)?;
                add(&mut before, next.0 as usize, place)?;
            }
        }
        let done = done_order(alloc, after.as_slice())?;
        let components = components_of(alloc, done.as_slice(), before.as_slice())?;
        Ok(Graph {
            after,
            before,
            components,
        })
    }

    /// How many points there are.
    pub fn size(&self) -> usize {
        self.after.len()
    }

    /// The points right before a point.
    pub fn before(&self, point: usize) -> &[usize] {
        list_at(self.before.as_slice(), point)
    }

    /// The number of the component of a point.
    pub fn component(&self, point: PointId) -> usize {
        self.components
            .as_slice()
            .get(point.0 as usize)
            .copied()
            .unwrap_or(0)
    }

    /// Marks a point and all that are reached from it.
    pub fn mark_after(
        &self,
        alloc: Global,
        marks: &mut Vec<bool>,
        point: PointId,
    ) -> Result<(), NoMemory> {
        spread(alloc, marks, self.after.as_slice(), point.0 as usize)
    }

    /// For each point whether one is reached from it that asks that nothing is allocated.
    pub fn reaching_empty(&self, alloc: Global, flow: &Flow) -> Result<Vec<bool>, NoMemory> {
        let mut marks = vec![in alloc; false; self.size()]?;
        for (place, point) in flow.points.as_slice().iter().enumerate() {
            if let Instr::AssertEmpty(_) = &point.code {
                spread(alloc, &mut marks, self.before.as_slice(), place)?;
            }
        }
        Ok(marks)
    }
}
