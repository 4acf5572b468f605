// Orders in which predicates are wanted.
use crate::walks::Task;
use mc_base::{NoMemory, PredId};
use mc_flow::Instr;
use std::alloc::Global;

/// The most predicates that the program does not name of which each is left out once.
const FEW: usize = 6;

/// Whether a program assumes or asserts a predicate.
fn is_named(task: Task<'_>, pred: PredId) -> bool {
    for point in task.sight.flow.points.as_slice() {
        match &point.code {
            Instr::AssertShape(own, _, _, _) => {
                if *own == pred {
                    return true;
                }
            }
            Instr::AssumeShape(own, _, _, _) => {
                if *own == pred {
                    return true;
                }
            }
            _ => {}
        }
    }
    false
}

/// Whether a predicate calls another.
fn calls(task: Task<'_>, pred: PredId, other: PredId) -> bool {
    let Some(def) = task.sight.defs.as_slice().get(pred.0 as usize) else {
        return false;
    };
    for rule in def.rules.as_slice() {
        for call in rule.calls.as_slice() {
            if call.pred == other {
                return true;
            }
        }
    }
    false
}

/// Whether one of some predicates calls another one.
fn is_called(task: Task<'_>, list: &[PredId], other: PredId) -> bool {
    for pred in list {
        if calls(task, *pred, other) {
            return true;
        }
    }
    false
}

/// The predicates that the program assumes or asserts, and those that they call, in any number of steps.
fn needed(alloc: Global, task: Task<'_>) -> Result<Vec<PredId>, NoMemory> {
    let mut list: Vec<PredId> = Vec::new(alloc);
    for pred in task.wanted {
        if is_named(task, *pred) {
            list.push(*pred)?;
        }
    }
    for _ in task.wanted {
        for pred in task.wanted {
            if !list.as_slice().contains(pred) && is_called(task, list.as_slice(), *pred) {
                list.push(*pred)?;
            }
        }
    }
    Ok(list)
}

/// The wanted predicates that are in a list, or those that are not, in their order.
fn parted(
    alloc: Global,
    task: Task<'_>,
    list: &[PredId],
    is_in: bool,
) -> Result<Vec<PredId>, NoMemory> {
    let mut some = Vec::new(alloc);
    for pred in task.wanted {
        if list.contains(pred) == is_in {
            some.push(*pred)?;
        }
    }
    Ok(some)
}

/// Some predicates, then others from a place on, and at last those before it.
fn rotated(
    alloc: Global,
    first: &[PredId],
    others: &[PredId],
    start: usize,
) -> Result<Vec<PredId>, NoMemory> {
    let mut some = Vec::from_slice(alloc, first)?;
    for (place, pred) in others.iter().enumerate() {
        if place >= start {
            some.push(*pred)?;
        }
    }
    for (place, pred) in others.iter().enumerate() {
        if place < start {
            some.push(*pred)?;
        }
    }
    Ok(some)
}

/// Some predicates, then others but one.
fn without(
    alloc: Global,
    first: &[PredId],
    others: &[PredId],
    left_out: PredId,
) -> Result<Vec<PredId>, NoMemory> {
    let mut some = Vec::from_slice(alloc, first)?;
    for pred in others {
        if *pred != left_out {
            some.push(*pred)?;
        }
    }
    Ok(some)
}

/// Adds lists in which some predicates come first, and then others that each begin elsewhere, forward or backward.
fn push_turned(
    alloc: Global,
    lists: &mut Vec<Vec<PredId>>,
    first: &[PredId],
    others: &[PredId],
) -> Result<(), NoMemory> {
    let mut back = Vec::from_slice(alloc, others)?;
    back.reverse();
    for start in 0..others.len() {
        lists.push(rotated(alloc, first, back.as_slice(), start)?)?;
        if start > 0 {
            lists.push(rotated(alloc, first, others, start)?)?;
        }
    }
    Ok(())
}

/// Other lists of predicates that are wanted: those alone that the program names or that these call; then, if the others are
/// few, each of them left out once, and in other orders.
pub fn orders(alloc: Global, task: Task<'_>) -> Result<Vec<Vec<PredId>>, NoMemory> {
    let named = needed(alloc, task)?;
    let first = parted(alloc, task, named.as_slice(), true)?;
    let others = parted(alloc, task, named.as_slice(), false)?;
    let mut lists = Vec::new(alloc);
    if others.is_empty() {
        return Ok(lists);
    }
    if !first.is_empty() {
        lists.push(Vec::from_slice(alloc, first.as_slice())?)?;
    }
    if others.len() > 1 && others.len() <= FEW {
        for pred in others.as_slice() {
            lists.push(without(alloc, first.as_slice(), others.as_slice(), *pred)?)?;
        }
        push_turned(alloc, &mut lists, first.as_slice(), others.as_slice())?;
    }
    Ok(lists)
}
