// Which predicates a program wants, and whether it asks that nothing is allocated.
use mc_base::{NoMemory, PredId};
use mc_flow::defs::Defs;
use mc_flow::{Flow, Instr, Operand};
use std::alloc::Global;

/// Whether the program asks anywhere that nothing is allocated.
pub fn asks_for_empty(flow: &Flow) -> bool {
    for point in flow.points.as_slice() {
        if let Instr::AssertEmpty(_) = &point.code {
            return true;
        }
    }
    false
}

/// Adds a predicate that is not in the list, and before it those that it calls.
fn want(alloc: Global, list: &mut Vec<PredId>, defs: &Defs, pred: PredId) -> Result<(), NoMemory> {
    let mut open = vec![in alloc; pred]?;
    let mut found = Vec::new(alloc);
    for next in 0..defs.as_slice().len() {
        let Some(each) = open.as_slice().get(next).copied() else {
            break;
        };
        found.push(each)?;
        push_called(&mut open, defs, each)?;
    }
    found.reverse();
    for each in found.as_slice() {
        if !list.as_slice().contains(each) {
            list.push(*each)?;
        }
    }
    Ok(())
}

/// Adds the predicates that a predicate calls.
fn push_called(open: &mut Vec<PredId>, defs: &Defs, pred: PredId) -> Result<(), NoMemory> {
    let Some(def) = defs.as_slice().get(pred.0 as usize) else {
        return Ok(());
    };
    for rule in def.rules.as_slice() {
        for call in rule.calls.as_slice() {
            if !open.as_slice().contains(&call.pred) {
                open.push(call.pred)?;
            }
        }
    }
    Ok(())
}

/// All predicates in the order in which they are wanted: those that the program asserts, then those that it assumes, then
/// the others, each after those that it calls.
pub fn wanted_predicates(alloc: Global, flow: &Flow, defs: &Defs) -> Result<Vec<PredId>, NoMemory> {
    let mut list = Vec::new(alloc);
    for point in flow.points.as_slice() {
        if let Instr::AssertShape(pred, _, _, _) = &point.code {
            want(alloc, &mut list, defs, *pred)?;
        }
    }
    for point in flow.points.as_slice() {
        if let Instr::AssumeShape(pred, _, _, _) = &point.code {
            want(alloc, &mut list, defs, *pred)?;
        }
    }
    for place in 0..defs.as_slice().len() {
        want(alloc, &mut list, defs, PredId(place as u64))?;
    }
    Ok(list)
}

/// A predicate that a program asserts, with its arguments.
#[derive(Drop)]
pub struct Asserted {
    pub pred: PredId,
    pub args: Vec<Operand>,
}

/// Whether a predicate with these arguments is in a list.
fn has(list: &[Asserted], pred: PredId, args: &[Operand]) -> bool {
    for each in list {
        if each.pred == pred && each.args.as_slice() == args {
            return true;
        }
    }
    false
}

/// The predicates with arguments that a program asserts, each once.
pub fn asserted_shapes(alloc: Global, flow: &Flow) -> Result<Vec<Asserted>, NoMemory> {
    let mut list = Vec::new(alloc);
    for point in flow.points.as_slice() {
        if let Instr::AssertShape(pred, _, args, _) = &point.code {
            if !args.is_empty() && !has(list.as_slice(), *pred, args.as_slice()) {
                list.push(Asserted {
                    pred: *pred,
                    args: Vec::from_slice(alloc, args.as_slice())?,
                })?;
            }
        }
    }
    Ok(list)
}
