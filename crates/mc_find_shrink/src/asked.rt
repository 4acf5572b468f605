// The arguments that edges in front of a node ask for.
use crate::naming::{call_terms, known_terms, name_at, partial_names};
use mc_base::{NoMemory, NodeId, PredId};
use mc_find_paths::trail::plain;
use mc_flow::defs::{Def, Rule};
use mc_state::Term;
use mc_state::graph::Edge;
use mc_symbolic::State;
use std::alloc::Global;

/// How many blocks in front of one another are looked at.
const UPWARD: usize = 4;

/// The arguments of an edge of a predicate at a node.
pub fn args_of<'a>(
    state: &State,
    pred: PredId,
    at: NodeId,
    edge: &'a Edge,
) -> Option<&'a [NodeId]> {
    let (own, of, args) = match edge {
        Edge::Block { .. } => return None,
        Edge::Ind { at, pred, args } => (at, pred, args),
        Edge::Seg { at, pred, args, .. } => (at, pred, args),
    };
    if *of == pred && state.are_equal(*own, at) {
        Some(args.as_slice())
    } else {
        None
    }
}

/// The arguments of the first edge of a predicate at a node.
pub fn args_at<'a>(state: &'a State, pred: PredId, at: NodeId) -> Option<&'a [NodeId]> {
    for entry in state.edges() {
        let args = args_of(state, pred, at, &entry.1);
        if args.is_some() {
            return args;
        }
    }
    None
}

/// The end arguments of the first segment of a predicate that ends at a node.
fn ends_of<'a>(state: &'a State, pred: PredId, at: NodeId) -> Option<&'a [NodeId]> {
    for entry in state.edges() {
        if let Edge::Seg {
            pred: own,
            end,
            end_args,
            ..
        } = &entry.1
        {
            if *own == pred && state.are_equal(*end, at) {
                return Some(end_args.as_slice());
            }
        }
    }
    None
}

/// A block in front of a node, by its place, with a rule of a predicate and the call that stands there.
#[derive(Clone, Copy)]
struct Front {
    place: usize,
    rule: usize,
    call: usize,
}

/// The call of a rule at a block that is of the predicate and stands at a node.
fn call_at(
    alloc: Global,
    state: &State,
    pred: PredId,
    def: &Def,
    rule: &Rule,
    edge: &Edge,
    at: NodeId,
) -> Result<Option<usize>, NoMemory> {
    for (place, call) in rule.calls.as_slice().iter().enumerate() {
        if call.pred == pred {
            if let Some(term) = name_at(alloc, def, rule, edge, call.at)? {
                if term.add == 0 && state.are_equal(term.node, at) {
                    return Ok(Some(place));
                }
            }
        }
    }
    Ok(None)
}

/// The rule and call by which a block is in front of a node.
fn front_by(
    alloc: Global,
    state: &State,
    pred: PredId,
    def: &Def,
    place: usize,
    edge: &Edge,
    at: NodeId,
) -> Result<Option<Front>, NoMemory> {
    let Edge::Block { shape, .. } = edge else {
        return Ok(None);
    };
    for (number, rule) in def.rules.as_slice().iter().enumerate() {
        if rule.block == Some(*shape) {
            if let Some(call) = call_at(alloc, state, pred, def, rule, edge, at)? {
                return Ok(Some(Front {
                    place,
                    rule: number,
                    call,
                }));
            }
        }
    }
    Ok(None)
}

/// The first block in front of a node, from a place on.
fn next_front(
    alloc: Global,
    state: &State,
    pred: PredId,
    def: &Def,
    at: NodeId,
    from: usize,
) -> Result<Option<Front>, NoMemory> {
    for (place, entry) in state.edges().iter().enumerate() {
        if place >= from {
            if let Some(front) = front_by(alloc, state, pred, def, place, &entry.1, at)? {
                return Ok(Some(front));
            }
        }
    }
    Ok(None)
}

/// The start of the edge at a place.
fn start_at(state: &State, place: usize) -> Option<NodeId> {
    state.edges().get(place).map(|entry| entry.1.start())
}

/// The blocks in front of a front, the nearest first.
fn chain(
    alloc: Global,
    state: &State,
    pred: PredId,
    def: &Def,
    front: Front,
) -> Result<Vec<Front>, NoMemory> {
    let mut list = vec![in alloc; front]?;
    let mut top = front;
    for _ in 1..UPWARD {
        let Some(at) = start_at(state, top.place) else {
            return Ok(list);
        };
        if ends_of(state, pred, at).is_some() {
            return Ok(list);
        }
        match next_front(alloc, state, pred, def, at, 0)? {
            Some(next) => {
                list.push(next)?;
                top = next;
            }
            None => return Ok(list),
        }
    }
    Ok(list)
}

/// What a front's call asks for, where its block is asked for these arguments.
fn through(
    alloc: Global,
    state: &State,
    def: &Def,
    front: Front,
    args: &[Option<Term>],
) -> Result<Option<Vec<Option<Term>>>, NoMemory> {
    let Some(rule) = def.rules.as_slice().get(front.rule) else {
        return Ok(None);
    };
    let Some(entry) = state.edges().get(front.place) else {
        return Ok(None);
    };
    let names = partial_names(alloc, rule, &entry.1, args)?;
    match rule.calls.as_slice().get(front.call) {
        Some(call) => Ok(Some(call_terms(alloc, names.as_slice(), call.args.as_slice())?)),
        None => Ok(None),
    }
}

/// What is asked for at the start of the last front of a chain.
fn at_top(
    alloc: Global,
    state: &State,
    pred: PredId,
    def: &Def,
    fronts: &[Front],
) -> Result<Vec<Option<Term>>, NoMemory> {
    let mut args = vec![in alloc; None; def.params.len()]?;
    let Some(top) = fronts.last() else {
        return Ok(args);
    };
    let Some(at) = start_at(state, top.place) else {
        return Ok(args);
    };
    if let Some(ends) = ends_of(state, pred, at) {
        args.clear();
        for node in ends {
            args.push(Some(plain(*node)))?;
        }
    }
    Ok(args)
}

/// The arguments that a block in front of a node asks for, where they are known.
fn asked_by(
    alloc: Global,
    state: &State,
    pred: PredId,
    def: &Def,
    front: Front,
) -> Result<Option<Vec<Term>>, NoMemory> {
    let fronts = chain(alloc, state, pred, def, front)?;
    let mut args = at_top(alloc, state, pred, def, fronts.as_slice())?;
    for behind in 0..fronts.len() {
        let left = fronts.len() - 1 - behind;
        if let Some(next) = fronts.as_slice().get(left) {
            match through(alloc, state, def, *next, args.as_slice())? {
                Some(found) => args = found,
                None => return Ok(None),
            }
        }
    }
    known_terms(alloc, args.as_slice())
}

/// Adds the arguments that edges in front of a node ask for of a predicate there.
pub fn push_asked(
    alloc: Global,
    list: &mut Vec<Vec<Term>>,
    state: &State,
    pred: PredId,
    def: &Def,
    at: NodeId,
) -> Result<(), NoMemory> {
    if let Some(ends) = ends_of(state, pred, at) {
        let mut terms = Vec::with_capacity(alloc, ends.len())?;
        for node in ends {
            terms.push(plain(*node))?;
        }
        list.push(terms)?;
    }
    let mut from = 0;
    for _ in state.edges() {
        let Some(front) = next_front(alloc, state, pred, def, at, from)? else {
            return Ok(());
        };
        from = front.place.saturating_add(1);
        if let Some(terms) = asked_by(alloc, state, pred, def, front)? {
            list.push(terms)?;
        }
    }
    Ok(())
}
