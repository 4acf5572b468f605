// The arguments with which a predicate is tried at a node.
use crate::asked::{args_at, push_asked};
use crate::guessing::{ends_soon, second_guess};
use mc_base::{EdgeId, Items, Kind, NoMemory, NodeId, PredId};
use mc_find_paths::trail::plain;
use mc_find_view::guess::guess;
use mc_find_view::live::Asserted;
use mc_flow::Operand;
use mc_flow::defs::{Def, Defs};
use mc_state::Term;
use mc_symbolic::State;
use std::alloc::Global;

/// The stop at a term with the arguments of the edge there.
fn stop_at(
    alloc: Global,
    state: &State,
    pred: PredId,
    at: Term,
) -> Result<Option<(Term, Items<Term>)>, NoMemory> {
    if at.add != 0 {
        return Ok(None);
    }
    match args_at(state, pred, at.node) {
        Some(args) => {
            let mut terms = Vec::with_capacity(alloc, args.len())?;
            for node in args {
                terms.push(plain(*node))?;
            }
            Ok(Some((at, Items::of(terms))))
        }
        None => Ok(None),
    }
}

/// The arguments with their numbers so much more.
fn with_room(alloc: Global, def: &Def, terms: Vec<Term>, room: i64) -> Result<Vec<Term>, NoMemory> {
    let mut list = Vec::with_capacity(alloc, terms.len())?;
    for (place, term) in terms.as_slice().iter().enumerate() {
        let add = match def.params.as_slice().get(place) {
            Some(Kind::Int) => term.add.saturating_add(room),
            _ => term.add,
        };
        list.push(Term {
            node: term.node,
            add,
        })?;
    }
    Ok(list)
}

/// The terms of operands, where all are known.
fn operand_terms(
    alloc: Global,
    state: &State,
    args: &[Operand],
) -> Result<Option<Vec<Term>>, NoMemory> {
    let mut list = Vec::with_capacity(alloc, args.len())?;
    for arg in args {
        match arg {
            Operand::Var(x) => match state.var(*x) {
                Some(node) => list.push(plain(node))?,
                None => return Ok(None),
            },
            Operand::Const(c) => list.push(Term {
                node: NodeId(0),
                add: *c,
            })?,
        }
    }
    Ok(Some(list))
}

/// Adds arguments that are not in the list.
fn push_new(list: &mut Vec<Vec<Term>>, terms: Vec<Term>) -> Result<(), NoMemory> {
    for each in list.as_slice() {
        if each.as_slice() == terms.as_slice() {
            return Ok(());
        }
    }
    list.push(terms)?;
    Ok(())
}

/// Adds the arguments with which the program asserts a predicate.
fn push_asserted(
    alloc: Global,
    list: &mut Vec<Vec<Term>>,
    state: &State,
    asserted: &[Asserted],
    pred: PredId,
) -> Result<(), NoMemory> {
    for each in asserted {
        if each.pred == pred {
            if let Some(terms) = operand_terms(alloc, state, each.args.as_slice())? {
                push_new(list, terms)?;
            }
        }
    }
    Ok(())
}

/// The arguments with which a predicate is tried at a node, and, for a segment, up to a term: those that edges in front
/// ask for, then guesses, the numbers of a segment so much more, then those that the program asserts.
pub fn candidates(
    alloc: Global,
    state: &State,
    defs: &Defs,
    asserted: &[Asserted],
    used: &[EdgeId],
    pred: PredId,
    def: &Def,
    at: NodeId,
    end: Option<Term>,
    room: i64,
) -> Result<Vec<Vec<Term>>, NoMemory> {
    let mut list = Vec::new(alloc);
    if def.params.is_empty() {
        list.push(Vec::new(alloc))?;
        return Ok(list);
    }
    push_asked(alloc, &mut list, state, pred, def, at)?;
    let soon = ends_soon(alloc, state, pred, def, at)?;
    if let Some(term) = end {
        let stop = stop_at(alloc, state, pred, term)?;
        if soon && stop.is_some() {
            let terms = guess(alloc, state, defs, used, pred, plain(at), &stop)?;
            push_new(&mut list, with_room(alloc, def, terms, room)?)?;
        }
        if let Some((end, ends)) = &stop {
            let own = Some((*end, ends.as_slice()));
            let terms = second_guess(alloc, state, pred, def, at, own)?;
            push_new(&mut list, with_room(alloc, def, terms, room)?)?;
        }
    }
    if soon {
        let terms = guess(alloc, state, defs, used, pred, plain(at), &None)?;
        push_new(&mut list, with_room(alloc, def, terms, room)?)?;
    }
    let terms = second_guess(alloc, state, pred, def, at, None)?;
    push_new(&mut list, with_room(alloc, def, terms, room)?)?;
    push_asserted(alloc, &mut list, state, asserted, pred)?;
    Ok(list)
}
