// Blocks and inductive edges of a head.
use crate::matching::ground::Ground;
use crate::matching::{Fit, Part};
use mc_base::{EdgeId, NoMemory, NodeId, PredId, StructId};
use mc_find_shrink::{cover, taken_by};
use mc_state::Term;
use mc_state::graph::Edge;
use mc_symbolic::State;

/// Gives the fields of a head's block the terms of another's; whether that could be.
fn bind_fields(
    fit: &mut Fit,
    state: &State,
    head: &[Option<NodeId>],
    own: &[Option<NodeId>],
) -> bool {
    for (place, field) in head.iter().enumerate() {
        let Some(node) = field else {
            continue;
        };
        match own.get(place).copied().flatten() {
            Some(content) => {
                let term = Term {
                    node: content,
                    add: 0,
                };
                if !fit.bind(state, *node, term) {
                    return false;
                }
            }
            None => return false,
        }
    }
    true
}

/// Whether an edge of the state is not used.
pub fn is_free(fit: &Fit, edge: EdgeId) -> bool {
    !fit.used.as_slice().contains(&edge)
}

/// The fields of a block of a struct at a term.
fn fields_at<'a>(
    state: &State,
    at: &Term,
    shape: StructId,
    edge: &'a Edge,
) -> Option<&'a [Option<NodeId>]> {
    match edge {
        Edge::Block {
            at: own,
            shape: other,
            fields,
        } => {
            if *other == shape && at.add == 0 && state.are_equal(*own, at.node) {
                Some(fields.as_slice())
            } else {
                None
            }
        }
        Edge::Ind { .. } => None,
        Edge::Seg { .. } => None,
    }
}

/// Adds the ways in which a head's block can be one of the state's.
pub fn push_blocks(
    ground: Ground<'_>,
    list: &mut Vec<Fit>,
    fit: &Fit,
    place: usize,
    at: Term,
    shape: StructId,
    fields: &[Option<NodeId>],
) -> Result<(), NoMemory> {
    for entry in ground.state.edges() {
        let found = fields_at(ground.state, &at, shape, &entry.1);
        let (Some(contents), true) = (found, is_free(fit, entry.0)) else {
            continue;
        };
        let mut next = fit.copy(ground.alloc)?;
        if bind_fields(&mut next, ground.state, fields, contents) {
            next.take(&[entry.0])?;
            next.put(place, Part::Block(entry.0));
            list.push(next)?;
        }
    }
    Ok(())
}

/// Adds the way in which a head's inductive edge comes out with these arguments, if there is one.
fn push_cover(
    ground: Ground<'_>,
    list: &mut Vec<Fit>,
    fit: &Fit,
    place: usize,
    pred: PredId,
    at: Term,
    nodes: &[NodeId],
    args: Vec<Term>,
) -> Result<(), NoMemory> {
    let Ground { alloc, state, .. } = ground;
    let defs = ground.manner.sight.defs;
    let used = fit.used.as_slice();
    let Some(marks) = cover(alloc, state, defs, used, pred, at, args.as_slice())? else {
        return Ok(());
    };
    let mut next = fit.copy(alloc)?;
    if next.bind_all(state, nodes, args.as_slice()) {
        next.take(taken_by(alloc, marks.as_slice())?.as_slice())?;
        let part = Part::Ind {
            pred,
            at,
            args,
            marks,
        };
        next.put(place, part);
        list.push(next)?;
    }
    Ok(())
}

/// Adds the ways in which a head's inductive edge comes out.
pub fn push_covers(
    ground: Ground<'_>,
    list: &mut Vec<Fit>,
    fit: &Fit,
    place: usize,
    pred: PredId,
    at: Term,
    nodes: &[NodeId],
) -> Result<(), NoMemory> {
    if let Some(args) = fit.known(ground.alloc, nodes)? {
        return push_cover(ground, list, fit, place, pred, at, nodes, args);
    }
    for terms in ground.candidates(fit, pred, at, None)? {
        let args = fit.with_known(ground.alloc, nodes, terms.as_slice())?;
        push_cover(ground, list, fit, place, pred, at, nodes, args)?;
    }
    Ok(())
}
