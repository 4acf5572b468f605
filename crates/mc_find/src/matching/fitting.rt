// The search for a way to fit a head.
use crate::matching::Fit;
use crate::matching::beginning::begin;
use crate::matching::ground::Ground;
use crate::matching::inductive::{push_blocks, push_covers};
use crate::matching::segments::{Wanted, push_segments};
use mc_base::{NoMemory, PointId};
use mc_find_shrink::Manner;
use mc_state::RawState;
use mc_state::graph::Edge;
use mc_symbolic::State;
use std::alloc::Global;

/// The most tries of one state and one head.
const TRIES: usize = 200;

/// A way to fit a head, if one was found, and after how many tries.
#[derive(Drop)]
pub struct Fitted {
    pub fit: Option<Fit>,
    pub tries: u64,
}

/// The first edge of a head that does not come out yet, and whose start is known.
fn next_edge<'a>(fit: &Fit, head: &'a RawState) -> Option<(usize, &'a Edge)> {
    for (place, edge) in head.edges.as_slice().iter().enumerate() {
        let is_open = match fit.parts.as_slice().get(place) {
            Some(part) => part.is_none(),
            None => false,
        };
        if is_open && fit.image(edge.start()).is_some() {
            return Some((place, edge));
        }
    }
    None
}

/// Whether all edges of the head come out, and all its nodes are known.
fn is_done(fit: &Fit) -> bool {
    for part in fit.parts.as_slice() {
        if part.is_none() {
            return false;
        }
    }
    for image in fit.images.as_slice() {
        if image.is_none() {
            return false;
        }
    }
    true
}

/// Whether all edges of the state that are reached are used.
fn uses_all(fit: &Fit, state: &State, reached: &[bool]) -> bool {
    for (place, entry) in state.edges().iter().enumerate() {
        if reached.get(place).copied().unwrap_or(true) && !fit.used.as_slice().contains(&entry.0) {
            return false;
        }
    }
    true
}

/// The ways in which an edge of a head comes out.
fn ways(ground: Ground<'_>, fit: &Fit, place: usize, edge: &Edge) -> Result<Vec<Fit>, NoMemory> {
    let mut list = Vec::new(ground.alloc);
    let Some(at) = fit.image(edge.start()) else {
        return Ok(list);
    };
    match edge {
        Edge::Block { shape, fields, .. } => {
            push_blocks(ground, &mut list, fit, place, at, *shape, fields.as_slice())?;
        }
        Edge::Ind { pred, args, .. } => {
            push_covers(ground, &mut list, fit, place, *pred, at, args.as_slice())?;
        }
        Edge::Seg {
            args,
            pred,
            end,
            end_args,
            ..
        } => {
            let wanted = Wanted {
                place,
                pred: *pred,
                at,
                args: args.as_slice(),
                end: *end,
                ends: end_args.as_slice(),
            };
            push_segments(ground, &mut list, fit, wanted)?;
        }
    }
    Ok(list)
}

/// The first way to fit a head that goes on from a beginning.
fn first_fit(
    ground: Ground<'_>,
    reached: &[bool],
    head: &RawState,
    first: Fit,
) -> Result<Fitted, NoMemory> {
    let mut open = Vec::new(ground.alloc);
    open.push(first)?;
    let mut tries: u64 = 0;
    for _ in 0..TRIES {
        let Some(fit) = open.pop() else {
            return Ok(Fitted { fit: None, tries });
        };
        tries = tries.saturating_add(1);
        match next_edge(&fit, head) {
            Some((place, edge)) => {
                let mut list = ways(ground, &fit, place, edge)?;
                list.reverse();
                open.append(&mut list)?;
            }
            None => {
                if is_done(&fit) && uses_all(&fit, ground.state, reached) {
                    return Ok(Fitted {
                        fit: Some(fit),
                        tries,
                    });
                }
            }
        }
    }
    Ok(Fitted { fit: None, tries })
}

/// The first way to fit a head that is found: the state must not be false, and all edges that are reached are used.
pub fn find_fit(
    alloc: Global,
    manner: Manner<'_>,
    state: &State,
    point: PointId,
    reached: &[bool],
    head: &RawState,
    nulls: bool,
) -> Result<Fitted, NoMemory> {
    let Some(first) = begin(alloc, manner, state, head, nulls)? else {
        return Ok(Fitted {
            fit: None,
            tries: 0,
        });
    };
    let ground = Ground {
        alloc,
        manner,
        state,
        point,
    };
    first_fit(ground, reached, head, first)
}
