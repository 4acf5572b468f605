// Segments of a head.
use crate::matching::ground::Ground;
use crate::matching::inductive::is_free;
use crate::matching::partial::are_equal;
use crate::matching::{Fit, Part};
use mc_base::{Kind, NoMemory, NodeId, PredId, VarId};
use mc_cover::Mark;
use mc_cover::search::seg_cover;
use mc_find_shrink::{args_of, plain, taken_by};
use mc_state::Term;
use mc_symbolic::State;

/// A segment of a head.
#[derive(Clone, Copy)]
pub struct Wanted<'a> {
    pub place: usize,
    pub pred: PredId,
    pub at: Term,
    pub args: &'a [NodeId],
    pub end: NodeId,
    pub ends: &'a [NodeId],
}

/// Adds a term that is not equal to one of the list.
fn push_end(list: &mut Vec<Term>, state: &State, term: Term) -> Result<(), NoMemory> {
    for own in list.as_slice() {
        if are_equal(state, own, &term) {
            return Ok(());
        }
    }
    list.push(term)?;
    Ok(())
}

/// Where a segment may end: where the head says, or at its start, a variable, or the start of an edge that is not used.
fn possible_ends(ground: Ground<'_>, fit: &Fit, wanted: Wanted<'_>) -> Result<Vec<Term>, NoMemory> {
    let state = ground.state;
    let mut list = Vec::new(ground.alloc);
    if let Some(end) = fit.image(wanted.end) {
        list.push(end)?;
        return Ok(list);
    }
    for entry in state.edges() {
        if is_free(fit, entry.0) {
            push_end(&mut list, state, plain(entry.1.start()))?;
        }
    }
    let sight = ground.manner.sight;
    for place in 0..state.env().len() {
        let x = VarId(place as u64);
        if let Some(node) = sight.live_node(state, ground.point, x) {
            if sight.var_kind(x) == Kind::Ptr {
                push_end(&mut list, state, plain(node))?;
            }
        }
    }
    push_end(&mut list, state, wanted.at)?;
    Ok(list)
}

/// The arguments of the edge of a predicate at a term that is not used.
fn args_at(
    ground: Ground<'_>,
    fit: &Fit,
    pred: PredId,
    at: &Term,
) -> Result<Option<Vec<Term>>, NoMemory> {
    if at.add != 0 {
        return Ok(None);
    }
    for entry in ground.state.edges() {
        if !is_free(fit, entry.0) {
            continue;
        }
        if let Some(args) = args_of(ground.state, pred, at.node, &entry.1) {
            let mut list = Vec::with_capacity(ground.alloc, args.len())?;
            for node in args {
                list.push(plain(*node))?;
            }
            return Ok(Some(list));
        }
    }
    Ok(None)
}

/// The end arguments of a segment, where they are known or an edge after tells them.
fn end_args(
    ground: Ground<'_>,
    fit: &Fit,
    wanted: Wanted<'_>,
    end: &Term,
) -> Result<Option<Vec<Term>>, NoMemory> {
    let known = fit.known(ground.alloc, wanted.ends)?;
    if known.is_some() {
        return Ok(known);
    }
    match args_at(ground, fit, wanted.pred, end)? {
        Some(terms) => {
            let list = fit.with_known(ground.alloc, wanted.ends, terms.as_slice())?;
            Ok(Some(list))
        }
        None => Ok(None),
    }
}

/// The marks of a segment with these arguments.
fn marks_of(
    ground: Ground<'_>,
    fit: &Fit,
    wanted: Wanted<'_>,
    args: &[Term],
    end: Term,
    ends: &[Term],
) -> Result<Option<Vec<Mark>>, NoMemory> {
    if ground.state.is_false() {
        return Ok(None);
    }
    seg_cover(
        ground.alloc,
        ground.state,
        ground.manner.sight.defs,
        fit.used.as_slice(),
        wanted.pred,
        wanted.at,
        args,
        end,
        ends,
    )
}

/// Adds the way in which a segment comes out with these arguments, if there is one.
fn push_with(
    ground: Ground<'_>,
    list: &mut Vec<Fit>,
    fit: &Fit,
    wanted: Wanted<'_>,
    args: Vec<Term>,
    end: Term,
    ends: &[Term],
) -> Result<(), NoMemory> {
    let Ground { alloc, state, .. } = ground;
    let Some(marks) = marks_of(ground, fit, wanted, args.as_slice(), end, ends)? else {
        return Ok(());
    };
    let mut next = fit.copy(alloc)?;
    if next.bind_all(state, wanted.args, args.as_slice())
        && next.bind(state, wanted.end, end)
        && next.bind_all(state, wanted.ends, ends)
    {
        next.take(taken_by(alloc, marks.as_slice())?.as_slice())?;
        let part = Part::Seg {
            pred: wanted.pred,
            at: wanted.at,
            args,
            end,
            ends: Vec::from_slice(alloc, ends)?,
            marks,
        };
        next.put(wanted.place, part);
        list.push(next)?;
    }
    Ok(())
}

/// Adds the ways in which a segment comes out with this end.
fn push_to(
    ground: Ground<'_>,
    list: &mut Vec<Fit>,
    fit: &Fit,
    wanted: Wanted<'_>,
    end: Term,
) -> Result<(), NoMemory> {
    let Some(ends) = end_args(ground, fit, wanted, &end)? else {
        return Ok(());
    };
    if let Some(args) = fit.known(ground.alloc, wanted.args)? {
        return push_with(ground, list, fit, wanted, args, end, ends.as_slice());
    }
    for terms in ground.candidates(fit, wanted.pred, wanted.at, Some(end))? {
        let args = fit.with_known(ground.alloc, wanted.args, terms.as_slice())?;
        push_with(ground, list, fit, wanted, args, end, ends.as_slice())?;
    }
    Ok(())
}

/// Adds the ways in which a segment of a head comes out, perhaps of nothing.
pub fn push_segments(
    ground: Ground<'_>,
    list: &mut Vec<Fit>,
    fit: &Fit,
    wanted: Wanted<'_>,
) -> Result<(), NoMemory> {
    let ends = possible_ends(ground, fit, wanted)?;
    for end in ends.as_slice() {
        push_to(ground, list, fit, wanted, *end)?;
    }
    Ok(())
}
