// Folds into inductive edges, and of segments that meet.
use crate::folds::Found;
use crate::hiding::{Fold, hides};
use crate::hopeless::{Ground, takes_block};
use crate::taken::taken_by;
use crate::trying::candidates;
use crate::{Manner, Step, Survey};
use mc_apply_unfold::is_back;
use mc_base::{EdgeId, NoMemory, NodeId, PredId};
use mc_cover::Mark;
use mc_find_paths::trail::{cover, plain};
use mc_find_view::sight::Nodes;
use mc_flow::defs::Def;
use mc_state::Term;
use mc_state::graph::Edge;
use std::alloc::Global;

/// Whether a predicate may begin with an edge.
pub fn may_begin(pred: PredId, def: &Def, edge: &Edge) -> bool {
    match edge {
        Edge::Block { .. } => {
            for rule in def.rules.as_slice() {
                if takes_block(rule, edge) {
                    return true;
                }
            }
            false
        }
        Edge::Ind { .. } => false,
        Edge::Seg { pred: own, .. } => *own == pred,
    }
}

/// Whether marks make an edge that is not there as it is.
fn is_progress(marks: &[Mark]) -> bool {
    match marks.first() {
        Some(Mark::ByRule { .. }) => true,
        Some(Mark::BySeg(_)) => true,
        _ => false,
    }
}

/// The cover of a predicate with arguments, where it hides nothing.
fn cover_with(
    alloc: Global,
    manner: Manner<'_>,
    nodes: &Nodes<'_>,
    survey: &Survey,
    used: &[EdgeId],
    pred: PredId,
    at: NodeId,
    args: &[Term],
) -> Result<Option<Vec<Mark>>, NoMemory> {
    let defs = manner.sight.defs;
    let Some(marks) = cover(alloc, nodes.state, defs, used, pred, plain(at), args)? else {
        return Ok(None);
    };
    if !is_progress(marks.as_slice()) {
        return Ok(None);
    }
    let taken = taken_by(alloc, marks.as_slice())?;
    let fold = Fold {
        taken: taken.as_slice(),
        start: at,
        named: args,
        back: &[],
    };
    if hides(nodes, survey, &fold) {
        Ok(None)
    } else {
        Ok(Some(marks))
    }
}

/// The first fold of a predicate with one of these lists of arguments.
fn fold_with(
    alloc: Global,
    manner: Manner<'_>,
    nodes: &Nodes<'_>,
    survey: &Survey,
    used: &[EdgeId],
    pred: PredId,
    at: NodeId,
    lists: Vec<Vec<Term>>,
) -> Result<Option<Found>, NoMemory> {
    for args in lists {
        let named = args.as_slice();
        if let Some(marks) = cover_with(alloc, manner, nodes, survey, used, pred, at, named)? {
            return Ok(Some(Found::Cover {
                pred,
                at,
                args,
                to_stop: false,
                marks,
            }));
        }
    }
    Ok(None)
}

/// The first fold of a predicate at an edge; guesses leave out the edges that are used, and a cover takes none that is barred.
fn fold_of(
    alloc: Global,
    manner: Manner<'_>,
    nodes: &Nodes<'_>,
    survey: &Survey,
    used: &[EdgeId],
    barred: &[EdgeId],
    pred: PredId,
    at: NodeId,
    def: &Def,
) -> Result<Option<Found>, NoMemory> {
    let lists = candidates(
        alloc,
        nodes.state,
        manner.sight.defs,
        manner.asserted,
        used,
        pred,
        def,
        at,
        None,
        0,
    )?;
    fold_with(alloc, manner, nodes, survey, barred, pred, at, lists)
}

/// The first fold into an inductive edge at an edge.
fn fold_at(
    alloc: Global,
    manner: Manner<'_>,
    nodes: &Nodes<'_>,
    survey: &Survey,
    id: EdgeId,
    edge: &Edge,
) -> Result<Option<Found>, NoMemory> {
    let all: &[EdgeId] = &[];
    let used = match manner.step {
        Step::Whole => all,
        Step::Plain => survey.kept_ids.as_slice(),
        Step::Coarse => survey.kept_ids.as_slice(),
        Step::Match => survey.kept_ids.as_slice(),
    };
    let at = edge.start();
    let with_kept = manner.step != Step::Whole;
    let barred = survey.barred(alloc, nodes.state, at, with_kept)?;
    let taken = barred.as_slice();
    let ground = Ground {
        manner,
        state: nodes.state,
        barred: taken,
    };
    for pred in manner.wanted {
        if let Some(def) = manner.sight.defs.as_slice().get(pred.0 as usize) {
            if may_begin(*pred, def, edge) && ground.may_cover(id, edge, *pred, def) {
                let found = fold_of(alloc, manner, nodes, survey, used, taken, *pred, at, def)?;
                if found.is_some() {
                    return Ok(found);
                }
            }
        }
    }
    Ok(None)
}

/// The first fold into an inductive edge.
pub fn first_whole(
    alloc: Global,
    manner: Manner<'_>,
    nodes: &Nodes<'_>,
    survey: &Survey,
) -> Result<Option<Found>, NoMemory> {
    for (place, entry) in nodes.state.edges().iter().enumerate() {
        let stays = survey.is_kept(place) && manner.step != Step::Whole;
        if survey.is_used(place) && !stays {
            let found = fold_at(alloc, manner, nodes, survey, entry.0, &entry.1)?;
            if found.is_some() {
                return Ok(found);
            }
        }
    }
    Ok(None)
}

/// Adds the end arguments of a segment that stand at back positions.
pub fn push_back_terms(
    list: &mut Vec<Term>,
    manner: Manner<'_>,
    pred: PredId,
    ends: &[Term],
) -> Result<(), NoMemory> {
    for (place, term) in ends.iter().enumerate() {
        if is_back(manner.sight.defs.as_slice(), pred, place) {
            list.push(*term)?;
        }
    }
    Ok(())
}

/// A segment, part by part.
#[derive(Clone, Copy)]
struct Parts<'a> {
    at: NodeId,
    args: &'a [NodeId],
    pred: PredId,
    end: NodeId,
    ends: &'a [NodeId],
}

/// The parts of an edge that is a segment.
fn parts_of(edge: &Edge) -> Option<Parts<'_>> {
    match edge {
        Edge::Block { .. } => None,
        Edge::Ind { .. } => None,
        Edge::Seg {
            at,
            args,
            pred,
            end,
            end_args,
        } => Some(Parts {
            at: *at,
            args: args.as_slice(),
            pred: *pred,
            end: *end,
            ends: end_args.as_slice(),
        }),
    }
}

/// Whether a segment ends where another of its predicate starts.
fn do_meet(nodes: &Nodes<'_>, one: Parts<'_>, other: Parts<'_>) -> bool {
    one.pred == other.pred
        && nodes.state.are_equal(one.end, other.at)
        && nodes.state.are_all_equal(one.ends, other.args)
}

/// Adds nodes as terms.
fn push_terms(list: &mut Vec<Term>, nodes: &[NodeId]) -> Result<(), NoMemory> {
    for node in nodes {
        list.push(plain(*node))?;
    }
    Ok(())
}

/// Whether a segment can be joined with one at its end without hiding anything.
fn may_join(
    alloc: Global,
    manner: Manner<'_>,
    nodes: &Nodes<'_>,
    survey: &Survey,
    taken: &[EdgeId],
    one: Parts<'_>,
    other: Parts<'_>,
) -> Result<bool, NoMemory> {
    let mut named = vec![in alloc; plain(other.end)]?;
    push_terms(&mut named, one.args)?;
    push_terms(&mut named, other.ends)?;
    let mut ends = Vec::new(alloc);
    push_terms(&mut ends, other.ends)?;
    let mut back = Vec::new(alloc);
    push_back_terms(&mut back, manner, one.pred, ends.as_slice())?;
    let fold = Fold {
        taken,
        start: one.at,
        named: named.as_slice(),
        back: back.as_slice(),
    };
    Ok(!hides(nodes, survey, &fold))
}

/// The first segment that another one can be joined with.
fn next_behind(
    alloc: Global,
    manner: Manner<'_>,
    nodes: &Nodes<'_>,
    survey: &Survey,
    id: EdgeId,
    one: Parts<'_>,
) -> Result<Option<EdgeId>, NoMemory> {
    for entry in nodes.state.edges() {
        let Some(other) = parts_of(&entry.1) else {
            continue;
        };
        if entry.0 != id && do_meet(nodes, one, other) {
            let taken = [id, entry.0];
            if may_join(alloc, manner, nodes, survey, &taken, one, other)? {
                return Ok(Some(entry.0));
            }
        }
    }
    Ok(None)
}

/// The first two segments that meet.
pub fn first_meeting(
    alloc: Global,
    manner: Manner<'_>,
    nodes: &Nodes<'_>,
    survey: &Survey,
) -> Result<Option<Found>, NoMemory> {
    for (place, entry) in nodes.state.edges().iter().enumerate() {
        let Some(one) = parts_of(&entry.1) else {
            continue;
        };
        if survey.is_used(place) {
            if let Some(other) = next_behind(alloc, manner, nodes, survey, entry.0, one)? {
                return Ok(Some(Found::Meet(entry.0, other)));
            }
        }
    }
    Ok(None)
}
