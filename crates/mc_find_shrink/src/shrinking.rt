// Folding, again and again.
use crate::folds::Found;
use crate::parts::first_part;
use crate::whole::{first_meeting, first_whole};
use crate::{Manner, Survey};
use mc_base::{Kind, NoMemory, NodeId, PointId};
use mc_find_paths::trail::{MadeOf, Trail, make, plain};
use mc_find_view::sight::Nodes;
use mc_lines::cert::Line;
use mc_symbolic::State;
use std::alloc::Global;

/// The first fold that there is.
fn next_fold(
    alloc: Global,
    manner: Manner<'_>,
    state: &State,
    point: PointId,
) -> Result<Option<Found>, NoMemory> {
    let survey = Survey::of(alloc, manner, state, point)?;
    let nodes = Nodes {
        sight: &manner.sight,
        state,
        point,
    };
    let whole = first_whole(alloc, manner, &nodes, &survey)?;
    if whole.is_some() {
        return Ok(whole);
    }
    let meeting = first_meeting(alloc, manner, &nodes, &survey)?;
    if meeting.is_some() {
        return Ok(meeting);
    }
    first_part(alloc, manner, &nodes, &survey)
}

/// Writes down what blocks derive, by a spare node that is forgotten.
pub fn note(trail: &mut Trail<'_>) -> Result<(), NoMemory> {
    let Some(state) = trail.state() else {
        return Ok(());
    };
    let spare = state.next_node();
    if trail.apply(Line::L8(NodeId(0), 0, Kind::Ptr))? {
        trail.apply(Line::L11(spare))?;
    }
    Ok(())
}

/// Does a fold; whether it could be done.
fn fold(
    alloc: Global,
    manner: Manner<'_>,
    trail: &mut Trail<'_>,
    found: &Found,
) -> Result<bool, NoMemory> {
    let defs = manner.sight.defs;
    match found {
        Found::Meet(one, other) => trail.apply(Line::L6(*one, *other)),
        Found::Cover {
            pred,
            at,
            args,
            to_stop,
            marks,
        } => {
            let made = make(
                alloc,
                defs,
                trail,
                *pred,
                plain(*at),
                args.as_slice(),
                *to_stop,
                marks.as_slice(),
            )?;
            match made {
                MadeOf::Edge(_) => Ok(true),
                MadeOf::Nothing => Ok(true),
                MadeOf::Failed => Ok(false),
            }
        }
    }
}

/// Does the next fold of a state, which must not be false, at a cut; whether there is one. What blocks derive is written down
/// before the first one.
pub fn shrink(
    alloc: Global,
    manner: Manner<'_>,
    point: PointId,
    trail: &mut Trail<'_>,
    is_first: bool,
) -> Result<bool, NoMemory> {
    let Some(state) = trail.state() else {
        return Ok(false);
    };
    let Some(found) = next_fold(alloc, manner, state, point)? else {
        return Ok(false);
    };
    if is_first {
        note(trail)?;
    }
    fold(alloc, manner, trail, &found)
}
