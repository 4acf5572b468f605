// Marks of goals in a state: which there are, what each takes, and what it leaves.
ghost use Rattle.std.specs.Prelude.{◌≡◌, ◌≤◌, IfOk, Some, None, if◌then◌else◌, not, ◌&&◌, is_some, length, option_map, reverse, slice_get};
ghost use Rattle.std.specs.Option.{option_copied};
ghost use Rattle.mc_base.specs.declared.ids.EdgeId.{EdgeId as Name};
ghost use Rattle.mc_cover.specs.declared.goals.Mark.TheVariants as mark;
ghost use Rattle.mc_cover.specs.Goals.{is_ind};
ghost use Rattle.mc_state.specs.Graph.Graph.{edge_with};
ghost use Rattle.mc_cover.specs.Marks.{fits, calls_of, takes};
ghost use Rattle.mc_cover.specs.Near.{near_marks};
ghost use Rattle.mc_cover.specs.Search.Pushing.{IsPushed};
ghost use Rattle.mc_cover.specs.Search.Setting.{free_edges, setting};
ghost use Rattle.mc_state.specs.Known.{Test, Tells};
ghost use Rattle.mc_state.specs.Facts.{IsFalse};
ghost use Rattle.mc_shape_search.specs.Tries.Stack.{IsArena};

use crate::search::edges::{free_edge, near_ids};
use crate::search::laws::numbers_are_small;
use crate::search::listing::marks_on;
use crate::search::pushing::{ends_here, is_ind, push_call, push_rule, push_seg};
use crate::{Goal, Mark};
use mc_base::{EdgeId, NoMemory, PredId};
use mc_flow::defs::{Def, Defs, Rule};
use mc_shape_search::tries::Cell;
use mc_symbolic::State;
use std::alloc::Global;

// The definition of a predicate.
fn def_of(defs: &Defs, pred: PredId) -> Option<&Def>
    ensures { option_copied result ≡ slice_get defs.now pred.0 }
{
    defs.as_slice().get(pred.0 as usize)
}

// The rule at a place.
fn rule_of(def: &Def, place: usize) -> Option<&Rule>
    ensures { option_copied result ≡ slice_get def.now.rules place }
{
    def.rules.get(place)
}

// Whether the goal asks for a segment.
fn has_stop(goal: &Goal) -> bool
    ensures { result ≡ is_some goal.now.stop }
{
    goal.stop.is_some()
}

/// The marks of a goal, with edges that start where it stands and are not used.
pub fn marks_of(
    alloc: Global,
    state: &State,
    defs: &Defs,
    used: &[EdgeId],
    goal: &Goal,
) -> Result<Vec<Mark>, NoMemory>
    ensures { IfOk result (λ all. (know : Test) → Tells know state.now → all.items
        ≡ near_marks (setting know defs.now state.now used.now) goal.now) }
{
    let ids = near_ids(alloc, state, used, &goal.at)?;
    marks_on(alloc, &ids, def_of(defs, goal.pred))
}

// The number of an edge that may be there.
fn number_of(id: Option<EdgeId>) -> Option<u64>
    ensures { result ≡ option_map (λ (i : Name). i.0) id }
{
    match id {
        None => None,
        Some(id) => Some(id.0),
    }
}

/// The number of the edge that a mark takes, if it takes one.
pub fn edge_number(mark: Mark) -> Option<u64>
    ensures { result ≡ takes mark }
{
    match mark {
        Mark::AtEnd => None,
        Mark::ByInd(id) => Some(id.0),
        Mark::BySeg(id) => Some(id.0),
        Mark::ByRule { block, .. } => number_of(block),
        Mark::ByCall { block, .. } => number_of(block),
    }
}

// The same goals, where the mark fits.
fn if_fits(fits: bool, rest: usize) -> Option<usize>
    ensures { result ≡ (if fits then Some rest else None) }
{
    if fits { Some(rest) } else { None }
}

// Whether an edge is an Ind that meets a goal that has no stop.
fn ind_fits(
    alloc: Global,
    state: &State,
    used: &[EdgeId],
    goal: &Goal,
    id: EdgeId,
) -> Result<bool, NoMemory>
    ensures { IfOk result (λ is. (know : Test) → Tells know state.now → is
        ≡ (not (is_some goal.now.stop) && is_ind know goal.now (edge_with (free_edges state.now used.now) id))) }
{
    if goal.stop.is_some() {
        return Ok(false);
    }
    is_ind(alloc, state, goal, free_edge(state, used, id))
}

// Pushes what the rule at a place leaves. None where the goal has a stop, or the rule does not fit.
fn push_by_rule(
    alloc: Global,
    state: &State,
    defs: &Defs,
    used: &[EdgeId],
    cells: &mut Vec<Cell<Goal>>,
    goal: &Goal,
    place: usize,
    block: Option<EdgeId>,
    rest: usize,
) -> Result<Option<usize>, NoMemory>
    requires sound { IsFalse state.now → ⊥ }
    requires arena { IsArena (reverse cells.old.items) }
    requires within { rest ≤ length (reverse cells.old.items) }
    ensures { IfOk result (λ top. (know : Test) → Tells know state.now
        → IsPushed (fits (setting know defs.now state.now used.now) goal.now (mark.ByRule place block))
        (calls_of (setting know defs.now state.now used.now) goal.now
        (mark.ByRule place block)) cells.old.items cells.new.items rest top) }
{
    numbers_are_small();
    if has_stop(goal) {
        return Ok(None);
    }
    let _all = defs.as_slice();
    let Some(def) = def_of(defs, goal.pred) else {
        return Ok(None);
    };
    let Some(rule) = rule_of(def, place) else {
        return Ok(None);
    };
    let top = push_rule(alloc, state, used, cells, goal, block, def, rule, rest)?;
    Ok(top)
}

// The same where the call at a place goes on to the goal's stop.
fn push_by_call(
    alloc: Global,
    state: &State,
    defs: &Defs,
    used: &[EdgeId],
    cells: &mut Vec<Cell<Goal>>,
    goal: &Goal,
    place: usize,
    block: Option<EdgeId>,
    call: usize,
    rest: usize,
) -> Result<Option<usize>, NoMemory>
    requires sound { IsFalse state.now → ⊥ }
    requires arena { IsArena (reverse cells.old.items) }
    requires within { rest ≤ length (reverse cells.old.items) }
    ensures { IfOk result (λ top. (know : Test) → Tells know state.now
        → IsPushed (fits (setting know defs.now state.now used.now) goal.now (mark.ByCall place block call))
        (calls_of (setting know defs.now state.now used.now) goal.now
        (mark.ByCall place block call)) cells.old.items cells.new.items rest top) }
{
    numbers_are_small();
    if !has_stop(goal) {
        return Ok(None);
    }
    let _all = defs.as_slice();
    let Some(def) = def_of(defs, goal.pred) else {
        return Ok(None);
    };
    let Some(rule) = rule_of(def, place) else {
        return Ok(None);
    };
    let top = push_call(
        alloc, state, used, cells, goal, block, call, def, rule, rest,
    )?;
    Ok(top)
}

/// Pushes the goals that a mark leaves, and None exactly where it does not fit.
pub fn push_mark(
    alloc: Global,
    state: &State,
    defs: &Defs,
    used: &[EdgeId],
    cells: &mut Vec<Cell<Goal>>,
    goal: &Goal,
    mark: Mark,
    rest: usize,
) -> Result<Option<usize>, NoMemory>
    requires sound { IsFalse state.now → ⊥ }
    requires arena { IsArena (reverse cells.old.items) }
    requires within { rest ≤ length (reverse cells.old.items) }
    ensures { IfOk result (λ top. (know : Test) → Tells know state.now
        → IsPushed (fits (setting know defs.now state.now used.now) goal.now mark)
        (calls_of
        (setting know defs.now state.now used.now) goal.now mark) cells.old.items cells.new.items rest top) }
{
    match mark {
        Mark::AtEnd => {
            let fits = ends_here(state, def_of(defs, goal.pred), goal);
            Ok(if_fits(fits, rest))
        }
        Mark::ByInd(id) => {
            let fits = ind_fits(alloc, state, used, goal, id)?;
            Ok(if_fits(fits, rest))
        }
        Mark::BySeg(id) => {
            let edge = free_edge(state, used, id);
            let top = push_seg(alloc, state, cells, goal, edge, rest)?;
            Ok(top)
        }
        Mark::ByRule { place, block } => {
            let top = push_by_rule(alloc, state, defs, used, cells, goal, place, block, rest)?;
            Ok(top)
        }
        Mark::ByCall { place, block, call } => {
            let top = push_by_call(
                alloc, state, defs, used, cells, goal, place, block, call, rest,
            )?;
            Ok(top)
        }
    }
}
