// The first cover and the first segment cover.
ghost use Rattle.std.specs.Prelude.{◌≡◌, ◌∷◌, IfOk, Some, None, option_map};
ghost use Rattle.mc_cover.specs.First.{first_marks, first_cover, first_seg_cover, choice_of};
ghost use Rattle.mc_cover.specs.Search.Setting.{free_edges, setting};
ghost use Rattle.mc_state.specs.Known.{Test, Tells};
ghost use Rattle.mc_state.specs.Facts.{IsFalse};

use crate::search::laws::is_told;
use crate::search::search::Search;
use crate::{Goal, Mark, near_is_first};
use mc_base::{EdgeId, Items, NoMemory, PredId};
use mc_flow::defs::Defs;
use mc_shape_search::tries::find_first;
use mc_state::Term;
use mc_symbolic::State;
use std::alloc::Global;

// The search over a state.
fn search_in<'a>(state: &'a State, defs: &'a Defs, used: &'a [EdgeId]) -> Search<'a>
    requires sound { IsFalse state.now → ⊥ }
    ensures state { result.state.now ≡ state.now }
    ensures defs { result.defs.now ≡ defs.now }
    ensures used { result.used.now ≡ used.now }
{
    is_told(state);
    Search { state, defs, used }
}

// The marks of the first way to meet a goal with edges that are not used.
fn find(
    alloc: Global,
    state: &State,
    defs: &Defs,
    used: &[EdgeId],
    goal: Goal,
) -> Result<Option<Vec<Mark>>, NoMemory>
    requires sound { IsFalse state.now → ⊥ }
    ensures { IfOk result (λ found. (know : Test) → Tells know state.now → option_map (λ log. log.items) found
        ≡ first_marks (setting know defs.now state.now used.now) goal) }
{
    near_is_first();
    is_told(state);
    state.is_bounded();
    let _defs = defs.as_slice();
    let search = search_in(state, defs, used);
    let found = find_first(alloc, &search, goal)?;
    Ok(found)
}

// Terms again, as a list.
fn items_of(alloc: Global, terms: &[Term]) -> Result<Items<Term>, NoMemory>
    ensures { IfOk result (λ made. made ≡ terms.now) }
{
    Ok(Items::of(Vec::from_slice(alloc, terms)?))
}

/// The first cover of a predicate at a term with arguments, from the edges of a state that are not used: the marks of the
/// goals that are met, each before those of the goals that it leaves. None exactly where there is no cover. The state must
/// not be false.
pub fn cover(
    alloc: Global,
    state: &State,
    defs: &Defs,
    used: &[EdgeId],
    pred: PredId,
    at: Term,
    args: &[Term],
) -> Result<Option<Vec<Mark>>, NoMemory>
    requires sound { IsFalse state.now → ⊥ }
    ensures marks { IfOk result (λ found. (know : Test) → Tells know state.now → option_map (λ log. log.items) found
        ≡ first_marks (setting know defs.now state.now used.now)
        (record { pred = pred; at = at; args = args.now; stop = None })) }
    ensures first { IfOk result (λ found. (know : Test) → Tells know state.now
        → option_map (choice_of (free_edges state.now used.now)) (option_map (λ log. log.items) found)
        ≡ first_cover know defs.now pred at args.now (free_edges state.now used.now)) }
{
    let goal = Goal {
        pred,
        at,
        args: items_of(alloc, args)?,
        stop: None,
    };
    find(alloc, state, defs, used, goal)
}

/// The first segment cover of a predicate, from a term with arguments to another with others, in the same way.
pub fn seg_cover(
    alloc: Global,
    state: &State,
    defs: &Defs,
    used: &[EdgeId],
    pred: PredId,
    at: Term,
    args: &[Term],
    end: Term,
    ends: &[Term],
) -> Result<Option<Vec<Mark>>, NoMemory>
    requires sound { IsFalse state.now → ⊥ }
    ensures marks { IfOk result (λ found. (know : Test) → Tells know state.now → option_map (λ log. log.items) found
        ≡ first_marks (setting know defs.now state.now used.now)
        (record { pred = pred; at = at; args = args.now; stop = Some (end, ends.now) })) }
    ensures first { IfOk result (λ found. (know : Test) → Tells know state.now
        → option_map (choice_of (free_edges state.now used.now)) (option_map (λ log. log.items) found)
        ≡ first_seg_cover know defs.now pred at args.now end ends.now (free_edges state.now used.now)) }
{
    let goal = Goal {
        pred,
        at,
        args: items_of(alloc, args)?,
        stop: Some((end, items_of(alloc, ends)?)),
    };
    find(alloc, state, defs, used, goal)
}
