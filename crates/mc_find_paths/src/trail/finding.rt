// Covers of states that may be false.
use mc_base::{EdgeId, NoMemory, PredId};
use mc_cover::Mark;
use mc_flow::defs::Defs;
use mc_state::Term;
use mc_symbolic::State;
use std::alloc::Global;

/// The first cover of a predicate. None where the state is false.
pub fn cover(
    alloc: Global,
    state: &State,
    defs: &Defs,
    used: &[EdgeId],
    pred: PredId,
    at: Term,
    args: &[Term],
) -> Result<Option<Vec<Mark>>, NoMemory> {
    if state.is_false() {
        return Ok(None);
    }
    mc_cover::search::cover(alloc, state, defs, used, pred, at, args)
}
