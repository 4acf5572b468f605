// Predicates that no edges make.
ghost use Rattle.std.specs.Prelude.{◌≡◌, ◌↔◌, true, map, IfOk};
ghost use Rattle.mc_state.specs.Facts.{IsFalse};
ghost use Rattle.mc_state.specs.Terms.{plain};
ghost use Rattle.mc_gaps.specs.Lacking.Lacking.{HasNoCover};

use crate::lacking::laws::is_told;
use mc_base::{NoMemory, NodeId, PredId};
use mc_cover::none_is_missed;
use mc_cover::search::{cover, plain, plain_terms};
use mc_flow::defs::Defs;
use mc_state::Term;
use mc_symbolic::State;
use std::alloc::Global;

/// Whether no edges of a state make the predicate at a node with arguments.
pub fn has_no_cover(
    alloc: Global,
    s: &State,
    defs: &Defs,
    pred: PredId,
    at: NodeId,
    args: &[NodeId],
) -> Result<bool, NoMemory>
    requires sound { IsFalse s.now → ⊥ }
    ensures { IfOk result (λ none. (none ≡ true) ↔ HasNoCover defs.now s.now pred at args.now) }
{
    // For the proof alone: where there is a cover, there is a first one.
    none_is_missed();
    is_told(s);
    s.is_bounded();
    let _defs = defs.as_slice();
    let terms = plain_terms(alloc, args)?;
    let found = cover(alloc, s, defs, &[], pred, plain(at), terms.as_slice())?;
    Ok(found.is_none())
}
