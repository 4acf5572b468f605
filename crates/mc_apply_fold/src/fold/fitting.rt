// The numbers of names and edges that fit a rule, and the kinds of names.
ghost use Rattle.std.specs.Prelude.{◌≡◌, ◌&&◌, ◌==◌, ◌<◌, IsTrue, length, nat_lt, remove};
ghost use Rattle.mc_rules_logic.specs.Fold.Judges.{block_fits, fits_rule};
ghost use Rattle.mc_state.specs.Known.{has_kind};
ghost use Rattle.mc_state.specs.Lists.{all_both};
ghost use Rattle.mc_state.specs.Fits.{AreNodes};

use crate::fold::laws::kinds_are_there;
use mc_base::{EdgeId, Kind, NodeId, StructId};
use mc_flow::defs::{Def, Rule};
use mc_symbolic::State;

/// Whether a block is named exactly where the rule has one.
fn block_fits(block: Option<EdgeId>, shape: Option<StructId>) -> bool
    ensures { result ≡ block_fits block shape }
{
    match block {
        Some(_) => shape.is_some(),
        None => shape.is_none(),
    }
}

/// Whether there is one node for each kind, of that kind.
#[tactic(auto, using(mc_state::proofs::ListLemmas::all_both_steps))]
fn have_kinds(s: &State, kinds: &[Kind], nodes: &[NodeId]) -> bool
    ensures { result ≡ all_both (has_kind s.now.kinds) kinds.now nodes.now }
{
    if kinds.len() != nodes.len() {
        return false;
    }
    for (i, kind) in kinds.iter().enumerate() {
        if !s.has_kind(*kind, nodes[i]) {
            return false;
        }
    }
    true
}

/// Whether there are more names than parameters, of the kinds of the rule's names, as many edges as are asked for, and
/// a block exactly where the rule has one.
fn fits_counted(
    s: &State,
    def: &Def,
    by: &Rule,
    count: usize,
    names: &[NodeId],
    block: Option<EdgeId>,
    ids: &[EdgeId],
) -> bool
    ensures told { result ≡ (nat_lt (length def.now.params) (length names.now) && all_both (has_kind s.now.kinds)
        by.now.names names.now && count == length ids.now && block_fits block by.now.block) }
    ensures there { IsTrue result → AreNodes s.now.kinds names.now }
    ensures more { IsTrue result → length def.now.params < length names.now }
{
    // Nodes of known kinds are there: this is for the proof alone.
    kinds_are_there();
    def.params.len() < names.len()
        && have_kinds(s, by.names.as_slice(), names)
        && count == ids.len()
        && block_fits(block, by.block)
}

/// Whether the numbers and kinds fit the rule with all its calls.
pub fn fits_rule(
    s: &State,
    def: &Def,
    by: &Rule,
    names: &[NodeId],
    block: Option<EdgeId>,
    ids: &[EdgeId],
) -> bool
    ensures told { result ≡ fits_rule s.now.kinds def.now by.now by.now.calls names.now block ids.now }
    ensures there { IsTrue result → AreNodes s.now.kinds names.now }
    ensures more { IsTrue result → length def.now.params < length names.now }
{
    fits_counted(s, def, by, by.calls.len(), names, block, ids)
}

/// Whether the numbers and kinds fit the rule without its call at a place.
pub fn fits_without(
    s: &State,
    def: &Def,
    by: &Rule,
    place: usize,
    names: &[NodeId],
    block: Option<EdgeId>,
    ids: &[EdgeId],
) -> bool
    requires { place < length by.now.calls }
    ensures told { result ≡ fits_rule s.now.kinds def.now by.now (remove by.now.calls place) names.now block ids.now }
    ensures there { IsTrue result → AreNodes s.now.kinds names.now }
    ensures more { IsTrue result → length def.now.params < length names.now }
{
    fits_counted(s, def, by, by.calls.len() - 1, names, block, ids)
}
