//! What joins ask of whole states: whether two are the same under a renaming of their nodes, a given one or any, and whether
//! one is tidy.

ghost use Rattle.std.specs.Prelude.{◌≡◌, ◌↔◌, IsTrue};
ghost use Rattle.mc_pure_ops.specs.Renaming.Images.{image};
ghost use Rattle.mc_joins.specs.Alike.Alike.{AreSameBy};

mod atoms;
mod lists;
mod nodes;
mod same;
mod tidy;

use atoms::{all_known_back, all_known_there};
use lists::{are_edge_images, are_option_images};
use mc_pure_ops::renaming::Renaming;
use mc_symbolic::State;
use nodes::is_bijection;
pub use same::are_same;
pub use tidy::is_tidy;

/// Whether two flags are both set, or both not.
fn same_flag(a: bool, b: bool) -> bool
    ensures { IsTrue result ↔ (a ≡ b) }
{
    if a { b } else { !b }
}

/// Whether the renaming is a bijection of the nodes of two states under which both are the same: the nodes of
/// variables, the kinds node by node, the edges with their ids, and the flag are the same, and the same atoms are
/// entailed. A node without an image stays.
pub fn equal_under(state: &State, other: &State, renaming: &Renaming) -> bool
    ensures { IsTrue result ↔ AreSameBy (image renaming.now) state.now other.now }
{
    // for the proof alone
    state.is_bounded();
    other.is_bounded();
    crate::same::derived_is_renamed();
    if !is_bijection(state, other, renaming) {
        return false;
    }
    if !same_flag(state.is_whole(), other.is_whole()) {
        return false;
    }
    if !are_option_images(renaming, state.env(), other.env()) {
        return false;
    }
    if !are_edge_images(renaming, state.edges(), other.edges()) {
        return false;
    }
    if !all_known_there(state, other, renaming) {
        return false;
    }
    all_known_back(state, other, renaming)
}
