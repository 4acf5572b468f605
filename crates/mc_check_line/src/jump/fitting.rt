// L13 at one state of a cut.
ghost use Rattle.std.specs.Prelude.{◌≡◌};
ghost use Rattle.mc_check_line.specs.Jump.Fitting.{fitting_to, unmet};
ghost use Rattle.mc_kernel.specs.Judges.{is_whole_too};
ghost use Rattle.mc_state.specs.Known.{Test, Tells};

use crate::jump::edges::are_edges;
use crate::jump::images::{are_images, are_known_too, know_images};
use mc_apply_fold::fold::are_distinct;
use mc_base::{EdgeId, NodeId};
use mc_symbolic::State;

/// Whether the arrival's edges are all that is allocated where the target's are, and each of them is named.
fn is_whole_too(s: &State, target: &State, ids: &[EdgeId]) -> bool
    ensures { result ≡ is_whole_too s.now target.now ids.now }
{
    if target.is_whole() {
        s.is_whole() && s.edges().len() == ids.len()
    } else {
        true
    }
}

/// The number of the first premise of L13, from 4 on, that the arrival does not meet with the target, an image for each
/// of the target's nodes and an edge for each of its edges. None exactly where all are met.
pub fn fits(arrival: &State, target: &State, images: &[NodeId], ids: &[EdgeId]) -> Option<u8>
    ensures { (know : Test) → Tells know arrival.now
        → result ≡ unmet (fitting_to know target.now images.now ids.now arrival.now) }
{
    if !are_images(arrival, images, target) {
        return Some(4);
    }
    if !are_known_too(arrival, images, target.env(), arrival.env()) {
        return Some(5);
    }
    if !are_distinct(ids) {
        return Some(6);
    }
    if target.edges().len() != ids.len() {
        return Some(6);
    }
    if !are_edges(arrival, images, target.edges(), ids) {
        return Some(7);
    }
    if !know_images(arrival, images, target.atoms()) {
        return Some(8);
    }
    if !is_whole_too(arrival, target, ids) {
        return Some(9);
    }
    None
}
