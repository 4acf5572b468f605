// The images of nodes of a target in an arrival.
ghost use Rattle.std.specs.Prelude.{◌≡◌, ◌==◌, ◌∷◌, ◌+◌, List, drop, length, suc};
ghost use Rattle.std.specs.List.{list_all};
ghost use Rattle.mc_base.specs.Atoms.{moved_atom};
ghost use Rattle.mc_check_line.specs.Jump.Fitting.{has_kind_image};
ghost use Rattle.mc_kernel.specs.Judges.{are_images, has_image, image, is_image, is_known_too, knows_image};
ghost use Rattle.mc_kernel.specs.Jumps.{image_of};
ghost use Rattle.mc_state.specs.Known.{Test, Tells};
ghost use Rattle.mc_state.specs.Lists.{all_both};
ghost use Rattle.mc_pure.specs.Pure.{kind_atom};

use mc_base::{Atom, Kind, NodeId};
use mc_symbolic::State;

/// The image of a node; node 0 where it has none.
fn image(images: &[NodeId], node: NodeId) -> NodeId
    ensures { result ≡ image images.now node }
{
    match images.get(node.0 as usize) {
        Some(there) => *there,
        None => NodeId(0),
    }
}

/// The atom that a node lies in the range of a kind.
fn kind_atom(node: NodeId, kind: Kind) -> Atom
    ensures { result ≡ kind_atom node kind }
{
    match kind {
        Kind::Int => Atom::In(node, -2_147_483_648, 2_147_483_647),
        Kind::Ptr => Atom::In(node, 0, 4_611_686_018_427_387_903),
    }
}

/// Whether the image of a node of a kind is of that kind and lies in its range.
fn has_image(s: &State, images: &[NodeId], node: NodeId, kind: Kind) -> bool
    ensures { (know : Test) → Tells know s.now → result ≡ has_image know s.now.kinds images.now (node, kind) }
{
    let there = image(images, node);
    s.has_kind(kind, there) && s.knows(&kind_atom(there, kind))
}

/// Whether a node of the target has a kind, and an image of it.
fn has_kind_image(s: &State, images: &[NodeId], target: &State, node: NodeId) -> bool
    ensures { (know : Test) → Tells know s.now
        → result ≡ has_kind_image know s.now.kinds images.now target.now.kinds node }
{
    let Some(kind) = target.kind(node) else {
        return false;
    };
    has_image(s, images, node, kind)
}

/// Whether nodes of the target have kinds, and images of them.
fn have_kind_images(s: &State, images: &[NodeId], target: &State, nodes: &[NodeId]) -> bool
    ensures { (know : Test) → Tells know s.now
        → result ≡ list_all (has_kind_image know s.now.kinds images.now target.now.kinds) nodes.now }
{
    for node in nodes {
        if !has_kind_image(s, images, target, *node) {
            return false;
        }
    }
    true
}

/// The nodes after the first.
fn behind_first(nodes: &[NodeId]) -> &[NodeId]
    ensures { result.now ≡ drop 1 nodes.now }
{
    match nodes.get(1..) {
        Some(rest) => rest,
        None => &[],
    }
}

/// Whether each node of the target but node 0 has an image of its kind.
fn have_images(s: &State, images: &[NodeId], target: &State) -> bool
    ensures { (know : Test) → Tells know s.now
        → result ≡ list_all (has_image know s.now.kinds images.now) target.now.kinds }
{
    // The kinds ascend: this is for the proof alone.
    target.known().is_kept();
    have_kind_images(s, images, target, behind_first(target.nodes()))
}

/// Whether there is one image for each node of the target.
fn is_one_each(images: &[NodeId], target: &State) -> bool
    ensures { result ≡ (length images.now == suc (length target.now.kinds)) }
{
    images.len() == target.nodes().len()
}

/// Whether each node of the target has an image in the arrival, and node 0 has node 0.
pub fn are_images(s: &State, images: &[NodeId], target: &State) -> bool
    ensures { (know : Test) → Tells know s.now → result ≡ are_images know s.now images.now target.now }
{
    is_one_each(images, target) && image(images, NodeId(0)).0 == 0 && have_images(s, images, target)
}

/// Whether the image of a node there is equal to one here.
pub fn is_image(s: &State, images: &[NodeId], there: NodeId, here: NodeId) -> bool
    ensures { (know : Test) → Tells know s.now → result ≡ is_image know images.now there here }
{
    s.are_equal(image(images, there), here)
}

/// Whether the images of nodes there are equal to nodes here, one by one.
#[tactic(auto, using(mc_state::proofs::ListLemmas::all_both_steps))]
pub fn are_all_images(s: &State, images: &[NodeId], theres: &[NodeId], heres: &[NodeId]) -> bool
    ensures { (know : Test) → Tells know s.now → result ≡ all_both (is_image know images.now) theres.now heres.now }
{
    if theres.len() != heres.len() {
        return false;
    }
    for (i, there) in theres.iter().enumerate() {
        if !is_image(s, images, *there, heres[i]) {
            return false;
        }
    }
    true
}

/// Whether what is known there is known here, at an equal node.
fn is_known_too(s: &State, images: &[NodeId], there: Option<NodeId>, here: Option<NodeId>) -> bool
    ensures { (know : Test) → Tells know s.now → result ≡ is_known_too know images.now there here }
{
    let Some(node) = there else {
        return true;
    };
    match here {
        Some(other) => is_image(s, images, node, other),
        None => false,
    }
}

/// Whether what is known there is known here, at equal nodes, one by one.
#[tactic(auto, using(mc_state::proofs::ListLemmas::all_both_steps))]
pub fn are_known_too(
    s: &State,
    images: &[NodeId],
    theres: &[Option<NodeId>],
    heres: &[Option<NodeId>],
) -> bool
    ensures { (know : Test) → Tells know s.now
        → result ≡ all_both (is_known_too know images.now) theres.now heres.now }
{
    if theres.len() != heres.len() {
        return false;
    }
    for (i, there) in theres.iter().enumerate() {
        if !is_known_too(s, images, *there, heres[i]) {
            return false;
        }
    }
    true
}

/// The atom with the images of its nodes.
fn image_atom(images: &[NodeId], atom: &Atom) -> Atom
    ensures { result ≡ moved_atom (image_of images.now) atom.now }
{
    match *atom {
        Atom::Eq(a, b, c) => Atom::Eq(image(images, a), image(images, b), c),
        Atom::Ne(a, b, c) => Atom::Ne(image(images, a), image(images, b), c),
        Atom::In(a, lo, hi) => Atom::In(image(images, a), lo, hi),
    }
}

/// Whether the atom with the images of its nodes is known.
fn knows_image(s: &State, images: &[NodeId], atom: &Atom) -> bool
    ensures { (know : Test) → Tells know s.now → result ≡ knows_image know images.now atom.now }
{
    s.knows(&image_atom(images, atom))
}

/// Whether the atoms with the images of their nodes are known.
pub fn know_images(s: &State, images: &[NodeId], atoms: &[Atom]) -> bool
    ensures { (know : Test) → Tells know s.now → result ≡ list_all (knows_image know images.now) atoms.now }
{
    for atom in atoms {
        if !knows_image(s, images, atom) {
            return false;
        }
    }
    true
}
