//! What is known of nodes, with other nodes in their places.

ghost use Rattle.std.specs.Prelude.{◌≡◌, ◌≢◌, true, false, map, IfOk};
ghost use Rattle.mc_base.specs.Nodes.{null, moved};
ghost use Rattle.mc_base.specs.Atoms.{moved_atom};
ghost use Rattle.mc_pure.specs.Pure.{IsNode, AreOfOneKind};
ghost use Rattle.mc_pure.specs.Known.{IsFit};
ghost use Rattle.mc_pure_ops.specs.Renaming.Images.{image};
ghost use Rattle.mc_pure_ops.specs.Renamed.Renamed.{IsOneKind, CanRename, HasNoOther, AreImageKinds, IsRenamed, merged, with_atoms, with_starts, IsPut, HasImages, HasFirst};
ghost use Rattle.mc_pure_ops.specs.Renamed.Laws.{ImagesAreOneList, RenamedFits};

use crate::renaming::Renaming;
use mc_base::{Atom, Kind, NULL, NoMemory, NodeId};
use mc_pure::Pure;
use std::alloc::Global;

/// The images with their kinds are one list, and what is known of them may be known of nodes.
pub fn renamed_is_known()
    ensures one { ImagesAreOneList }
    ensures fits { RenamedFits }
{}

/// The atom with the images of its nodes.
fn atom_of(renaming: &Renaming, atom: &Atom) -> Atom
    ensures { result ≡ moved_atom (image renaming.now) atom.now }
{
    match atom {
        Atom::Eq(a, b, c) => Atom::Eq(renaming.image(*a), renaming.image(*b), *c),
        Atom::Ne(a, b, c) => Atom::Ne(renaming.image(*a), renaming.image(*b), *c),
        Atom::In(a, lo, hi) => Atom::In(renaming.image(*a), *lo, *hi),
    }
}

/// Puts in a node, where it is not there yet.
fn put_node(renamed: &mut Pure, node: NodeId, kind: Kind) -> Result<(), NoMemory>
    ensures { IfOk result (λ _. IsPut renamed.old node kind renamed.new) }
{
    if renamed.has(node) {
        return Ok(());
    }
    renamed.node(node, kind)
}

/// The images of the nodes, each with their kind.
fn images(alloc: Global, pure: &Pure, renaming: &Renaming) -> Result<Pure, NoMemory>
    requires { IsOneKind (image renaming.now) pure.now.kinds }
    ensures { IfOk result (λ renamed. HasImages (image renaming.now) pure.now.kinds renamed) }
{
    let mut renamed = Pure::new(alloc)?;
    for node in pure.nodes() {
        let Some(kind) = pure.kind(*node) else {
            continue;
        };
        put_node(&mut renamed, renaming.image(*node), kind)?;
    }
    Ok(renamed)
}

/// Writes the atoms down, of the images of their nodes.
fn put_written(renamed: &mut Pure, pure: &Pure, renaming: &Renaming) -> Result<(), NoMemory>
    requires null { image renaming.now 0 ≡ 0 }
    requires images { AreImageKinds (image renaming.now) pure.now.kinds renamed.old.kinds }
    requires fit { IsFit pure.now }
    ensures { IfOk result (λ _. renamed.new ≡ with_atoms renamed.old (map (moved_atom (image renaming.now)) pure.now.written)) }
{
    for atom in pure.written() {
        renamed.assume(&atom_of(renaming, atom))?;
    }
    Ok(())
}

/// Lets blocks start at the images of the nodes at which they start.
fn put_starts(renamed: &mut Pure, pure: &Pure, renaming: &Renaming) -> Result<(), NoMemory>
    requires null { image renaming.now 0 ≡ 0 }
    requires images { AreImageKinds (image renaming.now) pure.now.kinds renamed.old.kinds }
    requires fit { IsFit pure.now }
    ensures { IfOk result (λ _. renamed.new ≡ with_starts renamed.old (map (moved (image renaming.now)) pure.now.starts)) }
{
    for at in pure.starts() {
        renamed.block(renaming.image(*at))?;
    }
    Ok(())
}

/// Whether the node is not there with another kind.
fn has_no_other(images: &Pure, node: NodeId, kind: Kind) -> bool
    ensures yes { result ≡ true → HasNoOther images.now.kinds node kind }
    ensures no { result ≡ false → HasNoOther images.now.kinds node kind → ⊥ }
{
    match images.kind(node) {
        Some(other) => other == kind,
        None => true,
    }
}

/// Whether nodes with one image other than node 0 are of one kind.
fn have_one_kind(alloc: Global, pure: &Pure, renaming: &Renaming) -> Result<bool, NoMemory>
    ensures yes { IfOk result (λ one. one ≡ true → IsOneKind (image renaming.now) pure.now.kinds) }
    ensures no { IfOk result (λ one. one ≡ false → IsOneKind (image renaming.now) pure.now.kinds → ⊥) }
{
    let mut images = Pure::new(alloc)?;
    for node in pure.nodes() {
        let Some(kind) = pure.kind(*node) else {
            continue;
        };
        let image = renaming.image(*node);
        if !has_no_other(&images, image, kind) {
            return Ok(false);
        }
        put_node(&mut images, image, kind)?;
    }
    Ok(true)
}

/// Whether the nodes may be renamed: node 0 stays, and nodes with one image other than node 0 are of one kind.
pub fn can_rename(alloc: Global, pure: &Pure, renaming: &Renaming) -> Result<bool, NoMemory>
    ensures yes { IfOk result (λ can. can ≡ true → CanRename (image renaming.now) pure.now.kinds) }
    ensures no { IfOk result (λ can. can ≡ false → CanRename (image renaming.now) pure.now.kinds → ⊥) }
{
    if renaming.image(NULL).0 != 0 {
        return Ok(false);
    }
    have_one_kind(alloc, pure, renaming)
}

/// What is known, with the image of each node in its place; a node without an image stays. Node 0 stays, and nodes with
/// one image other than node 0 are of one kind.
pub fn rename(alloc: Global, pure: &Pure, renaming: &Renaming) -> Result<Pure, NoMemory>
    requires null { image renaming.now 0 ≡ 0 }
    requires kinds { IsOneKind (image renaming.now) pure.now.kinds }
    ensures { IfOk result (λ renamed. IsRenamed (image renaming.now) pure.now renamed) }
{
    // What is known is well formed, for the proof alone.
    pure.is_kept();
    let mut renamed = images(alloc, pure, renaming)?;
    put_written(&mut renamed, pure, renaming)?;
    put_starts(&mut renamed, pure, renaming)?;
    Ok(renamed)
}

/// What is known, with the node `keep` in place of the node `gone` everywhere.
pub fn merge(alloc: Global, pure: &Pure, keep: NodeId, gone: NodeId) -> Result<Pure, NoMemory>
    requires differ { keep ≢ gone }
    requires not_null { gone ≢ null }
    requires kind { AreOfOneKind pure.now.kinds keep gone }
    ensures { IfOk result (λ kept. kept ≡ merged keep gone pure.now) }
{
    // Nodes ascend, for the proof alone.
    pure.is_kept();
    let mut renaming = Renaming::new(alloc);
    renaming.add(gone, keep)?;
    let merged = rename(alloc, pure, &renaming)?;
    Ok(merged)
}
