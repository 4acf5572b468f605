// Written atoms that are entailed of the other state too.
ghost use Rattle.std.specs.Prelude.{◌≡◌, ◌↔◌, IsTrue};
ghost use Rattle.mc_base.specs.Atoms.{moved_atom};
ghost use Rattle.mc_pure_ops.specs.Renaming.Images.{image};
ghost use Rattle.mc_joins.specs.Alike.Alike.{way_back, AreKnown};

use crate::alike::nodes::back;
use mc_base::Atom;
use mc_pure_ops::renaming::Renaming;
use mc_symbolic::State;

/// The atom with the images of its nodes.
fn atom_there(renaming: &Renaming, atom: &Atom) -> Atom
    ensures { result ≡ moved_atom (image renaming.now) atom.now }
{
    match atom {
        Atom::Eq(a, b, c) => Atom::Eq(renaming.image(*a), renaming.image(*b), *c),
        Atom::Ne(a, b, c) => Atom::Ne(renaming.image(*a), renaming.image(*b), *c),
        Atom::In(a, lo, hi) => Atom::In(renaming.image(*a), *lo, *hi),
    }
}

/// The atom with the state's nodes of which its nodes are the images.
fn atom_back(state: &State, renaming: &Renaming, atom: &Atom) -> Atom
    ensures { result ≡ moved_atom (way_back (image renaming.now) state.now) atom.now }
{
    match atom {
        Atom::Eq(a, b, c) => Atom::Eq(back(state, renaming, *a), back(state, renaming, *b), *c),
        Atom::Ne(a, b, c) => Atom::Ne(back(state, renaming, *a), back(state, renaming, *b), *c),
        Atom::In(a, lo, hi) => Atom::In(back(state, renaming, *a), *lo, *hi),
    }
}

/// Whether each atom that is written in the state is entailed of the images in the other.
pub fn all_known_there(state: &State, other: &State, renaming: &Renaming) -> bool
    ensures { IsTrue result ↔ AreKnown (image renaming.now) state.now.atoms other.now }
{
    for atom in state.atoms() {
        if !other.knows(&atom_there(renaming, atom)) {
            return false;
        }
    }
    true
}

/// Whether each atom that is written in the other is entailed in the state of the nodes that have these images.
pub fn all_known_back(state: &State, other: &State, renaming: &Renaming) -> bool
    ensures { IsTrue result ↔ AreKnown (way_back (image renaming.now) state.now) other.now.atoms state.now }
{
    for atom in other.atoms() {
        if !state.knows(&atom_back(state, renaming, atom)) {
            return false;
        }
    }
    true
}
