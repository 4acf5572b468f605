// Written atoms.
ghost use Rattle.std.specs.Prelude.{◌≡◌, ◌++◌, ◌∷◌, [], IfOk, OnOk, OnErr, true, false};
ghost use Rattle.mc_pure.specs.Atoms.{is_apart as is_disequality, apart_of};

use mc_base::{Atom, NoMemory};
use std::alloc::Global;
use std::marker::Model;

/// Atoms in the order in which they were written, and the disequalities among them once more.
#[derive(Drop)]
pub struct Atoms {
    all: Vec<Atom>,
    apart: Vec<Atom>,
}

impl Model for Atoms {
    ghost use Rattle.std.specs.Prelude.{◌≡◌, List};
    ghost use Rattle.mc_base.specs.declared.plain.Atom.{Atom as Fact};
    ghost use Rattle.mc_pure.specs.Atoms.{apart_of};

    ghost Value = { List Fact };

    ghost view = { λ a. a.all.items };

    ghost invariant = { λ a. a.apart.items ≡ apart_of a.all.items };
}

/// Whether the atom is a disequality.
fn is_apart(atom: &Atom) -> bool
    ensures { result ≡ is_disequality atom.now }
{
    match atom {
        Atom::Ne(_, _, _) => true,
        Atom::Eq(_, _, _) => false,
        Atom::In(_, _, _) => false,
    }
}

impl Atoms {
    /// No atom.
    pub fn new(alloc: Global) -> Atoms
        ensures { result ≡ [] }
    {
        Atoms {
            all: Vec::new(alloc),
            apart: Vec::new(alloc),
        }
    }

    /// The same atoms again.
    pub fn copy(&self) -> Result<Atoms, NoMemory>
        ensures { IfOk result (λ atoms. atoms ≡ self.now) }
    {
        let alloc = *self.all.allocator();
        Ok(Atoms {
            all: Vec::from_slice(alloc, self.all.as_slice())?,
            apart: Vec::from_slice(alloc, self.apart.as_slice())?,
        })
    }

    /// Writes one more. Without memory nothing changes.
    pub fn push(&mut self, atom: &Atom) -> Result<(), NoMemory>
        ensures ok { OnOk result (self.new ≡ self.old ++ atom.now ∷ []) }
        ensures err { OnErr result (self.new ≡ self.old) }
    {
        self.all.reserve(1)?;
        if is_apart(atom) {
            self.apart.push(*atom)?;
            self.all.push(*atom)?;
            return Ok(());
        }
        self.all.push(*atom)?;
        Ok(())
    }

    /// All of them, in order.
    pub fn all(&self) -> &[Atom]
        ensures { result.now ≡ self.now }
    {
        self.all.as_slice()
    }

    /// The disequalities, in order.
    pub fn apart(&self) -> &[Atom]
        ensures { result.now ≡ apart_of self.now }
    {
        self.apart.as_slice()
    }
}
