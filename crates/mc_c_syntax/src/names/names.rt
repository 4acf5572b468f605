// Names in order, and by hash the first place of each.
ghost use Rattle.std.specs.Prelude.{◌≡◌, ◌++◌, ◌∷◌, [], position, length, OnErr, OnOk};
ghost use Rattle.mc_c_syntax.specs.Ast.Names.{is_same};

use indexmap::IndexMap;
use mc_base::text::Text;
use std::alloc::{AllocError, Global};
use std::marker::Model;

/// Names in order, of which some may be the same.
pub struct Names<'a> {
    names: Vec<&'a Text>,
    firsts: IndexMap<&'a [u8], usize>,
}

/// Drops its parts. What holds one calls this.
impl Drop for Names<'_> {
    fn drop(self) {
        let Names { names, firsts } = self;
        drop(names);
        drop(firsts);
    }
}

impl<'a> Model for Names<'a> {
    ghost use Rattle.std.specs.Prelude.{List, ℕ, map};
    ghost use Rattle.mc_c_syntax.specs.Names.Firsts.{AreFirsts, behind};

    ghost Value = { List (List ℕ) };

    ghost view = { λ n. behind n.names.items };

    ghost invariant = { λ n. AreFirsts (behind n.names.items) n.firsts };
}

impl<'a> Names<'a> {
    /// No names.
    pub fn new(alloc: Global) -> Names<'a>
        ensures { result ≡ [] }
    {
        Names {
            names: Vec::new(alloc),
            firsts: IndexMap::new(alloc),
        }
    }

    /// How many names there are.
    pub fn len(&self) -> usize
        ensures { result ≡ length self.now }
    {
        self.names.len()
    }

    /// The first place of a name, from 0 on.
    pub fn place(&self, name: &Text) -> Option<usize>
        ensures { result ≡ position (λ n. is_same n name.now) self.now }
    {
        self.firsts.get(name.as_slice()).copied()
    }

    /// Adds a name at the end. Without memory the names stay.
    pub fn push(&mut self, name: &'a Text) -> Result<(), AllocError>
        ensures err { OnErr result (self.new ≡ self.old) }
        ensures ok { OnOk result (self.new ≡ self.old ++ name.now ∷ []) }
    {
        if self.place(name).is_some() {
            self.names.push(name)?;
            return Ok(());
        }
        let place = self.len();
        self.names.push(name)?;
        if let Err(fault) = self.firsts.insert(name.as_slice(), place) {
            self.names.pop();
            return Err(fault.into());
        }
        Ok(())
    }
}
