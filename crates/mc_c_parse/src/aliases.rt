// The names that typedefs introduced so far.
ghost use Rattle.mc_c_syntax.specs.Ast.Names.{is_in, is_same};
ghost use Rattle.std.specs.Prelude.{◌≡◌, ◌||◌, ℕ, List, [], OnOk};

use std::alloc::{AllocError, Global};
use std::collections::BTreeSet;
use std::marker::Model;

/// The names that typedefs introduced so far.
#[derive(Drop)]
pub struct AliasNames {
    names: BTreeSet<Vec<u8>>,
}

impl Model for AliasNames {
    ghost use Rattle.std.specs.Prelude.{List, ℕ, map};

    ghost Value = { List (List ℕ) };

    ghost view = { λ aliases. map (λ name. name.items) aliases.names.keys };
}

impl AliasNames {
    /// No names.
    pub fn new(alloc: Global) -> AliasNames
        ensures { result ≡ [] }
    {
        AliasNames {
            names: BTreeSet::new(alloc),
        }
    }

    /// Whether the name is one of them.
    pub fn contains(&self, name: &[u8]) -> bool
        ensures { result ≡ is_in self.now name.now }
    {
        self.names.contains(name)
    }

    /// Adds a name.
    pub fn add(&mut self, alloc: Global, name: &[u8]) -> Result<(), AllocError>
        ensures { OnOk result ((other : List ℕ) → is_in self.new other ≡ (is_same other name.now || is_in self.old other)) }
    {
        let name = name.to_vec(alloc)?;
        self.names.insert(name)?;
        Ok(())
    }
}
