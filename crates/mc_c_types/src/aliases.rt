// What typedefs made of names.
ghost use Rattle.std.specs.Prelude.{◌≡◌, ◌++◌, ◌∷◌, [], find, map, option_map, slice_get, OnErr, OnOk};
ghost use Rattle.std.specs.Option.{option_copied};
ghost use Rattle.mc_c_syntax.specs.Ast.Names.{is_same};
ghost use Rattle.mc_c_types.specs.Held.{alias_held};

use crate::tables::Meaning;
use mc_base::text::Text;
use mc_c_syntax::names::Names;
use std::alloc::{AllocError, Global};
use std::marker::Model;

/// What typedefs made of names, in order.
pub struct Aliases<'a> {
    meanings: Vec<Meaning<'a>>,
    names: Names<'a>,
}

/// Drops its parts. What holds one calls this.
impl Drop for Aliases<'_> {
    fn drop(self) {
        let Aliases { meanings, names } = self;
        drop(meanings);
        drop(names);
    }
}

impl<'a> Model for Aliases<'a> {
    ghost use Rattle.std.specs.Prelude.{◌≡◌, List, map};
    ghost use Rattle.mc_c_types.specs.declared.tables.Meaning.{Meaning};

    ghost Value = { List Meaning };

    ghost view = { λ a. a.meanings.items };

    ghost invariant = { λ a. a.names ≡ map (λ m. m.name.now) a.meanings.items };
}

impl<'a> Aliases<'a> {
    /// No typedefs.
    pub fn new(alloc: Global) -> Aliases<'a>
        ensures { result ≡ [] }
    {
        Aliases {
            meanings: Vec::new(alloc),
            names: Names::new(alloc),
        }
    }

    /// The typedef at a place, from 0 on.
    fn get(&self, place: usize) -> Option<&Meaning<'a>>
        ensures { option_copied result ≡ slice_get self.now place }
    {
        self.meanings.as_slice().get(place)
    }

    /// The typedef that introduced this name, the first if there are several.
    pub fn find(&self, name: &Text) -> Option<&Meaning<'a>>
        ensures { option_map alias_held (option_copied result) ≡ find (λ a. is_same a.name name.now) (map alias_held self.now) }
    {
        match self.names.place(name) {
            None => None,
            Some(place) => self.get(place),
        }
    }

    /// Adds what a typedef makes of a name. Without memory the typedefs stay.
    pub fn push(&mut self, meaning: Meaning<'a>) -> Result<(), AllocError>
        ensures err { OnErr result (self.new ≡ self.old) }
        ensures ok { OnOk result (self.new ≡ self.old ++ meaning.entry ∷ []) }
    {
        self.meanings.push(meaning)?;
        if let Err(fault) = self.names.push(meaning.name) {
            self.meanings.pop();
            return Err(fault);
        }
        Ok(())
    }
}
