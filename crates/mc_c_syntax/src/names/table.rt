// What has a name, in order, and found by name.
ghost use Rattle.std.specs.Prelude.{◌≡◌, ◌++◌, ◌∷◌, [], List, ℕ, position, length, slice_get, OnErr, OnOk};
ghost use Rattle.std.specs.Option.{option_copied};
ghost use Rattle.mc_c_syntax.specs.Ast.Names.{is_same};

use crate::ast::{Function, Struct};
use crate::names::names::Names;
use mc_base::text::Text;
use std::alloc::{AllocError, Global};
use std::marker::Model;

/// What has a name.
pub trait HasName {
    // Its name.
    ghost name: { Self → List ℕ };

    fn name(&self) -> &Text
        ensures { result.now ≡ name self.now };
}

impl HasName for Struct {
    ghost name = { λ s. s.name.text };

    fn name(&self) -> &Text {
        &self.name.text
    }
}

impl HasName for Function {
    ghost name = { λ f. f.name.text };

    fn name(&self) -> &Text {
        &self.name.text
    }
}

/// What has names, in order, of which some may be the same.
pub struct Table<'a, T: HasName> {
    items: Vec<&'a T>,
    names: Names<'a>,
}

/// Drops its parts. What holds one calls this.
impl<T: HasName> Drop for Table<'_, T> {
    fn drop(self) {
        let Table { items, names } = self;
        drop(items);
        drop(names);
    }
}

impl<'a, T: HasName> Model for Table<'a, T> {
    ghost use Rattle.std.specs.Prelude.{◌≡◌, List, map};
    ghost use denote.Bor.{Bor};

    ghost Value = { List (Bor T) };

    ghost view = { λ t. t.items.items };

    ghost invariant = { λ t. t.names ≡ map (λ x. T.name x.now) t.items.items };
}

impl<'a, T: HasName> Table<'a, T> {
    /// The empty table.
    pub fn new(alloc: Global) -> Table<'a, T>
        ensures { result ≡ [] }
    {
        Table {
            items: Vec::new(alloc),
            names: Names::new(alloc),
        }
    }

    pub fn as_slice(&self) -> &[&'a T]
        ensures { result.now ≡ self.now }
    {
        self.items.as_slice()
    }

    pub fn len(&self) -> usize
        ensures { result ≡ length self.now }
    {
        self.items.len()
    }

    /// The item at a place, from 0 on.
    pub fn get(&self, place: usize) -> Option<&&'a T>
        ensures { option_copied result ≡ slice_get self.now place }
    {
        self.items.as_slice().get(place)
    }

    /// The first place of a name, from 0 on.
    pub fn place(&self, name: &Text) -> Option<usize>
        ensures { result ≡ position (λ x. is_same (T.name x.now) name.now) self.now }
    {
        self.names.place(name)
    }

    /// Adds an item at the end. Without memory the table stays.
    pub fn push(&mut self, item: &'a T) -> Result<(), AllocError>
        ensures err { OnErr result (self.new ≡ self.old) }
        ensures ok { OnOk result (self.new ≡ self.old ++ item.entry ∷ []) }
    {
        self.items.push(item)?;
        if let Err(fault) = self.names.push(item.name()) {
            self.items.pop();
            return Err(fault);
        }
        Ok(())
    }
}
