// What has a name, in order, and found by name in its order.
ghost use Rattle.std.specs.Prelude.{◌≡◌, ◌++◌, ◌∷◌, [], filter, OnErr, OnOk};
ghost use Rattle.mc_c_syntax.specs.Ast.Names.{is_same};
ghost use Rattle.mc_c_syntax.specs.Names.Grouped.{Adds, Stays};

use crate::names::table::HasName;
use indexmap::IndexMap;
use mc_base::text::Text;
use std::alloc::{AllocError, Global};
use std::marker::Model;

/// Adds an item to those of its name. Without memory they stay.
fn add<'a, T: HasName>(
    alloc: Global,
    groups: &mut IndexMap<&'a [u8], Vec<&'a T>>,
    item: &'a T,
) -> Result<(), AllocError>
    ensures err { OnErr result (Stays groups.old groups.new) }
    ensures ok { OnOk result (Adds groups.old groups.new (T.name item.now) item.entry) }
{
    let name = item.name().as_slice();
    if let Some(group) = groups.get_mut(name) {
        group.push(item)?;
        return Ok(());
    }
    let mut group = Vec::new(alloc);
    group.push(item)?;
    groups.insert(name, group)?;
    Ok(())
}

/// What has names, in order, and found by name in their order.
pub struct Groups<'a, T: HasName> {
    items: Vec<&'a T>,
    groups: IndexMap<&'a [u8], Vec<&'a T>>,
    alloc: Global,
}

/// Drops its parts. What holds one calls this.
impl<T: HasName> Drop for Groups<'_, T> {
    fn drop(self) {
        let Groups {
            items,
            groups,
            alloc: _,
        } = self;
        drop(items);
        drop(groups);
    }
}

impl<'a, T: HasName> Model for Groups<'a, T> {
    ghost use Rattle.std.specs.Prelude.{List};
    ghost use denote.Bor.{Bor};
    ghost use Rattle.mc_c_syntax.specs.Names.Grouped.{AreGroups};

    ghost Value = { List (Bor T) };

    ghost view = { λ g. g.items.items };

    ghost invariant = { λ g. AreGroups (λ x. T.name x.now) g.items.items g.groups };
}

impl<'a, T: HasName> Groups<'a, T> {
    /// No items.
    pub fn new(alloc: Global) -> Groups<'a, T>
        ensures { result ≡ [] }
    {
        Groups {
            items: Vec::new(alloc),
            groups: IndexMap::new(alloc),
            alloc,
        }
    }

    /// The items of a name, in order.
    pub fn named(&self, name: &Text) -> &[&'a T]
        ensures { result.now ≡ filter (λ x. is_same (T.name x.now) name.now) self.now }
    {
        let Some(group) = self.groups.get(name.as_slice()) else {
            return &self.items[..0];
        };
        group.as_slice()
    }

    /// Adds an item at the end. Without memory the items stay.
    pub fn push(&mut self, item: &'a T) -> Result<(), AllocError>
        ensures err { OnErr result (self.new ≡ self.old) }
        ensures ok { OnOk result (self.new ≡ self.old ++ item.entry ∷ []) }
    {
        self.items.push(item)?;
        if let Err(fault) = add(self.alloc, &mut self.groups, item) {
            self.items.pop();
            return Err(fault);
        }
        Ok(())
    }
}
