// A stack of names, with the last place of each.
ghost use Rattle.std.specs.Prelude.{◌≡◌, ◌++◌, ◌∷◌, ◌-◌, [], IfOk, IsSome, MatchOption, OnErr, OnOk, drop, insert, length, take};
ghost use Rattle.mc_c_syntax.specs.Visible.Lasts.{last_place, names_held};
ghost use Rattle.mc_c_syntax.specs.Visible.Stacks.{Places, last_in};

use indexmap::IndexMap;
use mc_base::stack::Stack;
use mc_base::text::Text;
use std::alloc::{AllocError, Global};
use std::marker::Model;

/// A name, and the last place of the same name before it.
#[derive(Clone, Copy)]
struct Entry<'a> {
    name: &'a Text,
    hidden: Option<usize>,
}

/// Gives a name the place that its last entry hides.
fn uncover<'a>(lasts: &mut IndexMap<&'a [u8], Option<usize>>, entry: Entry<'a>)
    requires { IsSome (last_in lasts.old entry.name.now) }
    ensures { Places lasts.old lasts.new entry.entry.name.now entry.entry.hidden }
{
    match lasts.get_mut(entry.name.as_slice()) {
        None => {}
        Some(last) => *last = entry.hidden,
    }
}

/// Names in order, of which later ones hide earlier ones that are the same.
pub struct NameStack<'a> {
    entries: Vec<Entry<'a>>,
    lasts: IndexMap<&'a [u8], Option<usize>>,
    alloc: Global,
}

/// Drops its parts. What holds one calls this.
impl Drop for NameStack<'_> {
    fn drop(self) {
        let NameStack {
            entries,
            lasts,
            alloc: _,
        } = self;
        drop(entries);
        drop(lasts);
    }
}

impl<'a> Model for NameStack<'a> {
    ghost use Rattle.std.specs.Prelude.{List, ℕ};
    ghost use Rattle.mc_c_syntax.specs.Visible.Stacks.{TellLasts, names_in};

    ghost Value = { List (List ℕ) };

    ghost view = { λ s. names_in s.entries.items };

    ghost invariant = { λ s. TellLasts s.entries.items s.lasts };
}

impl<'a> NameStack<'a> {
    /// No names.
    pub fn new(alloc: Global) -> NameStack<'a>
        ensures { result ≡ [] }
    {
        NameStack {
            entries: Vec::new(alloc),
            lasts: IndexMap::new(alloc),
            alloc,
        }
    }

    /// How many names there are.
    pub fn len(&self) -> usize
        ensures { result ≡ length self.now }
    {
        self.entries.len()
    }

    /// The last place of a name, from 0 on.
    pub fn last(&self, name: &Text) -> Option<usize>
        ensures { result ≡ last_place self.now name.now }
    {
        match self.lasts.get(name.as_slice()) {
            None => None,
            Some(last) => *last,
        }
    }

    /// The last place of a name among the first so many.
    pub fn last_before(&self, name: &Text, end: usize) -> Option<usize>
        ensures { result ≡ last_place (take end self.now) name.now }
    {
        let mut last = self.last(name);
        while let Some(place) = last {
            if place < end {
                return last;
            }
            last = self.entries[place].hidden;
        }
        None
    }

    /// Adds a name at the end. Without memory the names stay.
    pub fn push(&mut self, name: &'a Text) -> Result<(), AllocError>
        ensures err { OnErr result (self.new ≡ self.old) }
        ensures ok { OnOk result (self.new ≡ self.old ++ name.now ∷ []) }
    {
        let place = self.len();
        let hidden = self.last(name);
        self.entries.push(Entry { name, hidden })?;
        if let Err(fault) = self.lasts.insert(name.as_slice(), Some(place)) {
            self.entries.pop();
            return Err(fault.into());
        }
        Ok(())
    }

    /// Takes the last name away.
    pub fn pop(&mut self) -> Option<&'a Text>
        ensures rest { self.new ≡ take (length self.old - 1) self.old }
        ensures last { MatchOption result (self.old ≡ []) (λ name. self.old ≡ self.new ++ name.now ∷ []) }
    {
        let entry = self.entries.pop()?;
        uncover(&mut self.lasts, entry);
        Some(entry.name)
    }

    /// Takes names away from the end, but for the first so many.
    pub fn truncate(&mut self, kept: usize)
        ensures { self.new ≡ take kept self.old }
    {
        while self.len() > kept {
            self.pop();
        }
    }

    /// Takes names away from the end, but for the first so many, and keeps them, the first one on top.
    fn take_above(&mut self, kept: usize) -> Result<Stack<&'a Text>, AllocError>
        ensures names { OnOk result (self.new ≡ take kept self.old) }
        ensures above { IfOk result (λ above. names_held above ≡ drop kept self.old) }
    {
        let mut above = Stack::new(self.alloc);
        while self.len() > kept {
            let Some(name) = self.pop() else {
                return Ok(above);
            };
            above.push(name)?;
        }
        Ok(above)
    }

    /// Adds several names at the end.
    fn push_all(&mut self, mut names: Stack<&'a Text>) -> Result<(), AllocError>
        ensures { OnOk result (self.new ≡ self.old ++ names_held names.entry) }
    {
        while let Some(name) = names.pop() {
            self.push(name)?;
        }
        Ok(())
    }

    /// Puts a name at a place, before those that stand from there on. After that fails for memory, nothing is known of the names.
    pub fn insert(&mut self, place: usize, name: &'a Text) -> Result<(), AllocError>
        ensures { OnOk result (self.new ≡ insert self.old place name.now) }
    {
        let above = self.take_above(place)?;
        self.push(name)?;
        self.push_all(above)
    }
}
