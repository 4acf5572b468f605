// The variables that are visible.
ghost use Rattle.std.specs.Prelude.{◌≡◌, ◌-◌, ◌≤◌, [], OnOk, drop, find, insert, is_some, length, reverse, take};
ghost use Rattle.std.specs.Option.{option_copied};
ghost use Rattle.mc_c_syntax.specs.Ast.Names.{is_same};
ghost use Rattle.mc_c_types.specs.Held.{variables_held};
ghost use Rattle.mc_c_types.specs.Tables.{type_in};

use crate::types::VariableType;
use mc_base::text::{Place, Text};
use mc_c_syntax::visible::NameStack;
use std::alloc::{AllocError, Global};
use std::marker::Model;

/// A variable, field or parameter, with the place of its name.
#[derive(Clone, Copy)]
pub struct Named<'a> {
    pub name: &'a Text,
    pub place: Place,
    pub variable_type: VariableType,
}

/// Variables that are visible, of which later ones hide earlier ones of their name. They are found by name.
pub struct Visible<'a> {
    variables: Vec<Named<'a>>,
    names: NameStack<'a>,
}

/// Drops its parts. What holds one calls this.
impl Drop for Visible<'_> {
    fn drop(self) {
        let Visible { variables, names } = self;
        drop(variables);
        drop(names);
    }
}

impl<'a> Model for Visible<'a> {
    ghost use Rattle.std.specs.Prelude.{◌≡◌, List, map};
    ghost use Rattle.mc_c_types.specs.declared.scope.Named.{Named};

    ghost Value = { List Named };

    ghost view = { λ v. v.variables.items };

    ghost invariant = { λ v. v.names ≡ map (λ n. n.name.now) v.variables.items };
}

impl<'a> Visible<'a> {
    /// None.
    pub fn new(alloc: Global) -> Visible<'a>
        ensures { result ≡ [] }
    {
        Visible {
            variables: Vec::new(alloc),
            names: NameStack::new(alloc),
        }
    }

    /// How many there are.
    pub fn len(&self) -> usize
        ensures { result ≡ length self.now }
    {
        self.variables.len()
    }

    /// All of them, in order.
    pub fn as_slice(&self) -> &[Named<'a>]
        ensures { result.now ≡ self.now }
    {
        self.variables.as_slice()
    }

    /// The variable of this name that hides the others.
    pub fn find(&self, name: &Text) -> Option<&Named<'a>>
        ensures { option_copied result ≡ find (λ v. is_same v.name.now name.now) (reverse self.now) }
    {
        match self.names.last(name) {
            None => None,
            Some(place) => match self.variables.as_slice().get(place) {
                None => None,
                Some(found) => Some(found),
            },
        }
    }

    /// The type of the variable of this name that hides the others.
    pub fn type_in(&self, name: &Text) -> Option<VariableType>
        ensures { result ≡ type_in (variables_held self.now) name.now }
    {
        match self.names.last(name) {
            None => None,
            Some(place) => match self.variables.as_slice().get(place) {
                None => None,
                Some(found) => Some(found.variable_type),
            },
        }
    }

    /// Whether a variable of this name stands at one of these places.
    pub fn has_between(&self, name: &Text, start: usize, end: usize) -> bool
        ensures { result ≡ is_some (type_in (variables_held (take (end - start) (drop start self.now))) name.now) }
    {
        match self.names.last_before(name, end) {
            None => false,
            Some(place) => start <= place,
        }
    }

    /// Puts a variable at a place, before those that stand from there on. After that fails for memory, nothing is known of them.
    pub fn insert(&mut self, place: usize, variable: Named<'a>) -> Result<(), AllocError>
        requires { place ≤ length self.old }
        ensures { OnOk result (self.new ≡ insert self.old place variable.entry) }
    {
        self.variables.insert(place, variable)?;
        if let Err(fault) = self.names.insert(place, variable.name) {
            self.variables.truncate(0);
            self.names.truncate(0);
            return Err(fault);
        }
        Ok(())
    }

    /// Takes variables away from the end, but for the first so many.
    pub fn truncate(&mut self, kept: usize)
        ensures { self.new ≡ take kept self.old }
    {
        self.variables.truncate(kept);
        self.names.truncate(kept);
    }
}
