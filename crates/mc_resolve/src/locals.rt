// The variables of a function, by number and by place.
ghost use Rattle.std.specs.Prelude.{◌≡◌, ◌++◌, ◌∷◌, [], IfOk, OnErr, OnOk, length, map, position};
ghost use Rattle.mc_c_syntax.specs.Ast.Views.{function_of};
ghost use Rattle.mc_semantics.specs.Configs.{is_place};
ghost use Rattle.mc_semantics.specs.Resolved.Resolving.{function_variables, number_in};
ghost use Rattle.mc_c_types.specs.Held.{tables_held, variable_held};
ghost use Rattle.mc_c_types.specs.Tables.{variable_of};

use indexmap::IndexMap;
use mc_base::text::Place;
use mc_c_syntax::ast::{Base, Declarator, Function};
use mc_c_types::{NameTables, Named, parameters};
use std::alloc::{AllocError, Global};
use std::marker::Model;

/// The variable that a declarator makes.
pub fn named<'a>(tables: &NameTables, base: &Base, declarator: &'a Declarator) -> Named<'a>
    ensures { variable_held result ≡ variable_of (tables_held tables.now) base.now declarator.now }
{
    Named {
        name: &declarator.name.text,
        place: declarator.name.place,
        variable_type: tables.declared(base, declarator.pointer),
    }
}

/// A place, by which a variable is found.
#[derive(Clone, Copy, PartialEq, Eq, Hash)]
struct PlaceKey {
    line: u32,
    column: u32,
}

/// The key of a place.
fn key_of(place: Place) -> PlaceKey
    ensures { result ≡ record { line = place.line; column = place.column } }
{
    PlaceKey {
        line: place.line,
        column: place.column,
    }
}

/// Variables in order, and by hash the number of the first at each place.
pub struct Locals<'a> {
    variables: Vec<Named<'a>>,
    numbers: IndexMap<PlaceKey, usize>,
}

/// Drops its parts. What holds one calls this.
impl Drop for Locals<'_> {
    fn drop(self) {
        let Locals { variables, numbers } = self;
        drop(variables);
        drop(numbers);
    }
}

impl<'a> Model for Locals<'a> {
    ghost use Rattle.std.specs.Prelude.{List};
    ghost use Rattle.mc_c_types.specs.declared.scope.Named.{Named};
    ghost use Rattle.mc_resolve.specs.Numbered.{AreNumbers};

    ghost Value = { List Named };

    ghost view = { λ l. l.variables.items };

    ghost invariant = { λ l. AreNumbers l.variables.items l.numbers };
}

impl<'a> Locals<'a> {
    /// No variables.
    fn new(alloc: Global) -> Locals<'a>
        ensures { result ≡ [] }
    {
        Locals {
            variables: Vec::new(alloc),
            numbers: IndexMap::new(alloc),
        }
    }

    /// All of them, in order.
    pub fn as_slice(&self) -> &[Named<'a>]
        ensures { result.now ≡ self.now }
    {
        self.variables.as_slice()
    }

    /// How many there are.
    pub fn len(&self) -> usize
        ensures { result ≡ length self.now }
    {
        self.variables.len()
    }

    /// The number of the first variable at a place, if one is there.
    fn find(&self, place: Place) -> Option<usize>
        ensures { result ≡ position (λ v. is_place v.place place) self.now }
    {
        self.numbers.get(&key_of(place)).copied()
    }

    /// The number of the variable that is declared at a place, and how many there are where none is.
    pub fn number(&self, place: Place) -> usize
        ensures { result ≡ number_in (map variable_held self.now) place }
    {
        match self.find(place) {
            None => self.len(),
            Some(number) => number,
        }
    }

    /// Adds a variable at the end. Without memory they stay.
    pub fn push(&mut self, variable: Named<'a>) -> Result<(), AllocError>
        ensures err { OnErr result (self.new ≡ self.old) }
        ensures ok { OnOk result (self.new ≡ self.old ++ variable.entry ∷ []) }
    {
        if self.find(variable.place).is_some() {
            self.variables.push(variable)?;
            return Ok(());
        }
        let number = self.len();
        self.variables.push(variable)?;
        if let Err(fault) = self.numbers.insert(key_of(variable.place), number) {
            self.variables.pop();
            return Err(fault.into());
        }
        Ok(())
    }

    /// The variables of a function: its parameters, and those of its body in the order of the text.
    pub fn of(
        alloc: Global,
        tables: &NameTables<'a>,
        function: &'a Function,
    ) -> Result<Locals<'a>, AllocError>
        ensures { IfOk result (λ locals. map variable_held locals
            ≡ function_variables (tables_held tables.now) (function_of function.now)) }
    {
        let mut locals = Locals::new(alloc);
        let listed = parameters(function);
        for parameter in listed {
            locals.push(named(tables, &parameter.base, &parameter.declarator))?;
        }
        locals.add_body(alloc, tables, function)?;
        Ok(locals)
    }
}
