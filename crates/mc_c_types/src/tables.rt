// What the names of a program mean.
use crate::aliases::Aliases;
use crate::functions::Functions;
use crate::types::{BaseType, VariableType};
use mc_base::StructId;
use mc_base::text::{Place, Text};
use mc_c_syntax::ast::{Base, Function, Struct};
use mc_c_syntax::names::Table;

/// What a typedef made of a name.
#[derive(Clone, Copy)]
pub struct Meaning<'a> {
    pub name: &'a Text,
    pub meaning: BaseType,
}

/// The structs, typedefs and functions of a program.
#[derive(Drop)]
pub struct NameTables<'a> {
    pub structs: Table<'a, Struct>,
    pub aliases: Aliases<'a>,
    pub functions: Functions<'a>,
}

impl<'a> NameTables<'a> {
    ghost use Rattle.std.specs.Prelude.{◌≡◌, option_map};
    ghost use Rattle.std.specs.Option.{option_copied};
    ghost use Rattle.mc_c_syntax.specs.Ast.Views.{function_of};
    ghost use Rattle.mc_c_types.specs.Tables.{struct_number, called_function, meaning_of, alias_in, declared_type};
    ghost use Rattle.mc_c_types.specs.Faults.{is_known};
    ghost use Rattle.mc_c_types.specs.Held.{tables_held};

    /// The number of the struct with this name.
    pub fn struct_number(&self, name: &Text) -> Option<StructId>
        ensures { result ≡ struct_number (tables_held self.now).structs name.now }
    {
        match self.structs.place(name) {
            None => None,
            Some(place) => Some(StructId(place as u64)),
        }
    }

    /// The function that a call of this name calls.
    pub fn called_function(&self, name: &Text) -> Option<&'a Function>
        ensures { option_map function_of (option_copied result) ≡ called_function (tables_held self.now) name.now }
    {
        self.functions.called(name)
    }

    /// What this name means, if a typedef introduced it.
    fn alias(&self, name: &Text) -> Option<BaseType>
        ensures { result ≡ alias_in (tables_held self.now).aliases name.now }
    {
        match self.aliases.find(name) {
            None => None,
            Some(found) => Some(found.meaning),
        }
    }

    /// What a base means.
    pub fn meaning(&self, base: &Base) -> BaseType
        ensures { result ≡ meaning_of (tables_held self.now) base.now }
    {
        match base {
            Base::Int(_) => BaseType::Typed(VariableType::Int),
            Base::Struct(_, name) => match self.struct_number(&name.text) {
                None => BaseType::Undefined,
                Some(s) => BaseType::Struct(s),
            },
            Base::Alias(name) => match self.alias(&name.text) {
                None => BaseType::Typed(VariableType::Anything),
                Some(meaning) => meaning,
            },
        }
    }

    /// The type of what is declared with a base and perhaps a `*`.
    pub fn declared(&self, base: &Base, star: Option<Place>) -> VariableType
        ensures { result ≡ declared_type (meaning_of (tables_held self.now) base.now) star }
    {
        self.meaning(base).declared(star)
    }

    /// Whether the base is known, and, after it, a `*` has a struct that is defined.
    pub fn is_known(&self, base: &Base, star: Option<Place>) -> bool
        ensures { result ≡ is_known (tables_held self.now) base.now star }
    {
        match base {
            Base::Int(_) => true,
            Base::Struct(_, name) => star.is_none() || self.struct_number(&name.text).is_some(),
            Base::Alias(name) => match star {
                None => self.alias(&name.text).is_some(),
                Some(_) => self.alias(&name.text).is_some() && !self.meaning(base).is_undefined(),
            },
        }
    }
}
