// The fields of structs.
use crate::names::is_same;
use crate::tables::NameTables;
use crate::types::VariableType;
use mc_base::text::Text;
use mc_c_syntax::ast::{Base, Declarator, Field};

impl<'a> NameTables<'a> {
    ghost use Rattle.std.specs.Prelude.{◌≡◌, map, flat_map};
    ghost use Rattle.mc_c_syntax.specs.Ast.Views.{field_of};
    ghost use Rattle.mc_c_types.specs.Tables.{type_in, variable_of, variables_of};
    ghost use Rattle.mc_c_types.specs.Faults.{field_in};
    ghost use Rattle.mc_c_types.specs.Held.{tables_held};

    /// The type of the one of this name that is declared with a base.
    fn declared_in(
        &self,
        base: &Base,
        declarators: &[Declarator],
        name: &Text,
    ) -> Option<VariableType>
        ensures { result ≡ type_in (map (variable_of (tables_held self.now) base.now) declarators.now) name.now }
    {
        match find_declarator(declarators, name) {
            None => None,
            Some(found) => Some(self.declared(base, found.pointer)),
        }
    }

    /// The type of the one of these fields with this name.
    fn type_of_field(&self, fields: &[Field], name: &Text) -> Option<VariableType>
        ensures { result ≡ type_in (flat_map (variables_of (tables_held self.now)) (map field_of fields.now)) name.now }
    {
        for field in fields {
            match self.declared_in(&field.base, field.declarators.as_slice(), name) {
                None => {}
                Some(found) => return Some(found),
            }
        }
        None
    }

    /// The type of the field after a value of this type, if it is a pointer to a struct that has it.
    pub fn field_in(&self, pointer: VariableType, name: &Text) -> Option<VariableType>
        ensures { result ≡ field_in (tables_held self.now) pointer name.now }
    {
        match pointer {
            VariableType::Int => None,
            VariableType::Pointer(s) => match self.structs.get(s.0 as usize) {
                None => None,
                Some(tree) => self.type_of_field(tree.fields.as_slice(), name),
            },
            VariableType::Anything => Some(VariableType::Anything),
        }
    }
}

ghost use Rattle.std.specs.Prelude.{◌≡◌, find};
ghost use Rattle.std.specs.Option.{option_copied};
ghost use Rattle.mc_c_syntax.specs.Ast.Names.{is_same};

/// The declarator of this name.
fn find_declarator<'d>(declarators: &'d [Declarator], name: &Text) -> Option<&'d Declarator>
    ensures { option_copied result ≡ find (λ d. is_same d.name.text name.now) declarators.now }
{
    declarators.iter().find(|d| is_same(&d.name.text, name))
}
