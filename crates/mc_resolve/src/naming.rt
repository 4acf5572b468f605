// What names mean at one point of a function, by number.
ghost use Rattle.std.specs.Prelude.{◌≡◌, position};
ghost use Rattle.mc_c_syntax.specs.Ast.Names.{is_same};

use crate::fields::FieldNames;
use crate::functions::FunctionNames;
use crate::locals::Locals;
use mc_base::text::Text;
use mc_base::{PredId, StructId};
use mc_c_syntax::ast::{LeftValue as NamedLeft, Name};
use mc_c_types::{NameTables, VariableType};
use mc_c_walk::Variables;
use mc_flow::defs::Def;
use mc_semantics::resolved::{FieldAt, LeftValue};
use std::alloc::{AllocError, Global};

/// What names mean in a function, with its variables.
#[derive(Clone, Copy)]
pub struct Naming<'s, 'a> {
    pub tables: &'s NameTables<'a>,
    pub fields: &'s FieldNames<'a>,
    pub functions: &'s FunctionNames<'a>,
    pub locals: &'s Locals<'a>,
    pub defs: &'s [Def],
}

/// What names mean at one point of a function, with the variables that are visible there.
#[derive(Clone, Copy)]
pub struct NamesHere<'s, 'a> {
    pub naming: Naming<'s, 'a>,
    pub scope: &'s Variables<'a>,
}

ghost use Rattle.mc_semantics.specs.Values.{struct_behind};

/// The struct that a pointer points to, and 0 for what is none.
fn struct_behind(pointer: VariableType) -> StructId
    ensures { result.0 ≡ struct_behind pointer }
{
    match pointer {
        VariableType::Int => StructId(0),
        VariableType::Pointer(shape) => shape,
        VariableType::Anything => StructId(0),
    }
}

ghost use Rattle.mc_semantics.specs.Steps.{predicate_of};

/// The place of the predicate of this name among the definitions.
fn predicate_place(defs: &[Def], name: &[u8]) -> Option<usize>
    ensures { result ≡ position (λ d. is_same d.name name.now) defs.now }
{
    defs.iter().position(|d| d.name.as_slice() == name)
}

/// The predicate of this name among the definitions.
fn predicate_in(defs: &[Def], name: &Name) -> PredId
    ensures { result ≡ predicate_of defs.now name.now }
{
    match predicate_place(defs, name.text.as_slice()) {
        None => PredId(0),
        Some(place) => PredId(place as u64),
    }
}

impl<'s, 'a> NamesHere<'s, 'a> {
    ghost use Rattle.mc_resolve.specs.Named.{IsNumbered, naming_at, visible_at};
    ghost use Rattle.std.specs.Prelude.{IfOk, [], ◌∷◌, map};
    ghost use Rattle.mc_c_syntax.specs.Ast.Views.{left_of as named_left};
    ghost use Rattle.mc_semantics.specs.Steps.{field_count};
    ghost use Rattle.mc_semantics.specs.Values.{struct_behind, field_number};
    ghost use Rattle.mc_semantics.specs.Resolved.Resolving.{function_number, resolved_fields, resolved_left, resolved_variable};
    ghost use Rattle.mc_semantics.specs.Resolved.Views.{field_of, left_of};
    ghost use Rattle.mc_c_types.specs.Faults.{behind_fields, variable_type};
    ghost use Rattle.mc_c_types.specs.Held.{tables_held};

    /// The number of the variable of this name, and how many there are where none is visible.
    pub fn variable(&self, name: &Name) -> usize
        ensures { result ≡ resolved_variable (naming_at self.now) (visible_at self.now) name.now }
    {
        match self.scope.find(&name.text) {
            None => self.naming.locals.len(),
            Some(found) => self.naming.locals.number(found.place),
        }
    }

    /// The type of the variable of this name.
    pub fn variable_type(&self, name: &Name) -> VariableType
        ensures { result ≡ variable_type (visible_at self.now) name.now }
    {
        match self.scope.find(&name.text) {
            None => VariableType::Anything,
            Some(found) => found.variable_type,
        }
    }

    /// The predicate of this name.
    pub fn predicate(&self, name: &Name) -> PredId
        ensures { result ≡ predicate_of (naming_at self.now).defs name.now }
    {
        predicate_in(self.naming.defs, name)
    }

    /// The type after a field, and anything where it is not there.
    fn behind_field(&self, pointer: VariableType, field: &Name) -> VariableType
        ensures { result ≡ behind_fields (tables_held self.now.naming.tables.now) pointer (field.now ∷ []) }
    {
        match self.naming.tables.field_in(pointer, &field.text) {
            None => VariableType::Anything,
            Some(found) => found,
        }
    }

    /// The field after a pointer of this type.
    fn field(&self, pointer: VariableType, field: &Name) -> FieldAt
        requires { IsNumbered self.now.naming }
        ensures { field_of result
            ≡ record {
              shape = struct_behind pointer;
              field = field_number
                  (tables_held self.now.naming.tables.now) pointer field.now;
            } }
    {
        let shape = struct_behind(pointer);
        FieldAt {
            shape,
            field: self.naming.fields.number(shape.0 as usize, &field.text),
        }
    }

    /// The fields, one after the other.
    fn field_row(
        &self,
        alloc: Global,
        start: VariableType,
        fields: &[Name],
    ) -> Result<Vec<FieldAt>, AllocError>
        requires { IsNumbered self.now.naming }
        ensures { IfOk result
            (λ made. map field_of made.items
            ≡ resolved_fields (tables_held self.now.naming.tables.now) start fields.now) }
    {
        let mut found = start;
        let mut made = Vec::new(alloc);
        for field in fields {
            made.push(self.field(found, field))?;
            found = self.behind_field(found, field);
        }
        Ok(made)
    }

    /// A variable, or a field after it.
    pub fn left(&self, alloc: Global, left: &NamedLeft) -> Result<LeftValue, AllocError>
        requires { IsNumbered self.now.naming }
        ensures { IfOk result (λ made. left_of made ≡ resolved_left (naming_at self.now) (visible_at self.now) (named_left left.now)) }
    {
        let start = self.variable_type(&left.name);
        let fields = self.field_row(alloc, start, left.fields.as_slice())?;
        Ok(LeftValue {
            variable: self.variable(&left.name),
            fields,
        })
    }

    /// The number of the function that a call of this name calls.
    pub fn function(&self, name: &Text) -> usize
        requires { IsNumbered self.now.naming }
        ensures { result ≡ function_number (tables_held self.now.naming.tables.now) name.now }
    {
        self.naming.functions.number(name)
    }

    /// How many fields a struct has.
    pub fn field_count(&self, shape: StructId) -> usize
        requires { IsNumbered self.now.naming }
        ensures { result ≡ field_count (tables_held self.now.naming.tables.now) shape.0 }
    {
        self.naming.fields.count(shape.0 as usize)
    }
}
