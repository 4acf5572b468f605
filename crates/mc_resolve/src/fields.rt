// The fields of structs, found by name in constant time.
use mc_base::text::Text;
use mc_c_syntax::ast::{Declarator, Struct};
use mc_c_syntax::names::Names;
use mc_c_types::NameTables;
use std::alloc::{AllocError, Global};

/// The names of the fields of each struct, by its number.
pub struct FieldNames<'a> {
    structs: Vec<Names<'a>>,
}

/// Drops its parts. What holds one calls this.
impl Drop for FieldNames<'_> {
    fn drop(self) {
        let FieldNames { structs } = self;
        drop(structs);
    }
}

ghost use Rattle.std.specs.Prelude.{◌≡◌, ◌++◌, IfOk, OnOk, List, ℕ, map, position, slice_get, option_map, option_and_then, unwrap_or};
ghost use Rattle.std.specs.Option.{option_map_or};
ghost use Rattle.mc_c_syntax.specs.Ast.Names.{is_same};
ghost use Rattle.mc_c_syntax.specs.Ast.Views.{struct_of};
ghost use Rattle.mc_resolve.specs.Named.{declared_names, field_names};

/// Adds the names of these declarators.
fn push_names<'a>(names: &mut Names<'a>, declarators: &'a [Declarator]) -> Result<(), AllocError>
    ensures { OnOk result (names.new ≡ names.old ++ map (λ d. d.name.text) declarators.now) }
{
    for declarator in declarators {
        names.push(&declarator.name.text)?;
    }
    Ok(())
}

/// The names of the fields of a struct, in order.
fn names_of<'a>(alloc: Global, tree: &'a Struct) -> Result<Names<'a>, AllocError>
    ensures { IfOk result (λ names. names ≡ declared_names (struct_of tree.now)) }
{
    let mut names = Names::new(alloc);
    for field in tree.fields.as_slice() {
        push_names(&mut names, field.declarators.as_slice())?;
    }
    Ok(names)
}

impl<'a> FieldNames<'a> {
    ghost use Rattle.mc_c_types.specs.Held.{tables_held};
    ghost use Rattle.std.specs.Prelude.{length};

    /// The fields of all structs of a program.
    pub fn new(alloc: Global, tables: &NameTables<'a>) -> Result<FieldNames<'a>, AllocError>
        ensures { IfOk result (λ fields. fields.structs.items ≡ field_names (tables_held tables.now)) }
    {
        let mut structs = Vec::new(alloc);
        for tree in tables.structs.as_slice() {
            structs.push(names_of(alloc, tree)?)?;
        }
        Ok(FieldNames { structs })
    }

    /// The number of a field, and 0 where it is not there.
    pub fn number(&self, shape: usize, name: &Text) -> usize
        ensures { result ≡ unwrap_or (option_and_then (position (λ n. is_same n name.now)) (slice_get self.now.structs.items shape)) 0 }
    {
        match self.structs.get(shape) {
            None => 0,
            Some(names) => names.place(name).unwrap_or(0),
        }
    }

    /// How many fields a struct has.
    pub fn count(&self, shape: usize) -> usize
        ensures { result ≡ option_map_or length (slice_get self.now.structs.items shape) 0 }
    {
        match self.structs.get(shape) {
            None => 0,
            Some(names) => names.len(),
        }
    }
}
