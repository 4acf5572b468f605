// The functions that are defined, by number.
ghost use Rattle.std.specs.Prelude.{◌≡◌, IfOk};
ghost use Rattle.std.specs.List.{position_or_len};
ghost use Rattle.mc_c_syntax.specs.Ast.Names.{is_same};
ghost use Rattle.mc_resolve.specs.Named.{defined_names};
ghost use Rattle.mc_c_types.specs.Held.{tables_held};

use mc_base::text::Text;
use mc_c_syntax::names::Names;
use mc_c_types::NameTables;
use std::alloc::{AllocError, Global};

/// The names of the defined functions, in the order of the text.
pub struct FunctionNames<'a> {
    names: Names<'a>,
}

/// Drops its parts. What holds one calls this.
impl Drop for FunctionNames<'_> {
    fn drop(self) {
        let FunctionNames { names } = self;
        drop(names);
    }
}

impl<'a> FunctionNames<'a> {
    /// The functions of a program.
    pub fn new(alloc: Global, tables: &NameTables<'a>) -> Result<FunctionNames<'a>, AllocError>
        ensures { IfOk result (λ functions. functions.names ≡ defined_names (tables_held tables.now)) }
    {
        let mut names = Names::new(alloc);
        for function in tables.functions.as_slice() {
            if function.body.is_some() {
                names.push(&function.name.text)?;
            }
        }
        Ok(FunctionNames { names })
    }

    /// The number of a function, and how many there are where it is not there.
    pub fn number(&self, name: &Text) -> usize
        ensures { result ≡ position_or_len (λ n. is_same n name.now) self.now.names }
    {
        match self.names.place(name) {
            None => self.names.len(),
            Some(number) => number,
        }
    }
}
