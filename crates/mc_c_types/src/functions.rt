// The functions of a program and their prototypes.
ghost use Rattle.std.specs.Prelude.{◌≡◌, ◌&&◌, IfOk, find, length, map, option_map, position};
ghost use Rattle.std.specs.Option.{option_copied};
ghost use Rattle.mc_c_syntax.specs.Ast.Names.{is_same};
ghost use Rattle.mc_c_syntax.specs.Ast.Views.{function_of};
ghost use Rattle.mc_c_types.specs.Tables.{is_defined};

use mc_base::text::Text;
use mc_c_syntax::ast::Function;
use mc_c_syntax::names::Table;
use std::alloc::{AllocError, Global};
use std::marker::Model;

/// Functions and prototypes in order.
pub struct Functions<'a> {
    all: Table<'a, Function>,
    defined: Table<'a, Function>,
}

/// Drops its parts. What holds one calls this.
impl Drop for Functions<'_> {
    fn drop(self) {
        let Functions { all, defined } = self;
        drop(all);
        drop(defined);
    }
}

impl<'a> Model for Functions<'a> {
    ghost use Rattle.std.specs.Prelude.{◌≡◌, List, filter};
    ghost use denote.Bor.{Bor};
    ghost use Rattle.mc_c_syntax.specs.declared.ast.trees.Function.{Function};
    ghost use Rattle.mc_c_syntax.specs.Ast.Views.{function_of};
    ghost use Rattle.mc_c_types.specs.Tables.{is_defined};
    ghost use Rattle.mc_c_syntax.specs.contracts.ast.trees.Function as function_type;
    ghost use Rattle.std.specs.Coded.{codes};

    ghost Value = { List (Bor Function) };

    ghost coded = { Prim.hlevel (codes, function_type.the_row.coded) };

    ghost view = { λ f. f.all };

    ghost invariant = { λ f. f.defined ≡ filter (λ g. is_defined (function_of g.now)) f.all };
}

impl<'a> Functions<'a> {
    /// These functions and prototypes.
    pub fn of(alloc: Global, all: Table<'a, Function>) -> Result<Functions<'a>, AllocError>
        ensures { IfOk result (λ functions. functions ≡ all.entry) }
    {
        let mut defined = Table::new(alloc);
        for function in all.as_slice() {
            if function.body.is_some() {
                defined.push(*function)?;
            }
        }
        Ok(Functions { all, defined })
    }

    pub fn as_slice(&self) -> &[&'a Function]
        ensures { result.now ≡ self.now }
    {
        self.all.as_slice()
    }

    pub fn len(&self) -> usize
        ensures { result ≡ length self.now }
    {
        self.all.len()
    }

    /// The place of the first function or prototype of this name.
    pub fn place(&self, name: &Text) -> Option<usize>
        ensures { result ≡ position (λ f. is_same f.now.name.text name.now) self.now }
    {
        self.all.place(name)
    }

    /// The first function of this name that has a body.
    pub fn called(&self, name: &Text) -> Option<&'a Function>
        ensures { option_map function_of (option_copied result)
            ≡ find (λ f. is_defined f && is_same f.name.text name.now) (map (λ f. function_of f.now) self.now) }
    {
        match self.defined.place(name) {
            None => None,
            Some(place) => self.defined.get(place).copied(),
        }
    }
}
