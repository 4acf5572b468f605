// The variables that are visible at a point, and which of them belong to the block there.
ghost use Rattle.std.specs.Prelude.{◌≡◌, OnOk, [], find, is_some, length, option_map};
ghost use Rattle.std.specs.Option.{option_copied};
ghost use Rattle.mc_c_syntax.specs.Ast.Names.{is_same};
ghost use Rattle.mc_c_types.specs.Held.{variable_held, variables_held};
ghost use Rattle.mc_c_types.specs.Scopes.{declare, inside, visible};
ghost use Rattle.mc_c_types.specs.Tables.{type_in};
ghost use Rattle.mc_c_walk.specs.Parting.{as_head, behind_heads, outside};

use mc_base::text::Text;
use mc_c_types::{Named, Visible};
use std::alloc::{AllocError, Global};
use std::marker::Model;

/// How many of the visible variables belong to the heads of `for` around, and how many to the block.
#[derive(Clone, Copy)]
pub struct Marks {
    pub heads: usize,
    pub own: usize,
}

/// The visible variables: those around the block, then those of the block, then those of the heads of `for`.
pub struct Variables<'a> {
    variables: Visible<'a>,
    heads: usize,
    own: usize,
}

/// Drops its parts. What holds one calls this.
impl Drop for Variables<'_> {
    fn drop(self) {
        let Variables {
            variables,
            heads: _,
            own: _,
        } = self;
        drop(variables);
    }
}

impl<'a> Model for Variables<'a> {
    ghost use Rattle.std.specs.Prelude.{◌+◌, ◌≤◌, length};
    ghost use Rattle.mc_c_types.specs.Scopes.{Scope};

    ghost Value = { Scope };

    ghost use Rattle.mc_c_walk.specs.Parting.{scope_held};

    ghost view = { λ v. scope_held v.variables v.heads v.own };

    ghost invariant = { λ v. v.heads + v.own ≤ length v.variables };
}

impl<'a> Variables<'a> {
    /// None is visible.
    pub fn new(alloc: Global) -> Variables<'a>
        ensures { result ≡ record { heads = []; own = []; outer = [] } }
    {
        Variables {
            variables: Visible::new(alloc),
            heads: 0,
            own: 0,
        }
    }

    /// All of them, inner ones last.
    pub fn all(&self) -> &Visible<'a>
        ensures { variables_held result.now ≡ visible self.now }
    {
        &self.variables
    }

    /// The variable of this name that hides the others.
    pub fn find(&self, name: &Text) -> Option<&Named<'a>>
        ensures { option_map variable_held (option_copied result) ≡ find (λ v. is_same v.name name.now) (visible self.now) }
    {
        self.all().find(name)
    }

    /// Those of the block, later ones last.
    pub fn own(&self) -> &[Named<'a>]
        ensures { variables_held result.now ≡ self.now.own }
    {
        let end = self.variables.len() - self.heads;
        &self.variables.as_slice()[end - self.own..end]
    }

    /// How many belong to the heads and to the block.
    pub fn marks(&self) -> Marks
        ensures heads { result.heads ≡ length self.now.heads }
        ensures own { result.own ≡ length self.now.own }
    {
        Marks {
            heads: self.heads,
            own: self.own,
        }
    }

    /// Whether the block has a variable of this name.
    pub fn is_own(&self, name: &Text) -> bool
        ensures { result ≡ is_some (type_in self.now.own name.now) }
    {
        let end = self.variables.len() - self.heads;
        self.variables.has_between(name, end - self.own, end)
    }

    /// A variable comes into the block. After that fails for memory, nothing is known of the scope.
    pub fn declare(&mut self, variable: Named<'a>) -> Result<(), AllocError>
        ensures { OnOk result (self.new ≡ declare self.old (variable_held variable.entry)) }
    {
        let end = self.variables.len() - self.heads;
        let outer = end - self.own;
        if let Err(fault) = self.variables.insert(end, variable) {
            self.heads = 0;
            self.own = 0;
            return Err(fault);
        }
        self.own = self.variables.len() - self.heads - outer;
        Ok(())
    }

    /// A block begins.
    pub fn enter(&mut self)
        ensures { self.new ≡ inside self.old }
    {
        self.heads = 0;
        self.own = 0;
    }

    /// A block ends; of what is around it so many belong to the heads and to the block there.
    pub fn leave(&mut self, marks: Marks)
        ensures { self.new ≡ outside marks self.old }
    {
        let outer = self.variables.len() - self.heads - self.own;
        self.variables.truncate(outer);
        self.heads = marks.heads.min(outer);
        self.own = marks.own.min(outer - self.heads);
    }

    /// The variables of the block become those of a head.
    pub fn make_head(&mut self, marks: Marks)
        ensures { self.new ≡ as_head marks self.old }
    {
        let outer = self.variables.len() - self.heads - self.own;
        let around = marks.heads.min(outer);
        self.heads = self.heads + self.own + around;
        self.own = marks.own.min(outer - around);
    }

    /// The variables of heads go, but for so many.
    pub fn leave_heads(&mut self, kept: usize)
        ensures { self.new ≡ behind_heads kept self.old }
    {
        let gone = self.heads.saturating_sub(kept);
        self.variables.truncate(self.variables.len() - gone);
        self.heads -= gone;
    }
}
