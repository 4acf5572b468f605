// Programs whose shape commands fit their definitions.
use crate::typed::Typed;
use mc_flow::defs::Defs;
use std::marker::Model;

/// A well-typed program with definitions: they fit its structs, and its shape commands fit them.
#[derive(Drop)]
pub struct Bound {
    typed: Typed,
    defs: Defs,
}

impl Model for Bound {
    ghost use Rattle.std.specs.Coded.{codes};
    ghost use Rattle.mc_c_syntax.specs.contracts.ast.trees.Condition as condition;
    ghost use Rattle.mc_c_syntax.specs.contracts.ast.trees.Expression as expression;
    ghost use Rattle.mc_c_syntax.specs.contracts.ast.trees.Statement as statement;
    ghost use Rattle.mc_c_check.specs.Bounds.{BoundProgram, IsBoundTo};

    ghost Value = { BoundProgram };

    ghost coded = { Prim.hlevel (codes, condition.the_row.coded, expression.the_row.coded, statement.the_row.coded) };

    ghost view = { λ b. record { typed = b.typed; defs = b.defs } };

    ghost invariant = { λ b. IsBoundTo b.typed b.defs };
}

impl Bound {
    ghost use Rattle.std.specs.Prelude.{◌≡◌};
    ghost use Rattle.mc_c_check.specs.Bounds.{IsBoundTo};

    /// A program and definitions that are known to fit.
    pub fn of(typed: Typed, defs: Defs) -> Bound
        requires { IsBoundTo typed defs }
        ensures typed { result.typed ≡ typed }
        ensures defs { result.defs ≡ defs }
    {
        Bound { typed, defs }
    }

    /// The program.
    pub fn typed(&self) -> &Typed
        ensures { result.now ≡ self.now.typed }
    {
        &self.typed
    }

    /// The definitions.
    pub fn defs(&self) -> &Defs
        ensures same { result.now ≡ self.now.defs }
        ensures fit { IsBoundTo self.now.typed self.now.defs }
    {
        &self.defs
    }
}
