// Definitions that meet their conditions.
ghost use Rattle.std.specs.Prelude.{◌≡◌, ◌↔◌, [], IsTrue, IsSome, IfSome};
ghost use Rattle.mc_flow.specs.Defs.Conditions.{IsDefs, DefsFit};

use crate::defs::structs_fit::{defs_fit, defs_fit_some};
use crate::defs::{Def, Structs};
use mc_base::Items;
use std::alloc::Global;
use std::marker::Model;

/// Definitions that fit some structs. A predicate's number is its place in the list.
#[derive(Drop)]
pub struct Defs {
    list: Items<Def>,
}

impl Model for Defs {
    ghost use Rattle.std.specs.Prelude.{List};
    ghost use Rattle.mc_flow.specs.declared.defs.rules.Def.{Def};
    ghost use Rattle.mc_flow.specs.Defs.Conditions.{IsDefs};

    ghost Value = { List Def };

    ghost view = { λ defs. defs.list };

    ghost invariant = { λ defs. IsDefs defs.list };
}

impl Defs {
    /// No definitions.
    pub fn new(alloc: Global) -> Defs
        ensures { result ≡ [] }
    {
        Defs {
            list: Items::new(alloc),
        }
    }

    /// These definitions, and None exactly where they fit no structs.
    pub fn of(list: Items<Def>) -> Option<Defs>
        ensures fit { IsSome result ↔ IsDefs list }
        ensures same { IfSome result (λ defs. defs ≡ list) }
    {
        if defs_fit_some(list.as_slice()) {
            Some(Defs { list })
        } else {
            None
        }
    }

    /// These definitions, which are known to fit these structs.
    pub fn fitting(structs: &Structs, list: Items<Def>) -> Defs
        requires { DefsFit structs.now.list list }
        ensures { result ≡ list }
    {
        let _known = structs;
        Defs { list }
    }

    /// Whether they fit these structs.
    pub fn fit(&self, structs: &Structs) -> bool
        ensures { IsTrue result ↔ DefsFit structs.now.list self.now }
    {
        defs_fit(structs.list.as_slice(), self.list.as_slice())
    }

    pub fn as_slice(&self) -> &[Def]
        ensures same { result.now ≡ self.now }
        ensures fit { IsDefs self.now }
    {
        self.list.as_slice()
    }
}
