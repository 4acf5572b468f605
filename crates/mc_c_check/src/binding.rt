// Shape commands and their definitions.
ghost use Rattle.std.specs.Prelude.{MatchResult};
ghost use Rattle.mc_c_syntax.specs.Ast.Views.{unit_of};
ghost use Rattle.mc_flow.specs.Defs.Conditions.{DefsFit};
ghost use Rattle.mc_c_types.specs.Tables.{struct_infos};
ghost use Rattle.mc_c_check.specs.Programs.{Binds, IsMisfit};

use crate::bound::Bound;
use crate::shapes::first_misfit;
use crate::typed::Typed;
use mc_c_types::TypeFault;
use mc_flow::defs::Defs;
use std::alloc::Global;

/// The program with its definitions, which fit its structs, or the first fault of its shape commands.
pub fn bind(alloc: Global, typed: Typed, defs: Defs) -> Result<Bound, TypeFault>
    requires { DefsFit (struct_infos (unit_of typed.unit)) defs }
    ensures { MatchResult result (λ bound. Binds bound typed defs) (λ fault. IsMisfit (unit_of typed.unit) defs fault) }
{
    match first_misfit(alloc, typed.unit(), defs.as_slice())? {
        Some(fault) => Err(TypeFault::Refused(fault)),
        None => Ok(Bound::of(typed, defs)),
    }
}
