// Whole programs, from their tokens.
ghost use Rattle.mc_c_syntax.specs.Ast.Views.{unit_of};
ghost use Rattle.mc_c_syntax.specs.Lex.Readings.{EndsOnce};
ghost use Rattle.mc_c_parse.specs.Faults.{IsFaultOf, IsOnlyUnit};
ghost use Rattle.std.specs.Prelude.{IfErr, IfOk};

use crate::fault::{ParseFault, fault_at};
use crate::unit::{UnitReader, UnitStep};
use mc_base::text::Token;
use mc_c_parse_body::bodies_can_end;
use mc_c_syntax::ast::Unit;
use std::alloc::Global;

/// The program that these tokens spell, or the first token that no program can have there.
pub fn parse(alloc: Global, tokens: &[Token]) -> Result<Unit, ParseFault>
    requires { EndsOnce tokens.now }
    ensures read { IfOk result (λ unit. IsOnlyUnit (unit_of unit) tokens.now) }
    ensures refused { IfErr result (λ fault. IsFaultOf tokens.now fault) }
{
    bodies_can_end();
    let mut reader = UnitReader::new(alloc);
    for (index, token) in tokens.iter().enumerate() {
        match reader.step(alloc, token)? {
            UnitStep::Taken => {}
            UnitStep::Done(unit) => return Ok(unit),
            UnitStep::Stuck => return Err(fault_at(alloc, &tokens[..index], token)),
        }
    }
    unreachable!()
}
