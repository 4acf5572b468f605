// Whole files, from their tokens.
ghost use Rattle.mc_def_parse.specs.Faults.{IsOnlyFile, IsSyntaxFault};
ghost use Rattle.mc_c_syntax.specs.Lex.Readings.{EndsOnce};
ghost use Rattle.std.specs.Prelude.{IfErr, IfOk};

use crate::fault::{Cause, DefFault, Refusal};
use crate::file::FileReader;
use crate::step::Took;
use crate::tree::DefText;
use mc_base::Items;
use mc_base::text::Token;
use std::alloc::Global;

/// The file that these tokens spell, or the first token that no file can have there.
pub fn parse(alloc: Global, tokens: &[Token]) -> Result<Items<DefText>, DefFault>
    requires { EndsOnce tokens.now }
    ensures read { IfOk result (λ file. IsOnlyFile file tokens.now) }
    ensures refused { IfErr result (λ fault. IsSyntaxFault tokens.now fault) }
{
    let mut reader = FileReader::new(alloc);
    for token in tokens {
        match reader.step(alloc, token)? {
            Took::Taken => {}
            Took::Closed => {
                let FileReader { done, .. } = reader;
                return Ok(done);
            }
            Took::Stuck => {
                return Err(DefFault::Refused(Refusal {
                    cause: Cause::Syntax,
                    place: token.place,
                }));
            }
        }
    }
    unreachable!()
}
