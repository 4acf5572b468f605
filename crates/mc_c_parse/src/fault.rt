// Why a text is no program.
ghost use Rattle.mc_c_parse.specs.Faults.{HasNoEnd, IsFaultAt};
ghost use Rattle.mc_c_parse.specs.declared.fault.ParseFault.TheVariants.{NoMemory};
ghost use Rattle.std.specs.Prelude.{◌≡◌};

use crate::left_out::is_left_out;
use mc_base::text::{Place, Text, Token};
use std::alloc::{AllocError, Global};

/// Why a text is no program, and where: at the first token that no program can have there.
#[derive(Drop)]
pub enum ParseFault {
    Unexpected(Place),
    /// A part of C that the language leaves out, with the token's bytes.
    LeftOut(Text, Place),
    NoMemory,
}

impl From<AllocError> for ParseFault {
    ghost from_gives = { λ _ fault. fault ≡ NoMemory };

    fn from(_: AllocError) -> ParseFault {
        ParseFault::NoMemory
    }
}

/// The fault of a token that can't stand after those before it.
pub fn fault_at(alloc: Global, before: &[Token], token: &Token) -> ParseFault
    requires { HasNoEnd before.now }
    ensures { IsFaultAt before.now token.now result }
{
    match is_left_out(alloc, before, token) {
        Ok(true) => match Text::of(alloc, token.text.as_slice()) {
            Ok(text) => ParseFault::LeftOut(text, token.place),
            Err(_) => ParseFault::NoMemory,
        },
        Ok(false) => ParseFault::Unexpected(token.place),
        Err(_) => ParseFault::NoMemory,
    }
}
