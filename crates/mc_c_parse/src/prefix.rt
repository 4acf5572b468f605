// Whether some program begins with given tokens.
ghost use Rattle.mc_c_parse.specs.Faults.{CanBegin, CanStand, HasNoEnd, as_name};
ghost use Rattle.mc_c_parse.specs.Units.{CanGoOn, CompletesUnit, KnowsTypes, RunIs};
ghost use Rattle.std.specs.Prelude.{◌≡◌, ◌++◌, IfOk, MatchBool};

use crate::unit::{UnitReader, UnitStep};
use mc_base::text::{Place, Text, Token, TokenKind};
use mc_c_parse_body::bodies_can_end;
use std::alloc::{AllocError, Global};

/// The reader after these tokens; none where no program can have them there.
fn behind(
    alloc: Global,
    mut reader: UnitReader,
    tokens: &[Token],
) -> Result<Option<UnitReader>, AllocError>
    requires known { KnowsTypes reader }
    requires no_end { HasNoEnd tokens.now }
    ensures { IfOk result (RunIs (CompletesUnit reader) tokens.now) }
{
    for token in tokens {
        match reader.step(alloc, token)? {
            UnitStep::Taken => {}
            UnitStep::Done(_) => unreachable!(),
            UnitStep::Stuck => return Ok(None),
        }
    }
    Ok(Some(reader))
}

/// Whether some program begins with the first tokens and the second ones after them.
pub fn can_begin(alloc: Global, first: &[Token], second: &[Token]) -> Result<bool, AllocError>
    requires first { HasNoEnd first.now }
    requires second { HasNoEnd second.now }
    ensures { IfOk result (λ can. MatchBool can (CanBegin (first.now ++ second.now)) (¬ CanBegin (first.now ++ second.now))) }
{
    match behind(alloc, UnitReader::new(alloc), first)? {
        Some(reader) => can_go_on(alloc, reader, second),
        None => Ok(false),
    }
}

/// Whether these tokens can follow what the reader has read.
fn can_go_on(alloc: Global, reader: UnitReader, tokens: &[Token]) -> Result<bool, AllocError>
    requires known { KnowsTypes reader }
    requires no_end { HasNoEnd tokens.now }
    ensures { IfOk result (λ can. MatchBool can (CanGoOn (CompletesUnit reader) tokens.now) (¬ CanGoOn (CompletesUnit reader) tokens.now)) }
{
    bodies_can_end();
    let next = behind(alloc, reader, tokens)?;
    let can = next.is_some();
    Ok(can)
}

/// This mark at this place.
pub fn mark_at(alloc: Global, text: &[u8], place: Place) -> Result<Token, AllocError>
    ensures { IfOk result (λ token. token ≡ record { kind = TokenKind.Mark; text = text.now; place = place }) }
{
    Ok(Token {
        kind: TokenKind::Mark,
        text: Text::of(alloc, text)?,
        place,
    })
}

/// Whether this mark could stand in the place of the token.
pub fn can_stand(
    alloc: Global,
    before: &[Token],
    text: &[u8],
    token: &Token,
) -> Result<bool, AllocError>
    requires { HasNoEnd before.now }
    ensures { IfOk result (λ can. MatchBool can (CanStand before.now text.now token.now) (¬ CanStand before.now text.now token.now)) }
{
    let mark = mark_at(alloc, text, token.place)?;
    can_begin(alloc, before, &[mark])
}

/// A name in the place of a token.
pub fn name_like(alloc: Global, token: &Token) -> Result<Token, AllocError>
    ensures { IfOk result (λ name. name ≡ as_name token.now) }
{
    Ok(Token {
        kind: TokenKind::Name,
        text: Text::of(alloc, b"x")?,
        place: token.place,
    })
}
