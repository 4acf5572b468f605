// The tokens of a text.
ghost use Rattle.std.specs.Prelude.{◌≡◌, ◌≢◌, ◌≤◌, List, ℕ, length, IfOk, MatchResult};
ghost use Rattle.mc_c_syntax.specs.Lex.Readings.{Reading, Lexes, EndsOnce};

use crate::lex::LexFault;
use crate::lex::piece::{Piece, first_piece};
use crate::lex::spot::{behind, start};
use mc_base::text::{Place, Text, Token, TokenKind};
use std::alloc::{AllocError, Global};

/// How many bytes a text may have, so that its lines and columns are numbers of 32 bits.
pub const MAX_BYTES: usize = 4294967294;

/// The tokens of a text, of which the last is the end, or its first fault.
///
/// Blanks, tabs, carriage returns, line feeds and comments of both forms part tokens. So does a line whose first
/// byte, blanks and tabs aside, is `#` and whose next word is `include`: it is skipped up to its line feed, and opens
/// no comment. The bytes of a comment count as bytes of their lines, so a `#` after one is a mark.
pub fn lex(alloc: Global, bytes: &[u8]) -> Result<Vec<Token>, LexFault>
    requires { length bytes.now ≤ MAX_BYTES }
    ensures reading { MatchResult result (λ tokens. Lexes bytes.now (Ok tokens.items))
        (λ fault. fault ≢ LexFault.NoMemory → Lexes bytes.now (Err fault)) }
    ensures end { IfOk result (λ tokens. EndsOnce tokens.items) }
{
    let mut tokens = Vec::new(alloc);
    let mut spot = start();
    let mut rest = bytes;
    'pieces: loop {
        match first_piece(spot, rest) {
            Piece::End => {
                tokens.push(Token {
                    kind: TokenKind::End,
                    text: Text::new(alloc),
                    place: spot.place,
                })?;
                return Ok(tokens);
            }
            Piece::Gap(len) => {
                let (gap, more) = rest.split_at(len);
                spot = behind(spot, gap);
                rest = more;
            }
            Piece::Lexeme(kind, len) => {
                let (text, more) = rest.split_at(len);
                tokens.push(token(alloc, kind, text, spot.place)?)?;
                spot = behind(spot, text);
                rest = more;
            }
            Piece::Fault(fault) => return Err(fault),
        }
    }
}

fn token(alloc: Global, kind: TokenKind, text: &[u8], place: Place) -> Result<Token, AllocError>
    ensures { IfOk result (λ token. token ≡ record { kind = kind; text = text.now; place = place }) }
{
    Ok(Token {
        kind,
        text: Text::of(alloc, text)?,
        place,
    })
}

/// A text reads as one list of tokens or one fault, and no other.
pub fn readings_are_unique()
    ensures { (text : List ℕ) (one other : Reading) → Lexes text one → Lexes text other → one ≡ other }
{}
