// Where one stands in a text.
ghost use Rattle.std.specs.Prelude.{◌≡◌, length};
ghost use Rattle.mc_c_syntax.specs.Lex.Spots.{start, step, behind, HasRoom};

use crate::lex::bytes::is_blank;
use mc_base::text::Place;

/// A place in a text, and whether only blanks and tabs stand before it in its line.
#[derive(Clone, Copy)]
pub struct Spot {
    pub place: Place,
    pub at_line_start: bool,
}

/// The spot before the first byte.
pub fn start() -> Spot
    ensures { result ≡ start }
{
    Spot {
        place: Place { line: 1, column: 1 },
        at_line_start: true,
    }
}

fn step(spot: Spot, byte: u8) -> Spot
    requires { HasRoom spot 1 }
    ensures { result ≡ step spot byte }
{
    if byte == b'\n' {
        Spot {
            place: Place {
                line: spot.place.line + 1,
                column: 1,
            },
            at_line_start: true,
        }
    } else {
        Spot {
            place: Place {
                line: spot.place.line,
                column: spot.place.column + 1,
            },
            at_line_start: spot.at_line_start && is_blank(byte),
        }
    }
}

/// The spot after these bytes.
pub fn behind(mut spot: Spot, bytes: &[u8]) -> Spot
    requires { HasRoom spot (length bytes.now) }
    ensures { result ≡ behind spot bytes.now }
{
    for byte in bytes {
        spot = step(spot, *byte);
    }
    spot
}
