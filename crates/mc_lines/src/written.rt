//! Documents as they are written.

ghost use Rattle.std.specs.Prelude.{◌≡◌, ◌++◌, ◌∷◌, [], IfOk, OnOk};
ghost use Rattle.mc_lines.specs.Cert.Document.{Spells};
ghost use Rattle.mc_lines.specs.Written.Written.{IsWritten, line_text};

use crate::cert::{Line, bytes_of};
use mc_base::NoMemory;
use std::alloc::Global;

/// Adds a line, which is ended by a line feed.
fn push_line(alloc: Global, text: &mut Vec<u8>, line: &Line) -> Result<(), NoMemory>
    ensures spelled { OnOk result (Spells (line_text line.now) line.now) }
    ensures added { OnOk result (text.new.items ≡ text.old.items ++ (line_text line.now ++ 10 ∷ [])) }
{
    let bytes = bytes_of(alloc, line)?;
    text.extend_from_slice(&bytes)?;
    text.push(b'\n')?;
    Ok(())
}

/// The text of a document of these lines.
pub fn document(alloc: Global, lines: &[Line]) -> Result<Vec<u8>, NoMemory>
    ensures { IfOk result (λ text. IsWritten lines.now text.items) }
{
    let mut text = Vec::new(alloc);
    for line in lines {
        push_line(alloc, &mut text, line)?;
    }
    Ok(text)
}
