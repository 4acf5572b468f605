// Texts that are joined.
ghost use Rattle.std.specs.Prelude.{◌≡◌, ◌++◌, OnOk, codes};
ghost use Rattle.mc_state_io.specs.Text.Text.{joined, part};

use mc_base::{Items, NoMemory};

/// Adds texts, with a gap between each two.
pub fn push_joined(out: &mut Vec<u8>, gap: &[u8], texts: &[Items<u8>]) -> Result<(), NoMemory>
    ensures { OnOk result (out.new.items ≡ out.old.items ++ joined gap.now texts.now) }
{
    let Some((first, others)) = texts.split_first() else {
        return Ok(());
    };
    out.extend_from_slice(first.as_slice())?;
    for text in others {
        out.extend_from_slice(gap)?;
        out.extend_from_slice(text.as_slice())?;
    }
    Ok(())
}

/// The same, and `-` where there are none.
pub fn push_part(out: &mut Vec<u8>, gap: &[u8], texts: &[Items<u8>]) -> Result<(), NoMemory>
    ensures { OnOk result (out.new.items ≡ out.old.items ++ part gap.now texts.now) }
{
    if texts.is_empty() {
        out.push(b'-')?;
        return Ok(());
    }
    push_joined(out, gap, texts)
}

/// Adds a further part, whose texts are parted by commas and blanks.
pub fn push_next_part(out: &mut Vec<u8>, texts: &[Items<u8>]) -> Result<(), NoMemory>
    ensures { OnOk result (out.new.items ≡ out.old.items ++ (codes "; " ++ part (codes ", ") texts.now)) }
{
    out.extend_from_slice(b"; ")?;
    push_part(out, b", ", texts)
}
