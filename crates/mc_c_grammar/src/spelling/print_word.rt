// How words are printed.
ghost use Rattle.mc_c_grammar.specs.Spelling.Words.{Prints, field_words, gap, left_words};
ghost use Rattle.mc_c_syntax.specs.Ast.Views.{left_of};
ghost use Rattle.std.specs.Fmt.{decimal};
ghost use Rattle.std.specs.Prelude.{◌≡◌, ◌∷◌, IfOk, codes};

use mc_c_syntax::ast::{LeftValue, Name, is_one_of};
use std::alloc::{AllocError, Global};

/// Prints a word, and what stands after it.
pub fn print_word(out: &mut Vec<u8>, word: &[u8]) -> Result<(), AllocError>
    ensures { IfOk result (λ _. Prints out.old.items (λ more. word.now ∷ more) out.new.items) }
{
    out.extend_from_slice(word)?;
    out.push(gap(word))?;
    Ok(())
}

// The words after which a line ends.
static LINE_ENDS: [&[u8]; 3] = [b";", b"{", b"}"];

fn gap(word: &[u8]) -> u8
    ensures { result ≡ gap word.now }
{
    if is_one_of(word, &LINE_ENDS) {
        b'\n'
    } else {
        b' '
    }
}

/// Prints a word and a `(`.
pub fn print_opening(out: &mut Vec<u8>, word: &[u8]) -> Result<(), AllocError>
    ensures { IfOk result (λ _. Prints out.old.items (λ more. word.now ∷ codes "(" ∷ more) out.new.items) }
{
    print_word(out, word)?;
    print_word(out, b"(")
}

/// Prints `)` and `;`.
pub fn print_ending(out: &mut Vec<u8>) -> Result<(), AllocError>
    ensures { IfOk result (λ _. Prints out.old.items (λ more. codes ")" ∷ codes ";" ∷ more) out.new.items) }
{
    print_word(out, b")")?;
    print_word(out, b";")
}

pub fn print_number(alloc: Global, out: &mut Vec<u8>, number: u32) -> Result<(), AllocError>
    ensures { IfOk result (λ _. Prints out.old.items (λ more. decimal number ∷ more) out.new.items) }
{
    let text = format!(in alloc; "{number}")?;
    print_word(out, text.as_bytes())
}

pub fn print_name(out: &mut Vec<u8>, name: &Name) -> Result<(), AllocError>
    ensures { IfOk result (λ _. Prints out.old.items (λ more. name.now.text ∷ more) out.new.items) }
{
    print_word(out, name.text.as_slice())
}

pub fn print_left(out: &mut Vec<u8>, left: &LeftValue) -> Result<(), AllocError>
    ensures { IfOk result (λ _. Prints out.old.items (left_words (left_of left.now)) out.new.items) }
{
    print_name(out, &left.name)?;
    print_fields(out, left.fields.as_slice())
}

fn print_fields(out: &mut Vec<u8>, fields: &[Name]) -> Result<(), AllocError>
    ensures { IfOk result (λ _. Prints out.old.items (field_words fields.now) out.new.items) }
{
    for field in fields {
        print_word(out, b"->")?;
        print_name(out, field)?;
    }
    Ok(())
}
