// How structs and typedefs are printed.
ghost use Rattle.mc_c_syntax.specs.Ast.Views.{aliased_of, field_of, struct_of, typedef_of};
ghost use Rattle.mc_c_grammar.specs.Spelling.Words.{Prints, aliased_words, all_words, declarator_words, field_list_words, listed_words, more_words, struct_words, typedef_words};
ghost use Rattle.std.specs.Prelude.{◌∷◌, IfOk, codes, map};

use crate::spelling::print_right::{print_base, print_declarator};
use crate::spelling::print_word::{print_name, print_word};
use mc_c_syntax::ast::{Aliased, Declarator, Field, Struct, Typedef};
use std::alloc::AllocError;

/// Prints declarators, with a `,` between each two, and a `;`.
fn print_declarators(out: &mut Vec<u8>, declarators: &[Declarator]) -> Result<(), AllocError>
    ensures { IfOk result
        (λ _. Prints out.old.items
        (λ more. listed_words declarator_words declarators.now (codes ";" ∷ more)) out.new.items) }
{
    if let [first, rest @ ..] = declarators {
        print_declarator(out, first)?;
        print_more_declarators(out, rest)?;
    }
    print_word(out, b";")
}

fn print_more_declarators(out: &mut Vec<u8>, declarators: &[Declarator]) -> Result<(), AllocError>
    ensures { IfOk result (λ _. Prints out.old.items (more_words declarator_words declarators.now) out.new.items) }
{
    for declarator in declarators {
        print_word(out, b",")?;
        print_declarator(out, declarator)?;
    }
    Ok(())
}

fn print_field_list(out: &mut Vec<u8>, field: &Field) -> Result<(), AllocError>
    ensures { IfOk result (λ _. Prints out.old.items (field_list_words (field_of field.now)) out.new.items) }
{
    print_base(out, &field.base)?;
    print_declarators(out, field.declarators.as_slice())
}

fn print_field_lists(out: &mut Vec<u8>, fields: &[Field]) -> Result<(), AllocError>
    ensures { IfOk result (λ _. Prints out.old.items (all_words field_list_words (map field_of fields.now)) out.new.items) }
{
    for field in fields {
        print_field_list(out, field)?;
    }
    Ok(())
}

pub fn print_struct(out: &mut Vec<u8>, structure: &Struct) -> Result<(), AllocError>
    ensures { IfOk result (λ _. Prints out.old.items (struct_words (struct_of structure.now)) out.new.items) }
{
    print_word(out, b"struct")?;
    print_name(out, &structure.name)?;
    print_braces(out, structure.fields.as_slice())
}

// Prints fields in braces.
fn print_braces(out: &mut Vec<u8>, fields: &[Field]) -> Result<(), AllocError>
    ensures { IfOk result (λ _. Prints out.old.items
        (λ more. codes "{" ∷ all_words field_list_words (map field_of fields.now) (codes "}"
        ∷ more)) out.new.items) }
{
    print_word(out, b"{")?;
    print_field_lists(out, fields)?;
    print_word(out, b"}")
}

fn print_aliased(out: &mut Vec<u8>, aliased: &Aliased) -> Result<(), AllocError>
    ensures { IfOk result (λ _. Prints out.old.items (aliased_words (aliased_of aliased.now)) out.new.items) }
{
    match aliased {
        Aliased::Base(base) => print_base(out, base)?,
        Aliased::Struct(structure) => print_struct(out, structure)?,
    }
    Ok(())
}

pub fn print_typedef(out: &mut Vec<u8>, typedef: &Typedef) -> Result<(), AllocError>
    ensures { IfOk result (λ _. Prints out.old.items (typedef_words (typedef_of typedef.now)) out.new.items) }
{
    print_word(out, b"typedef")?;
    print_aliased(out, &typedef.aliased)?;
    print_declarators(out, typedef.declarators.as_slice())
}
