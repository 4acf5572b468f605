// How functions and programs are printed.
ghost use Rattle.mc_c_syntax.specs.Ast.Trees.{stmts_of};
ghost use Rattle.mc_c_syntax.specs.Ast.Views.{body_of, function_of, item_of, parameters_of, statement_of, unit_of};
ghost use Rattle.mc_c_grammar.specs.Spelling.Words.{Prints, all_words, body_words, static_words, function_words, item_words};
ghost use Rattle.mc_c_grammar.specs.Spelling.Words.{listed_words, more_words, parameter_words, parameters_words, returned_words};
ghost use Rattle.mc_c_grammar.specs.Spelling.Words.{statements_words, text_of, unit_words};
ghost use Rattle.std.specs.Option.{option_map};
ghost use Rattle.std.specs.Prelude.{◌≡◌, ◌∷◌, [], IfOk, codes, map};

use crate::spelling::print_right::{print_base, print_declarator, print_star};
use crate::spelling::print_statement::print_statements;
use crate::spelling::print_struct::{print_struct, print_typedef};
use crate::spelling::print_word::{print_name, print_opening, print_word};
use mc_base::text::Place;
use mc_c_syntax::ast::{Body, Function, Item, Parameter, Parameters, Returned, Unit};
use std::alloc::{AllocError, Global};

/// The text of a program: its words, each with a blank after it, or with a line feed after a `;`, a `{` and a `}`.
pub fn print_unit(alloc: Global, unit: &Unit) -> Result<Vec<u8>, AllocError>
    ensures { IfOk result (λ text. text.items ≡ text_of (unit_words (unit_of unit.now) [])) }
{
    let mut out = Vec::new(alloc);
    print_items(alloc, &mut out, unit.items.as_slice())?;
    Ok(out)
}

fn print_items(alloc: Global, out: &mut Vec<u8>, items: &[Item]) -> Result<(), AllocError>
    ensures { IfOk result (λ _. Prints out.old.items (all_words item_words (map item_of items.now)) out.new.items) }
{
    for item in items {
        print_item(alloc, out, item)?;
    }
    Ok(())
}

fn print_item(alloc: Global, out: &mut Vec<u8>, item: &Item) -> Result<(), AllocError>
    ensures { IfOk result (λ _. Prints out.old.items (item_words (item_of item.now)) out.new.items) }
{
    match item {
        Item::Struct(structure) => {
            print_struct(out, structure)?;
            print_word(out, b";")?;
        }
        Item::Typedef(typedef) => print_typedef(out, typedef)?,
        Item::Function(function) => print_function(alloc, out, function)?,
    }
    Ok(())
}

fn print_function(alloc: Global, out: &mut Vec<u8>, function: &Function) -> Result<(), AllocError>
    ensures { IfOk result (λ _. Prints out.old.items (function_words (function_of function.now)) out.new.items) }
{
    print_static(out, &function.static_place)?;
    print_returned(out, &function.returned)?;
    print_signature(alloc, out, function)
}

// The name, the parameters and the body.
fn print_signature(alloc: Global, out: &mut Vec<u8>, function: &Function) -> Result<(), AllocError>
    ensures { IfOk result (λ _. Prints out.old.items (λ more. function.now.name.text
        ∷ codes "(" ∷ parameters_words (parameters_of function.now.parameters) (codes ")"
        ∷ body_words (option_map body_of function.now.body) more)) out.new.items) }
{
    print_opening(out, function.name.text.as_slice())?;
    print_parameters(out, &function.parameters)?;
    print_word(out, b")")?;
    print_body(alloc, out, &function.body)
}

fn print_static(out: &mut Vec<u8>, static_place: &Option<Place>) -> Result<(), AllocError>
    ensures { IfOk result (λ _. Prints out.old.items (static_words static_place.now) out.new.items) }
{
    match static_place {
        Some(_) => print_word(out, b"static")?,
        None => {}
    }
    Ok(())
}

fn print_returned(out: &mut Vec<u8>, returned: &Returned) -> Result<(), AllocError>
    ensures { IfOk result (λ _. Prints out.old.items (returned_words returned.now) out.new.items) }
{
    match returned {
        Returned::Void(_) => print_word(out, b"void")?,
        Returned::Value(base, pointer) => {
            print_base(out, base)?;
            print_star(out, pointer)?;
        }
    }
    Ok(())
}

fn print_parameters(out: &mut Vec<u8>, parameters: &Parameters) -> Result<(), AllocError>
    ensures { IfOk result (λ _. Prints out.old.items (parameters_words (parameters_of parameters.now)) out.new.items) }
{
    match parameters {
        Parameters::Empty => {}
        Parameters::Void(_) => print_word(out, b"void")?,
        Parameters::Listed(listed) => print_listed(out, listed.as_slice())?,
    }
    Ok(())
}

fn print_listed(out: &mut Vec<u8>, parameters: &[Parameter]) -> Result<(), AllocError>
    ensures { IfOk result (λ _. Prints out.old.items (listed_words parameter_words parameters.now) out.new.items) }
{
    let [first, rest @ ..] = parameters else {
        return Ok(());
    };
    print_parameter(out, first)?;
    print_more_parameters(out, rest)
}

fn print_more_parameters(out: &mut Vec<u8>, parameters: &[Parameter]) -> Result<(), AllocError>
    ensures { IfOk result (λ _. Prints out.old.items (more_words parameter_words parameters.now) out.new.items) }
{
    for parameter in parameters {
        print_word(out, b",")?;
        print_parameter(out, parameter)?;
    }
    Ok(())
}

fn print_parameter(out: &mut Vec<u8>, parameter: &Parameter) -> Result<(), AllocError>
    ensures { IfOk result (λ _. Prints out.old.items (parameter_words parameter.now) out.new.items) }
{
    print_base(out, &parameter.base)?;
    print_declarator(out, &parameter.declarator)
}

fn print_body(alloc: Global, out: &mut Vec<u8>, body: &Option<Body>) -> Result<(), AllocError>
    ensures { IfOk result (λ _. Prints out.old.items (body_words (option_map body_of body.now)) out.new.items) }
{
    match body {
        Some(body) => {
            print_word(out, b"{")?;
            print_statements(alloc, out, body.statements.as_slice())?;
            print_word(out, b"}")?;
        }
        None => print_word(out, b";")?,
    }
    Ok(())
}
