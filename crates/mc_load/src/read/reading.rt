// Programs, from their texts.
ghost use Rattle.mc_c_syntax.specs.Ast.Views.{unit_of};
ghost use Rattle.mc_c_syntax.specs.Lex.Readings.{Lexes, EndsOnce};
ghost use Rattle.mc_load.specs.Read.Programs.{IsReadAs, IsProgramOf};
ghost use Rattle.mc_load.specs.Read.Refusals.{IsFault};
ghost use Rattle.std.specs.Prelude.{◌≡◌, ◌≤◌, List, ℕ, length, IfOk, IfErr, MatchResult};

use crate::read::cause::{of_grammatical, of_lexical};
use crate::read::{ReadFault, Refusal};
use mc_base::text::Token;
use mc_c_check::{Typed, check_types};
use mc_c_grammar::numbers::numbers_are_small;
use mc_c_grammar::places::{ascending_places_differ, declared_places_ascend};
use mc_c_syntax::ast::Unit;
use mc_c_syntax::lex::MAX_BYTES;
use mc_c_types::TypeFault;
use std::alloc::Global;

// The tokens of a text.
fn tokens(alloc: Global, text: &[u8]) -> Result<Vec<Token>, ReadFault>
    requires { length text.now ≤ MAX_BYTES }
    ensures read { MatchResult result (λ tokens. Lexes text.now (Ok tokens.items))
        (λ fault. (entry : List ℕ) → IsFault text.now entry fault) }
    ensures end { IfOk result (λ tokens. EndsOnce tokens.items) }
{
    match mc_c_syntax::lex::lex(alloc, text) {
        Ok(tokens) => Ok(tokens),
        Err(fault) => Err(of_lexical(fault)),
    }
}

// The tree that a text spells.
fn unit(alloc: Global, text: &[u8]) -> Result<Unit, ReadFault>
    requires { length text.now ≤ MAX_BYTES }
    ensures { MatchResult result (λ unit. IsReadAs text.now (unit_of unit)) (λ fault. (entry : List ℕ) → IsFault text.now entry fault) }
{
    let tokens = tokens(alloc, text)?;
    match mc_c_parse::parse(alloc, &tokens) {
        Ok(unit) => Ok(unit),
        Err(fault) => Err(of_grammatical(fault)),
    }
}

/// The program of a text, which is well typed for its entry, or the first thing that is wrong with it.
pub fn read(alloc: Global, text: &[u8], entry: &[u8]) -> Result<Typed, ReadFault>
    requires { length text.now ≤ MAX_BYTES }
    ensures read { MatchResult result (λ typed. IsProgramOf text.now entry.now (unit_of typed.unit)) (IsFault text.now entry.now) }
    ensures entry { IfOk result (λ typed. typed.entry ≡ entry.now) }
{
    numbers_are_small();
    declared_places_ascend();
    ascending_places_differ();
    let unit = unit(alloc, text)?;
    match check_types(alloc, unit, entry) {
        Ok(typed) => Ok(typed),
        Err(TypeFault::Refused(fault)) => Err(ReadFault::Refused(Refusal::of_typing(fault))),
        Err(TypeFault::NoMemory) => Err(ReadFault::NoMemory),
    }
}
