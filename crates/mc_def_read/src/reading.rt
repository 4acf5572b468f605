// Definitions, from their texts.
ghost use Rattle.mc_def_read.specs.Readings.{ReadsAs, IsFault, place_of, syntax_fault};
ghost use Rattle.mc_def_read.specs.Judging.{Judged, judged, Finds};
ghost use Rattle.mc_def_parse.specs.Grammar.{IsFile};
ghost use Rattle.mc_def_parse.specs.declared.tree.DefText.{DefText};
ghost use Rattle.mc_c_syntax.specs.Ast.Names.{Tokens};
ghost use Rattle.mc_flow.specs.Defs.Conditions.{DefsFit};
ghost use Rattle.mc_flow.specs.declared.defs.rules.Def.{Def as OneDef};
ghost use Rattle.mc_flow.specs.declared.defs.shapes.StructInfo.{StructInfo};
ghost use Rattle.mc_c_syntax.specs.Lex.Readings.{Lexes, EndsOnce};
ghost use Rattle.std.specs.Prelude.{◌≡◌, ◌≤◌, List, ℕ, length, IfOk, MatchResult};

use crate::judged::judge;
use mc_base::text::{Place, Token};
use mc_c_syntax::lex::{LexFault, MAX_BYTES};
use mc_def_parse::{Cause, DefFault, DefText, Refusal, parse};
use mc_flow::defs::{Defs, Structs};
use std::alloc::Global;

fn place_of(fault: LexFault) -> Option<Place>
    ensures { result ≡ place_of fault }
{
    match fault {
        LexFault::BadByte(place) => Some(place),
        LexFault::OpenComment(place) => Some(place),
        LexFault::BadNumber(place) => Some(place),
        LexFault::NoMemory => None,
    }
}

// What a fault of bytes is known as.
fn of_lexical(fault: LexFault) -> DefFault
    ensures { result ≡ syntax_fault (place_of fault) }
{
    match place_of(fault) {
        None => DefFault::NoMemory,
        Some(place) => DefFault::Refused(Refusal {
            cause: Cause::Syntax,
            place,
        }),
    }
}

// The tokens of a text.
fn tokens(alloc: Global, text: &[u8]) -> Result<Vec<Token>, DefFault>
    requires { length text.now ≤ MAX_BYTES }
    ensures read { MatchResult result (λ tokens. Lexes text.now (Ok tokens.items))
        (λ fault. (structs : List StructInfo) → IsFault text.now structs fault) }
    ensures end { IfOk result (λ tokens. EndsOnce tokens.items) }
{
    match mc_c_syntax::lex::lex(alloc, text) {
        Ok(tokens) => Ok(tokens),
        Err(fault) => Err(of_lexical(fault)),
    }
}

// What a file says of structs fits them.
fn files_fit()
    ensures { (structs : List StructInfo) (file : List DefText) (tokens : Tokens) (defs : List OneDef)
        → IsFile file tokens → judged structs file ≡ Ok defs → DefsFit structs defs }
{}

// The definitions of a file.
fn definitions(alloc: Global, structs: &Structs, file: &[DefText]) -> Result<Defs, DefFault>
    requires { (tokens : Tokens) × IsFile file.now tokens }
    ensures found { Finds (judged structs.now.list file.now) (λ defs. defs) result }
    ensures fit { IfOk result (λ defs. DefsFit structs.now.list defs) }
{
    files_fit();
    let list = judge(alloc, structs.list.as_slice(), file)?;
    Ok(Defs::fitting(structs, list))
}

/// The definitions of a text over a program's structs, or the first thing that is wrong with it: a byte that starts no
/// token before all others, any other token that no definition file can have there before the other faults, and these in
/// the order of the text.
pub fn read_defs(alloc: Global, bytes: &[u8], structs: &Structs) -> Result<Defs, DefFault>
    requires { length bytes.now ≤ MAX_BYTES }
    ensures read { MatchResult result (λ defs. ReadsAs bytes.now structs.now.list (Ok defs))
        (λ fault. IsFault bytes.now structs.now.list fault) }
    ensures fit { IfOk result (λ defs. DefsFit structs.now.list defs) }
{
    let tokens = tokens(alloc, bytes)?;
    let file = parse(alloc, &tokens)?;
    definitions(alloc, structs, file.as_slice())
}

/// A text is read as one thing, definitions or a fault, and nothing else.
pub fn texts_are_read_once()
    ensures { (text : List ℕ) (structs : List StructInfo) (one other : Judged (List OneDef))
        → ReadsAs text structs one → ReadsAs text structs other → one ≡ other }
{
    mc_c_syntax::lex::readings_are_unique();
}
