// A reader of declarations and simple statements.
ghost use Rattle.std.specs.Prelude.{◌≡◌, ℕ, List, IfOk};
ghost use Rattle.mc_c_syntax.specs.Ast.Classes.{IsClass};
ghost use Rattle.mc_c_syntax.specs.Ast.Names.{IsName, is_in};
ghost use Rattle.mc_c_syntax.specs.Ast.Readers.{IsSame};
ghost use Rattle.mc_c_syntax.specs.Ast.Views.{simple_of};
ghost use Rattle.mc_c_syntax.specs.declared.ast.trees.Base.TheVariants as Base;
ghost use Rattle.mc_c_parse_simple.specs.Declarations.{BehindBase, CompletesDeclaration};
ghost use Rattle.mc_c_parse_simple.specs.Simples.{CompletesSimple};
ghost use Rattle.mc_c_parse_simple.specs.declared.simple.SimpleReader.{SimpleReader};
ghost use Rattle.mc_c_parse_body.specs.declared.known.TypeName.{TypeName};
ghost use Rattle.mc_c_parse_body.specs.declared.line.LineReader.TheVariants as LineReader;
ghost use Rattle.mc_c_parse_body.specs.Lines.{BehindSimple, CompletesLine, DeclarationLine, IsLineStep, SimpleLine};
ghost use Rattle.mc_c_parse_body.specs.Phrases.{Starts};

use crate::known::TypeName;
use mc_base::text::{Place, Token};
use mc_c_parse_simple::{DeclarationReader, DeclarationStep, SimpleReader, SimpleStep};
use mc_c_syntax::ast::{Base, Class, ForStart, Name, Simple, name_at};
use std::alloc::{AllocError, Global};
use std::mem;

/// Reads a declaration, or a simple statement with its `;`, or a `;` alone, token by token. The readers within stand in boxes.
#[derive(Drop)]
pub enum LineReader {
    /// Nothing is read.
    Start,
    /// After `struct`.
    Struct(Place),
    /// After a name that a typedef introduced.
    Alias(TypeName),
    Declaration(Box<DeclarationReader>),
    Simple(Box<SimpleReader>),
}

/// What a reader does with a token.
#[derive(Drop)]
pub enum LineStep {
    /// It takes it.
    Taken,
    /// The line ends with the token.
    Closed(ForStart),
    /// No text has this token here.
    Stuck,
}

impl LineReader {
    /// Takes a token, or answers why not.
    pub fn step(
        &mut self,
        alloc: Global,
        token: &Token,
        class: Class,
        alias: bool,
    ) -> Result<LineStep, AllocError>
        requires { IsClass token.now class }
        ensures { (aliases : List (List ℕ)) → is_in aliases token.now.text ≡ alias
            → IfOk result (IsLineStep (CompletesLine aliases self.old) (CompletesLine aliases self.new) token.now) }
    {
        match self {
            LineReader::Start => at_line(self, alloc, token, class, alias),
            LineReader::Struct(place) => {
                let place = *place;
                behind_struct(self, alloc, place, token, class)
            }
            LineReader::Alias(_) => behind_alias(self, alloc, token, class, alias),
            LineReader::Declaration(inner) => in_declaration(inner, token, class, alias),
            LineReader::Simple(inner) => in_simple(inner, token, class, alias),
        }
    }
}

/// The first token of a line.
fn at_line(
    line: &mut LineReader,
    alloc: Global,
    token: &Token,
    class: Class,
    alias: bool,
) -> Result<LineStep, AllocError>
    requires { IsClass token.now class }
    ensures { (aliases : List (List ℕ)) → is_in aliases token.now.text ≡ alias
        → IfOk result (IsLineStep (Starts aliases) (CompletesLine aliases line.new) token.now) }
{
    match class {
        Class::Semicolon => Ok(LineStep::Closed(ForStart::Nothing)),
        Class::Int => {
            *line = declaring(alloc, Base::Int(token.place))?;
            Ok(LineStep::Taken)
        }
        Class::Struct => {
            *line = LineReader::Struct(token.place);
            Ok(LineStep::Taken)
        }
        Class::Name => at_name(line, alloc, token, alias),
        _ => perform(line, alloc, SimpleReader::new(alloc), token, class, alias),
    }
}

/// A reader of a declaration after its base.
fn declaring(alloc: Global, base: Base) -> Result<LineReader, AllocError>
    ensures { IfOk result (λ line. (aliases : List (List ℕ))
        → IsSame (CompletesLine aliases line) (DeclarationLine (BehindBase aliases base))) }
{
    let fresh = DeclarationReader::behind_base(alloc, base);
    let reader = Box::new(alloc, fresh)?;
    Ok(LineReader::Declaration(reader))
}

/// A reader of the rest of a simple statement.
fn performing(alloc: Global, fresh: SimpleReader) -> Result<LineReader, AllocError>
    ensures { IfOk result (λ line. (aliases : List (List ℕ))
        → IsSame (CompletesLine aliases line) (SimpleLine (CompletesSimple aliases fresh))) }
{
    let reader = Box::new(alloc, fresh)?;
    Ok(LineReader::Simple(reader))
}

/// A name with which a line begins.
fn at_name(
    line: &mut LineReader,
    alloc: Global,
    token: &Token,
    alias: bool,
) -> Result<LineStep, AllocError>
    requires { IsName token.now }
    ensures { (aliases : List (List ℕ)) → is_in aliases token.now.text ≡ alias
        → IfOk result (IsLineStep (Starts aliases) (CompletesLine aliases line.new) token.now) }
{
    let name = name_at(alloc, token)?;
    if alias {
        *line = LineReader::Alias(TypeName { name });
        Ok(LineStep::Taken)
    } else {
        *line = performing(alloc, SimpleReader::behind_name(alloc, name))?;
        Ok(LineStep::Taken)
    }
}

/// After `struct`.
fn behind_struct(
    line: &mut LineReader,
    alloc: Global,
    place: Place,
    token: &Token,
    class: Class,
) -> Result<LineStep, AllocError>
    requires { IsClass token.now class }
    ensures { (aliases : List (List ℕ))
        → IfOk result (IsLineStep (CompletesLine aliases (LineReader.Struct place))
        (CompletesLine aliases line.new) token.now) }
{
    match class {
        Class::Name => {
            let name = name_at(alloc, token)?;
            *line = declaring(alloc, Base::Struct(place, name))?;
            Ok(LineStep::Taken)
        }
        _ => Ok(LineStep::Stuck),
    }
}

/// After a name that a typedef introduced.
fn behind_alias(
    line: &mut LineReader,
    alloc: Global,
    token: &Token,
    class: Class,
    alias: bool,
) -> Result<LineStep, AllocError>
    requires { IsClass token.now class }
    ensures { (known : TypeName) → line.old ≡ LineReader.Alias known → (aliases : List (List ℕ))
        → is_in aliases token.now.text ≡ alias
        → IfOk result (IsLineStep (CompletesLine aliases line.old) (CompletesLine aliases line.new) token.now) }
{
    match mem::replace(line, LineReader::Start) {
        LineReader::Alias(known) => behind_known(line, alloc, known, token, class, alias),
        _ => Ok(LineStep::Stuck),
    }
}

/// The same: a `*` or a name goes on with a declaration, all else with a simple statement.
fn behind_known(
    line: &mut LineReader,
    alloc: Global,
    known: TypeName,
    token: &Token,
    class: Class,
    alias: bool,
) -> Result<LineStep, AllocError>
    requires { IsClass token.now class }
    ensures { (aliases : List (List ℕ)) → is_in aliases token.now.text ≡ alias
        → IfOk result (IsLineStep (CompletesLine aliases (LineReader.Alias known))
        (CompletesLine aliases line.new) token.now) }
{
    match class {
        Class::Name => declare(line, alloc, known.name, token, class, alias),
        Class::Star => declare(line, alloc, known.name, token, class, alias),
        _ => {
            let reader = SimpleReader::behind_name(alloc, known.name);
            perform(line, alloc, reader, token, class, alias)
        }
    }
}

/// After the name of a type with which a declaration begins.
fn declare(
    line: &mut LineReader,
    alloc: Global,
    name: Name,
    token: &Token,
    class: Class,
    alias: bool,
) -> Result<LineStep, AllocError>
    requires { IsClass token.now class }
    ensures { (aliases : List (List ℕ)) → is_in aliases token.now.text ≡ alias
        → IfOk result (IsLineStep (DeclarationLine (BehindBase aliases (Base.Alias name))) (CompletesLine aliases line.new) token.now) }
{
    let fresh = DeclarationReader::behind_base(alloc, Base::Alias(name));
    let mut reader = Box::new(alloc, fresh)?;
    let step = in_declaration(&mut reader, token, class, alias)?;
    *line = LineReader::Declaration(reader);
    Ok(step)
}

/// Where this reader goes on with a simple statement.
fn perform(
    line: &mut LineReader,
    alloc: Global,
    reader: SimpleReader,
    token: &Token,
    class: Class,
    alias: bool,
) -> Result<LineStep, AllocError>
    requires { IsClass token.now class }
    ensures { (aliases : List (List ℕ)) → is_in aliases token.now.text ≡ alias
        → IfOk result (IsLineStep (SimpleLine (CompletesSimple aliases reader))
        (CompletesLine aliases line.new) token.now) }
{
    let mut reader = Box::new(alloc, reader)?;
    let step = in_simple(&mut reader, token, class, alias)?;
    *line = LineReader::Simple(reader);
    Ok(step)
}

/// Within a declaration.
fn in_declaration(
    reader: &mut DeclarationReader,
    token: &Token,
    class: Class,
    alias: bool,
) -> Result<LineStep, AllocError>
    requires { IsClass token.now class }
    ensures { (aliases : List (List ℕ)) → is_in aliases token.now.text ≡ alias
        → IfOk result (IsLineStep (DeclarationLine (CompletesDeclaration aliases reader.old))
        (DeclarationLine (CompletesDeclaration aliases reader.new)) token.now) }
{
    let step = reader.step(token, class, alias)?;
    match step {
        DeclarationStep::Taken => Ok(LineStep::Taken),
        DeclarationStep::Closed(declaration) => Ok(LineStep::Closed(ForStart::Declaration(
            declaration,
        ))),
        DeclarationStep::Stuck => Ok(LineStep::Stuck),
    }
}

/// Within a simple statement.
fn in_simple(
    reader: &mut SimpleReader,
    token: &Token,
    class: Class,
    alias: bool,
) -> Result<LineStep, AllocError>
    requires { IsClass token.now class }
    ensures { (aliases : List (List ℕ)) → is_in aliases token.now.text ≡ alias
        → IfOk result (IsLineStep (SimpleLine (CompletesSimple aliases reader.old))
        (SimpleLine (CompletesSimple aliases reader.new)) token.now) }
{
    let step = reader.step(token, class, alias)?;
    match step {
        SimpleStep::Taken => Ok(LineStep::Taken),
        SimpleStep::Found(simple) => Ok(behind_simple(simple, token, class)),
        SimpleStep::Stuck => Ok(LineStep::Stuck),
    }
}

/// After a simple statement, at its `;`.
fn behind_simple(simple: Simple, token: &Token, class: Class) -> LineStep
    requires { IsClass token.now class }
    ensures { (aliases : List (List ℕ)) (reader : SimpleReader)
        → IsLineStep (BehindSimple (simple_of simple))
        (SimpleLine (CompletesSimple aliases reader)) token.now result }
{
    match class {
        Class::Semicolon => LineStep::Closed(ForStart::Simple(simple)),
        _ => LineStep::Stuck,
    }
}
