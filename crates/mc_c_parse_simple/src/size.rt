// Reads what `malloc` is given.
ghost use Rattle.std.specs.Prelude.{◌≡◌, ℕ, List, IfOk};
ghost use Rattle.mc_c_syntax.specs.Ast.Classes.{IsClass};
ghost use Rattle.mc_c_syntax.specs.Ast.Names.{is_in};
ghost use Rattle.mc_c_parse_simple.specs.Sizes.{Sizes, BehindSizeof, BehindParens, BehindType, BehindParensStar, BehindStar, ClosingSize, CompletesSize, IsSizeStep};
ghost use Rattle.mc_c_parse_simple.specs.Bases.{CompletesBase};
ghost use Rattle.mc_c_parse_expr.specs.Turns.{InTurn};

use crate::base::{BaseReader, BaseStep};
use mc_base::text::{Place, Token};
use mc_c_syntax::ast::{Class, Size, name_at};
use std::alloc::{AllocError, Global};

/// Reads `sizeof(struct S)`, `sizeof(*p)` or `sizeof *p`. Each place is that of `sizeof`.
#[derive(Drop)]
pub enum SizeReader {
    Start,
    /// After `sizeof`.
    Sizeof(Place),
    /// After `sizeof (`.
    Parens(Place),
    /// In the base after `sizeof (`.
    Base(Place, BaseReader),
    /// After `sizeof (*`.
    ParensStar(Place),
    /// After `sizeof *`.
    Star(Place),
    /// At the `)`.
    Close(Size),
}

/// What a token does to a size.
#[derive(Drop)]
pub enum SizeStep {
    Taken(SizeReader),
    Closed(Size),
    Stuck,
}

impl SizeReader {
    /// Takes a token. `alias` says whether a typedef introduced it.
    pub fn step(
        self,
        alloc: Global,
        token: &Token,
        class: Class,
        alias: bool,
    ) -> Result<SizeStep, AllocError>
        requires { IsClass token.now class }
        ensures { (aliases : List (List ℕ)) → is_in aliases token.now.text ≡ alias
            → IfOk result (IsSizeStep aliases (CompletesSize aliases self) token.now) }
    {
        match self {
            SizeReader::Start => Ok(start(token, class)),
            SizeReader::Sizeof(place) => Ok(behind_sizeof(place, token, class)),
            SizeReader::Parens(place) => behind_parens(alloc, place, token, class, alias),
            SizeReader::Base(place, base) => in_base(alloc, place, base, token, class, alias),
            SizeReader::ParensStar(place) => behind_parens_star(alloc, place, token, class),
            SizeReader::Star(place) => behind_star(alloc, place, token, class),
            SizeReader::Close(size) => Ok(close(size, token, class)),
        }
    }
}

fn start(token: &Token, class: Class) -> SizeStep
    requires { IsClass token.now class }
    ensures { (aliases : List (List ℕ)) → IsSizeStep aliases (Sizes aliases) token.now result }
{
    match class {
        Class::Sizeof => SizeStep::Taken(SizeReader::Sizeof(token.place)),
        _ => SizeStep::Stuck,
    }
}

fn behind_sizeof(place: Place, token: &Token, class: Class) -> SizeStep
    requires { IsClass token.now class }
    ensures { (aliases : List (List ℕ)) → IsSizeStep aliases (BehindSizeof aliases place) token.now result }
{
    match class {
        Class::OpenParen => SizeStep::Taken(SizeReader::Parens(place)),
        Class::Star => SizeStep::Taken(SizeReader::Star(place)),
        _ => SizeStep::Stuck,
    }
}

fn behind_parens(
    alloc: Global,
    place: Place,
    token: &Token,
    class: Class,
    alias: bool,
) -> Result<SizeStep, AllocError>
    requires { IsClass token.now class }
    ensures { (aliases : List (List ℕ)) → is_in aliases token.now.text ≡ alias
        → IfOk result (IsSizeStep aliases (BehindParens aliases place) token.now) }
{
    match class {
        Class::Star => Ok(SizeStep::Taken(SizeReader::ParensStar(place))),
        _ => {
            let step = in_base(alloc, place, BaseReader::Start, token, class, alias)?;
            Ok(step)
        }
    }
}

fn in_base(
    alloc: Global,
    place: Place,
    base: BaseReader,
    token: &Token,
    class: Class,
    alias: bool,
) -> Result<SizeStep, AllocError>
    requires { IsClass token.now class }
    ensures { (aliases : List (List ℕ)) → is_in aliases token.now.text ≡ alias
        → IfOk result (IsSizeStep aliases (InTurn (CompletesBase aliases base) (BehindType place)) token.now) }
{
    match base.step(alloc, token, class, alias)? {
        BaseStep::Taken(base) => Ok(SizeStep::Taken(SizeReader::Base(place, base))),
        BaseStep::Closed(base) => Ok(SizeStep::Taken(SizeReader::Close(Size::OfType(place, base)))),
        BaseStep::Stuck => Ok(SizeStep::Stuck),
    }
}

fn behind_parens_star(
    alloc: Global,
    place: Place,
    token: &Token,
    class: Class,
) -> Result<SizeStep, AllocError>
    requires { IsClass token.now class }
    ensures { (aliases : List (List ℕ)) → IfOk result (IsSizeStep aliases (BehindParensStar place) token.now) }
{
    match class {
        Class::Name => {
            let name = name_at(alloc, token)?;
            Ok(SizeStep::Taken(SizeReader::Close(Size::OfParens(place, name))))
        }
        _ => Ok(SizeStep::Stuck),
    }
}

fn behind_star(
    alloc: Global,
    place: Place,
    token: &Token,
    class: Class,
) -> Result<SizeStep, AllocError>
    requires { IsClass token.now class }
    ensures { (aliases : List (List ℕ)) → IfOk result (IsSizeStep aliases (BehindStar place) token.now) }
{
    match class {
        Class::Name => {
            let name = name_at(alloc, token)?;
            Ok(SizeStep::Closed(Size::OfValue(place, name)))
        }
        _ => Ok(SizeStep::Stuck),
    }
}

fn close(size: Size, token: &Token, class: Class) -> SizeStep
    requires { IsClass token.now class }
    ensures { (aliases : List (List ℕ)) → IsSizeStep aliases (ClosingSize size) token.now result }
{
    match class {
        Class::CloseParen => SizeStep::Closed(size),
        _ => SizeStep::Stuck,
    }
}
