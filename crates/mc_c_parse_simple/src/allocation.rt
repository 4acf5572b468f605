// Reads `malloc(..)`, perhaps after a cast.
ghost use Rattle.std.specs.Prelude.{◌≡◌, ℕ, List, IfOk};
ghost use Rattle.mc_c_syntax.specs.Ast.Classes.{IsClass};
ghost use Rattle.mc_c_syntax.specs.Ast.Names.{is_in};
ghost use Rattle.mc_c_parse_expr.specs.Turns.{InTurn};
ghost use Rattle.mc_c_parse_simple.specs.Bases.{CompletesBase};
ghost use Rattle.mc_c_parse_simple.specs.Sizes.{CompletesSize};
ghost use Rattle.mc_c_parse_simple.specs.Allocations.{ClosingMalloc, BehindSize, BehindMalloc, BehindCast, ClosingCast, BehindCastBase, CompletesAllocation, IsAllocationStep};

use crate::base::{BaseReader, BaseStep};
use crate::size::{SizeReader, SizeStep};
use mc_base::text::{Place, Token};
use mc_c_syntax::ast::{Base, Cast, Class, Malloc};
use std::alloc::{AllocError, Global};

/// Reads `malloc(..)`, perhaps after a cast.
pub enum AllocationReader {
    /// In the base after the `(` of a cast.
    Base(Place, BaseReader),
    /// After the base of a cast.
    CastBase(Place, Base),
    /// At the `)` of a cast.
    CastEnd(Cast),
    /// After a cast.
    Cast(Cast),
    /// After `malloc`.
    Malloc(Option<Cast>, Place),
    /// In the size.
    Size(Option<Cast>, Place, SizeReader),
    /// At the last `)`.
    Close(Malloc),
}

/// Drops what is read. What holds a reader calls this.
impl Drop for AllocationReader {
    fn drop(self) {
        match self {
            AllocationReader::Base(_, reader) => drop(reader),
            AllocationReader::CastBase(_, base) => drop(base),
            AllocationReader::CastEnd(cast) => drop(cast),
            AllocationReader::Cast(cast) => drop(cast),
            AllocationReader::Malloc(cast, _) => drop(cast),
            AllocationReader::Size(cast, _, size) => {
                drop(cast);
                drop(size);
            }
            AllocationReader::Close(malloc) => drop(malloc),
        }
    }
}

/// What a token does to an allocation.
#[derive(Drop)]
pub enum AllocationStep {
    Taken(AllocationReader),
    Closed(Malloc),
    Stuck,
}

impl AllocationReader {
    /// Takes a token. `alias` says whether a typedef introduced it.
    pub fn step(
        self,
        alloc: Global,
        token: &Token,
        class: Class,
        alias: bool,
    ) -> Result<AllocationStep, AllocError>
        requires { IsClass token.now class }
        ensures { (aliases : List (List ℕ)) → is_in aliases token.now.text ≡ alias
            → IfOk result (IsAllocationStep aliases (CompletesAllocation aliases self) token.now) }
    {
        match self {
            AllocationReader::Base(place, base) => in_base(alloc, place, base, token, class, alias),
            AllocationReader::CastBase(place, base) => Ok(behind_base(place, base, token, class)),
            AllocationReader::CastEnd(cast) => Ok(cast_end(cast, token, class)),
            AllocationReader::Cast(cast) => Ok(behind_cast(cast, token, class)),
            AllocationReader::Malloc(cast, place) => Ok(behind_malloc(cast, place, token, class)),
            AllocationReader::Size(cast, place, size) => in_size(
                alloc, cast, place, size, token, class, alias,
            ),
            AllocationReader::Close(malloc) => Ok(close(malloc, token, class)),
        }
    }
}

fn in_base(
    alloc: Global,
    place: Place,
    base: BaseReader,
    token: &Token,
    class: Class,
    alias: bool,
) -> Result<AllocationStep, AllocError>
    requires { IsClass token.now class }
    ensures { (aliases : List (List ℕ)) → is_in aliases token.now.text ≡ alias
        → IfOk result (IsAllocationStep aliases
        (InTurn (CompletesBase aliases base) (BehindCastBase aliases place)) token.now) }
{
    match base.step(alloc, token, class, alias)? {
        BaseStep::Taken(base) => Ok(AllocationStep::Taken(AllocationReader::Base(place, base))),
        BaseStep::Closed(base) => Ok(AllocationStep::Taken(AllocationReader::CastBase(
            place, base,
        ))),
        BaseStep::Stuck => Ok(AllocationStep::Stuck),
    }
}

fn behind_base(place: Place, base: Base, token: &Token, class: Class) -> AllocationStep
    requires { IsClass token.now class }
    ensures { (aliases : List (List ℕ)) → IsAllocationStep aliases (BehindCastBase aliases place base) token.now result }
{
    match class {
        Class::Star => AllocationStep::Taken(AllocationReader::CastEnd(Cast {
            place,
            base,
            pointer: Some(token.place),
        })),
        Class::CloseParen => AllocationStep::Taken(AllocationReader::Cast(Cast {
            place,
            base,
            pointer: None,
        })),
        _ => AllocationStep::Stuck,
    }
}

fn cast_end(cast: Cast, token: &Token, class: Class) -> AllocationStep
    requires { IsClass token.now class }
    ensures { (aliases : List (List ℕ)) → IsAllocationStep aliases (ClosingCast aliases cast) token.now result }
{
    match class {
        Class::CloseParen => AllocationStep::Taken(AllocationReader::Cast(cast)),
        _ => AllocationStep::Stuck,
    }
}

fn behind_cast(cast: Cast, token: &Token, class: Class) -> AllocationStep
    requires { IsClass token.now class }
    ensures { (aliases : List (List ℕ)) → IsAllocationStep aliases (BehindCast aliases cast) token.now result }
{
    match class {
        Class::Malloc => AllocationStep::Taken(AllocationReader::Malloc(Some(cast), token.place)),
        _ => AllocationStep::Stuck,
    }
}

fn behind_malloc(cast: Option<Cast>, place: Place, token: &Token, class: Class) -> AllocationStep
    requires { IsClass token.now class }
    ensures { (aliases : List (List ℕ)) → IsAllocationStep aliases (BehindMalloc aliases cast place) token.now result }
{
    match class {
        Class::OpenParen => AllocationStep::Taken(AllocationReader::Size(
            cast,
            place,
            SizeReader::Start,
        )),
        _ => AllocationStep::Stuck,
    }
}

fn in_size(
    alloc: Global,
    cast: Option<Cast>,
    place: Place,
    size: SizeReader,
    token: &Token,
    class: Class,
    alias: bool,
) -> Result<AllocationStep, AllocError>
    requires { IsClass token.now class }
    ensures { (aliases : List (List ℕ)) → is_in aliases token.now.text ≡ alias
        → IfOk result (IsAllocationStep aliases
        (InTurn (CompletesSize aliases size) (BehindSize cast place)) token.now) }
{
    match size.step(alloc, token, class, alias)? {
        SizeStep::Taken(size) => Ok(AllocationStep::Taken(AllocationReader::Size(
            cast, place, size,
        ))),
        SizeStep::Closed(size) => Ok(AllocationStep::Taken(AllocationReader::Close(Malloc {
            cast,
            place,
            size,
        }))),
        SizeStep::Stuck => Ok(AllocationStep::Stuck),
    }
}

fn close(malloc: Malloc, token: &Token, class: Class) -> AllocationStep
    requires { IsClass token.now class }
    ensures { (aliases : List (List ℕ)) → IsAllocationStep aliases (ClosingMalloc malloc) token.now result }
{
    match class {
        Class::CloseParen => AllocationStep::Closed(malloc),
        _ => AllocationStep::Stuck,
    }
}
