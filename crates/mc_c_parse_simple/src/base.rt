// Reads a base.
ghost use Rattle.std.specs.Prelude.{◌≡◌, ℕ, List, IfOk};
ghost use Rattle.mc_c_syntax.specs.Ast.Classes.{IsClass};
ghost use Rattle.mc_c_syntax.specs.Ast.Readers.{CanEnd};
ghost use Rattle.mc_c_syntax.specs.Ast.Names.{is_in};
ghost use Rattle.mc_c_parse_simple.specs.Bases.{Bases, BehindStruct, CompletesBase, IsBaseStep};
ghost use Rattle.mc_c_parse_simple.specs.declared.base.BaseReader.{BaseReader};

use mc_base::text::{Place, Token};
use mc_c_syntax::ast::{Base, Class, name_at};
use std::alloc::{AllocError, Global};

/// Reads a base: `int`, `struct S`, or a name that a typedef introduced.
#[derive(Drop)]
pub enum BaseReader {
    Start,
    /// After `struct`, which is here.
    Struct(Place),
}

/// What a token does to a base.
#[derive(Drop)]
pub enum BaseStep {
    Taken(BaseReader),
    Closed(Base),
    Stuck,
}

impl BaseReader {
    /// Takes a token. `alias` says whether a typedef introduced it.
    pub fn step(
        self,
        alloc: Global,
        token: &Token,
        class: Class,
        alias: bool,
    ) -> Result<BaseStep, AllocError>
        requires { IsClass token.now class }
        ensures { (aliases : List (List ℕ)) → is_in aliases token.now.text ≡ alias
            → IfOk result (IsBaseStep aliases (CompletesBase aliases self) token.now) }
    {
        match self {
            BaseReader::Start => start(alloc, token, class, alias),
            BaseReader::Struct(place) => behind_struct(alloc, place, token, class),
        }
    }
}

fn start(alloc: Global, token: &Token, class: Class, alias: bool) -> Result<BaseStep, AllocError>
    requires { IsClass token.now class }
    ensures { (aliases : List (List ℕ)) → is_in aliases token.now.text ≡ alias
        → IfOk result (IsBaseStep aliases (Bases aliases) token.now) }
{
    match class {
        Class::Int => Ok(BaseStep::Closed(Base::Int(token.place))),
        Class::Struct => Ok(BaseStep::Taken(BaseReader::Struct(token.place))),
        Class::Name => {
            if alias {
                let name = name_at(alloc, token)?;
                Ok(BaseStep::Closed(Base::Alias(name)))
            } else {
                Ok(BaseStep::Stuck)
            }
        }
        _ => Ok(BaseStep::Stuck),
    }
}

fn behind_struct(
    alloc: Global,
    place: Place,
    token: &Token,
    class: Class,
) -> Result<BaseStep, AllocError>
    requires { IsClass token.now class }
    ensures { (aliases : List (List ℕ)) → IfOk result (IsBaseStep aliases (BehindStruct place) token.now) }
{
    match class {
        Class::Name => {
            let name = name_at(alloc, token)?;
            Ok(BaseStep::Closed(Base::Struct(place, name)))
        }
        _ => Ok(BaseStep::Stuck),
    }
}

/// Every reader can come to the end of a base.
pub fn bases_can_end()
    ensures { (aliases : List (List ℕ)) (reader : BaseReader) → CanEnd (CompletesBase aliases reader) }
{}
