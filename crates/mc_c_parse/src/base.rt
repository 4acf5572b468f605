// Bases: `int`, `struct S`, or a name that a typedef introduced.
ghost use Rattle.mc_c_syntax.specs.Ast.Classes.{IsClass};
ghost use Rattle.mc_c_syntax.specs.Ast.Names.{is_in};
ghost use Rattle.mc_c_parse.specs.Bases.{BaseStepIs};
ghost use Rattle.std.specs.Prelude.{◌≡◌, ℕ, List, IfOk};

use crate::step::Step;
use mc_base::text::{Place, Token};
use mc_c_syntax::ast::{Base, Class, name_at};
use std::alloc::{AllocError, Global};

/// What has been read of a base.
#[derive(Drop)]
pub enum BaseReader {
    Start,
    /// After the word `struct`.
    Tag(Place),
}

/// What a reader of bases makes of a token.
pub type BaseStep = Step<BaseReader, Base>;

impl BaseReader {
    /// Takes the next token.
    pub fn step(
        self,
        alloc: Global,
        token: &Token,
        class: Class,
        alias: bool,
    ) -> Result<BaseStep, AllocError>
        requires { IsClass token.now class }
        ensures { IfOk result (λ step. (aliases : List (List ℕ)) → is_in aliases token.now.text ≡ alias
            → BaseStepIs aliases self token.now step) }
    {
        match self {
            BaseReader::Start => base_start(alloc, token, class, alias),
            BaseReader::Tag(place) => base_tag(alloc, place, token, class),
        }
    }
}

fn base_start(
    alloc: Global,
    token: &Token,
    class: Class,
    alias: bool,
) -> Result<BaseStep, AllocError>
    requires { IsClass token.now class }
    ensures { IfOk result (λ step. (aliases : List (List ℕ)) → is_in aliases token.now.text ≡ alias
        → BaseStepIs aliases BaseReader.Start token.now step) }
{
    match class {
        Class::Int => Ok(Step::Closed(Base::Int(token.place))),
        Class::Struct => Ok(Step::Taken(BaseReader::Tag(token.place))),
        Class::Name => {
            if alias {
                Ok(Step::Closed(Base::Alias(name_at(alloc, token)?)))
            } else {
                Ok(Step::Stuck)
            }
        }
        _ => Ok(Step::Stuck),
    }
}

fn base_tag(
    alloc: Global,
    place: Place,
    token: &Token,
    class: Class,
) -> Result<BaseStep, AllocError>
    requires { IsClass token.now class }
    ensures { IfOk result (λ step. (aliases : List (List ℕ)) → BaseStepIs aliases (BaseReader.Tag place) token.now step) }
{
    match class {
        Class::Name => {
            let name = name_at(alloc, token)?;
            Ok(Step::Closed(Base::Struct(place, name)))
        }
        _ => Ok(Step::Stuck),
    }
}
