// Typedefs, after the word `typedef`.
ghost use Rattle.mc_c_syntax.specs.Ast.Classes.{IsClass};
ghost use Rattle.mc_c_syntax.specs.Ast.Names.{is_in};
ghost use Rattle.mc_c_syntax.specs.Ast.Readers.{IsSame};
ghost use Rattle.mc_c_syntax.specs.Ast.Views.{aliased_of};
ghost use Rattle.mc_c_parse.specs.Items.{CompletesTypedef, EndsTypedef, TypedefStepIs};
ghost use Rattle.std.specs.Prelude.{◌≡◌, ℕ, List, IfOk};

use crate::declarators::DeclaratorsReader;
use crate::fields::FieldsReader;
use crate::step::Step;
use crate::structure::StructReader;
use mc_base::text::{Place, Token};
use mc_c_syntax::ast::{Aliased, Base, Class, Name, Typedef, name_at};
use std::alloc::{AllocError, Global};

/// Where in a typedef a reader is.
#[derive(Drop)]
pub enum TypedefPart {
    Start,
    /// After the word `struct`.
    Tag(Place),
    /// After a struct's name.
    Tagged(Place, Name),
    /// Within a struct's fields.
    Struct(StructReader),
    Declarators(Aliased, DeclaratorsReader),
}

/// What has been read of a typedef.
#[derive(Drop)]
pub struct TypedefReader {
    /// The place of `typedef`.
    pub place: Place,
    pub part: TypedefPart,
}

/// What a reader of typedefs makes of a token.
pub type TypedefStep = Step<TypedefReader, Typedef>;

impl TypedefReader {
    /// Takes the next token.
    pub fn step(
        self,
        alloc: Global,
        token: &Token,
        class: Class,
        alias: bool,
    ) -> Result<TypedefStep, AllocError>
        requires { IsClass token.now class }
        ensures { IfOk result (λ step. (aliases : List (List ℕ)) → is_in aliases token.now.text ≡ alias
            → TypedefStepIs aliases self.place self.part token.now step) }
    {
        let TypedefReader { place, part } = self;
        match part {
            TypedefPart::Start => typedef_start(alloc, place, token, class, alias),
            TypedefPart::Tag(word) => typedef_tag(alloc, place, word, token, class),
            TypedefPart::Tagged(word, name) => {
                typedef_tagged(alloc, place, word, name, token, class)
            }
            TypedefPart::Struct(reader) => {
                typedef_struct(alloc, place, reader, token, class, alias)
            }
            TypedefPart::Declarators(aliased, reader) => {
                typedef_names(alloc, place, aliased, reader, token, class)
            }
        }
    }
}

/// A typedef's reader before the names that it introduces for this.
fn names_of(alloc: Global, place: Place, aliased: Aliased) -> TypedefReader
    ensures { (aliases : List (List ℕ)) → IsSame (CompletesTypedef aliases result) (EndsTypedef place (aliased_of aliased)) }
{
    TypedefReader {
        place,
        part: TypedefPart::Declarators(aliased, DeclaratorsReader::new(alloc)),
    }
}

fn typedef_start(
    alloc: Global,
    place: Place,
    token: &Token,
    class: Class,
    alias: bool,
) -> Result<TypedefStep, AllocError>
    requires { IsClass token.now class }
    ensures { IfOk result (λ step. (aliases : List (List ℕ)) → is_in aliases token.now.text ≡ alias
        → TypedefStepIs aliases place TypedefPart.Start token.now step) }
{
    match class {
        Class::Int => {
            let base = Base::Int(token.place);
            Ok(Step::Taken(names_of(alloc, place, Aliased::Base(base))))
        }
        Class::Struct => Ok(Step::Taken(TypedefReader {
            place,
            part: TypedefPart::Tag(token.place),
        })),
        Class::Name => {
            if alias {
                let base = Base::Alias(name_at(alloc, token)?);
                Ok(Step::Taken(names_of(alloc, place, Aliased::Base(base))))
            } else {
                Ok(Step::Stuck)
            }
        }
        _ => Ok(Step::Stuck),
    }
}

fn typedef_tag(
    alloc: Global,
    place: Place,
    word: Place,
    token: &Token,
    class: Class,
) -> Result<TypedefStep, AllocError>
    requires { IsClass token.now class }
    ensures { IfOk result (λ step. (aliases : List (List ℕ)) → TypedefStepIs aliases place (TypedefPart.Tag word) token.now step) }
{
    match class {
        Class::Name => {
            let name = name_at(alloc, token)?;
            Ok(Step::Taken(TypedefReader {
                place,
                part: TypedefPart::Tagged(word, name),
            }))
        }
        _ => Ok(Step::Stuck),
    }
}

fn typedef_tagged(
    alloc: Global,
    place: Place,
    word: Place,
    name: Name,
    token: &Token,
    class: Class,
) -> Result<TypedefStep, AllocError>
    requires { IsClass token.now class }
    ensures { IfOk result (λ step. (aliases : List (List ℕ)) → TypedefStepIs aliases place (TypedefPart.Tagged word name) token.now step) }
{
    match class {
        Class::OpenBrace => {
            let reader = StructReader {
                place: word,
                name,
                fields: FieldsReader::new(alloc),
            };
            Ok(Step::Taken(TypedefReader {
                place,
                part: TypedefPart::Struct(reader),
            }))
        }
        _ => {
            let aliased = Aliased::Base(Base::Struct(word, name));
            let reader = DeclaratorsReader::new(alloc);
            typedef_names(alloc, place, aliased, reader, token, class)
        }
    }
}

fn typedef_struct(
    alloc: Global,
    place: Place,
    reader: StructReader,
    token: &Token,
    class: Class,
    alias: bool,
) -> Result<TypedefStep, AllocError>
    requires { IsClass token.now class }
    ensures { IfOk result (λ step. (aliases : List (List ℕ)) → is_in aliases token.now.text ≡ alias
        → TypedefStepIs aliases place (TypedefPart.Struct reader) token.now step) }
{
    match reader.step(alloc, token, class, alias)? {
        Step::Taken(reader) => Ok(Step::Taken(TypedefReader {
            place,
            part: TypedefPart::Struct(reader),
        })),
        Step::Closed(structure) => {
            let aliased = Aliased::Struct(structure);
            Ok(Step::Taken(names_of(alloc, place, aliased)))
        }
        Step::Stuck => Ok(Step::Stuck),
    }
}

fn typedef_names(
    alloc: Global,
    place: Place,
    aliased: Aliased,
    reader: DeclaratorsReader,
    token: &Token,
    class: Class,
) -> Result<TypedefStep, AllocError>
    requires { IsClass token.now class }
    ensures { IfOk result (λ step. (aliases : List (List ℕ))
        → TypedefStepIs aliases place (TypedefPart.Declarators aliased reader) token.now step) }
{
    match reader.step(alloc, token, class)? {
        Step::Taken(reader) => Ok(Step::Taken(TypedefReader {
            place,
            part: TypedefPart::Declarators(aliased, reader),
        })),
        Step::Closed(declarators) => Ok(Step::Closed(Typedef {
            place,
            aliased,
            declarators,
        })),
        Step::Stuck => Ok(Step::Stuck),
    }
}
