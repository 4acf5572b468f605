// Structs, typedefs and functions.
ghost use Rattle.mc_c_syntax.specs.Ast.Classes.{IsClass};
ghost use Rattle.mc_c_syntax.specs.Ast.Names.{is_in};
ghost use Rattle.mc_c_syntax.specs.Ast.Trees.{function};
ghost use Rattle.mc_c_syntax.specs.Ast.Views.{function_of, item_of};
ghost use Rattle.mc_c_parse.specs.Items.{ItemStepIs, ItemTookIs, IsWithinFunction};
ghost use Rattle.mc_c_parse.specs.declared.function.FunctionReader.TheVariants as FunctionReader;
ghost use Rattle.std.specs.Prelude.{◌≡◌, ℕ, List, IfOk};

use crate::fields::FieldsReader;
use crate::function::{FunctionReader, within_header};
use crate::header::HeaderReader;
use crate::step::{Step, Took};
use crate::structure::StructReader;
use crate::typedef::{TypedefPart, TypedefReader};
use mc_base::text::{Place, Token};
use mc_c_syntax::ast::{Base, Class, Function, Item, Name, Struct, name_at};
use std::alloc::{AllocError, Global};
use std::mem;

/// What has been read of a struct, a typedef or a function.
#[derive(Drop)]
pub enum ItemReader {
    Start,
    /// After the word `struct`.
    Tag(Place),
    /// After a struct's name: its fields, or a function that gives it.
    Tagged(Place, Name),
    /// Within a struct's fields.
    Struct(StructReader),
    /// After a struct's `}`.
    Closing(Struct),
    Typedef(TypedefReader),
    Function(FunctionReader),
}

/// What a reader of items makes of a token, by value.
pub type ItemStep = Step<ItemReader, Item>;

/// The same in place.
pub type ItemTook = Took<Item>;

impl ItemReader {
    /// Takes the next token.
    pub fn step(
        &mut self,
        alloc: Global,
        token: &Token,
        class: Class,
        alias: bool,
    ) -> Result<ItemTook, AllocError>
        requires { IsClass token.now class }
        ensures { IfOk result (λ took. (aliases : List (List ℕ)) → is_in aliases token.now.text ≡ alias
            → ItemTookIs aliases self.old self.new token.now took) }
    {
        match self {
            ItemReader::Function(reader) => match reader.step(alloc, token, class, alias)? {
                Took::Taken => Ok(Took::Taken),
                Took::Closed(whole) => Ok(Took::Closed(item_of_function(alloc, whole)?)),
                Took::Stuck => Ok(Took::Stuck),
            },
            _ => self.step_beside_functions(alloc, token, class, alias),
        }
    }

    /// Takes a token within no function.
    #[inline(never)]
    fn step_beside_functions(
        &mut self,
        alloc: Global,
        token: &Token,
        class: Class,
        alias: bool,
    ) -> Result<ItemTook, AllocError>
        requires class { IsClass token.now class }
        requires beside { IsWithinFunction self.old → ⊥ }
        ensures { IfOk result (λ took. (aliases : List (List ℕ)) → is_in aliases token.now.text ≡ alias
            → ItemTookIs aliases self.old self.new token.now took) }
    {
        let reader = mem::replace(self, ItemReader::Start);
        let step = reader.moved_beside_functions(alloc, token, class, alias)?;
        let took = step.put(alloc, self)?;
        Ok(took)
    }

    fn moved_beside_functions(
        self,
        alloc: Global,
        token: &Token,
        class: Class,
        alias: bool,
    ) -> Result<ItemStep, AllocError>
        requires class { IsClass token.now class }
        requires beside { IsWithinFunction self → ⊥ }
        ensures { IfOk result (λ step. (aliases : List (List ℕ)) → is_in aliases token.now.text ≡ alias
            → ItemStepIs aliases self token.now step) }
    {
        match self {
            ItemReader::Start => item_start(alloc, token, class, alias),
            ItemReader::Tag(place) => item_tag(alloc, place, token, class),
            ItemReader::Tagged(place, name) => item_tagged(alloc, place, name, token, class, alias),
            ItemReader::Struct(reader) => item_struct(alloc, reader, token, class, alias),
            ItemReader::Closing(structure) => Ok(item_closing(structure, class)),
            ItemReader::Typedef(reader) => item_typedef(alloc, reader, token, class, alias),
            ItemReader::Function(_) => unreachable!(),
        }
    }
}

fn item_start(
    alloc: Global,
    token: &Token,
    class: Class,
    alias: bool,
) -> Result<ItemStep, AllocError>
    requires { IsClass token.now class }
    ensures { IfOk result (λ step. (aliases : List (List ℕ)) → is_in aliases token.now.text ≡ alias
        → ItemStepIs aliases ItemReader.Start token.now step) }
{
    match class {
        Class::Struct => Ok(Step::Taken(ItemReader::Tag(token.place))),
        Class::Typedef => Ok(Step::Taken(ItemReader::Typedef(TypedefReader {
            place: token.place,
            part: TypedefPart::Start,
        }))),
        Class::Static => {
            let reader = FunctionReader::new(Some(token.place));
            Ok(Step::Taken(ItemReader::Function(reader)))
        }
        _ => item_header(alloc, None, HeaderReader::Start, token, class, alias),
    }
}

fn item_tag(
    alloc: Global,
    place: Place,
    token: &Token,
    class: Class,
) -> Result<ItemStep, AllocError>
    requires { IsClass token.now class }
    ensures { IfOk result (λ step. (aliases : List (List ℕ)) → ItemStepIs aliases (ItemReader.Tag place) token.now step) }
{
    match class {
        Class::Name => {
            let name = name_at(alloc, token)?;
            Ok(Step::Taken(ItemReader::Tagged(place, name)))
        }
        _ => Ok(Step::Stuck),
    }
}

fn item_tagged(
    alloc: Global,
    place: Place,
    name: Name,
    token: &Token,
    class: Class,
    alias: bool,
) -> Result<ItemStep, AllocError>
    requires { IsClass token.now class }
    ensures { IfOk result (λ step. (aliases : List (List ℕ)) → is_in aliases token.now.text ≡ alias
        → ItemStepIs aliases (ItemReader.Tagged place name) token.now step) }
{
    match class {
        Class::OpenBrace => Ok(Step::Taken(ItemReader::Struct(StructReader {
            place,
            name,
            fields: FieldsReader::new(alloc),
        }))),
        _ => {
            let header = HeaderReader::Value(Base::Struct(place, name));
            item_header(alloc, None, header, token, class, alias)
        }
    }
}

fn item_struct(
    alloc: Global,
    reader: StructReader,
    token: &Token,
    class: Class,
    alias: bool,
) -> Result<ItemStep, AllocError>
    requires { IsClass token.now class }
    ensures { IfOk result (λ step. (aliases : List (List ℕ)) → is_in aliases token.now.text ≡ alias
        → ItemStepIs aliases (ItemReader.Struct reader) token.now step) }
{
    match reader.step(alloc, token, class, alias)? {
        Step::Taken(reader) => Ok(Step::Taken(ItemReader::Struct(reader))),
        Step::Closed(structure) => Ok(Step::Taken(ItemReader::Closing(structure))),
        Step::Stuck => Ok(Step::Stuck),
    }
}

fn item_closing(structure: Struct, class: Class) -> ItemStep
    ensures { (aliases : List (List ℕ)) (token : Token) → IsClass token class
        → ItemStepIs aliases (ItemReader.Closing structure) token result }
{
    match class {
        Class::Semicolon => Step::Closed(Item::Struct(structure)),
        _ => Step::Stuck,
    }
}

fn item_typedef(
    alloc: Global,
    reader: TypedefReader,
    token: &Token,
    class: Class,
    alias: bool,
) -> Result<ItemStep, AllocError>
    requires { IsClass token.now class }
    ensures { IfOk result (λ step. (aliases : List (List ℕ)) → is_in aliases token.now.text ≡ alias
        → ItemStepIs aliases (ItemReader.Typedef reader) token.now step) }
{
    match reader.step(alloc, token, class, alias)? {
        Step::Taken(reader) => Ok(Step::Taken(ItemReader::Typedef(reader))),
        Step::Closed(typedef) => Ok(Step::Closed(Item::Typedef(typedef))),
        Step::Stuck => Ok(Step::Stuck),
    }
}

/// The first token of a function after what is read of its head.
fn item_header(
    alloc: Global,
    static_place: Option<Place>,
    reader: HeaderReader,
    token: &Token,
    class: Class,
    alias: bool,
) -> Result<ItemStep, AllocError>
    requires { IsClass token.now class }
    ensures { IfOk result (λ step. (aliases : List (List ℕ)) → is_in aliases token.now.text ≡ alias
        → ItemStepIs aliases (ItemReader.Function (FunctionReader.Header static_place reader)) token.now step) }
{
    match within_header(alloc, static_place, reader, token, class, alias)? {
        Step::Taken(reader) => Ok(Step::Taken(ItemReader::Function(reader))),
        Step::Closed(function) => Ok(Step::Closed(Item::Function(function))),
        Step::Stuck => Ok(Step::Stuck),
    }
}

/// The item that a function is.
#[inline(never)]
fn item_of_function(alloc: Global, whole: Box<Function>) -> Result<Box<Item>, AllocError>
    ensures { IfOk result (λ item. item_of item.value ≡ function (function_of whole.value)) }
{
    let item = Item::Function(Box::into_inner(whole));
    let boxed = Box::new(alloc, item)?;
    Ok(boxed)
}
