// Reads a simple statement.
ghost use Rattle.std.specs.Prelude.{◌≡◌, ◌∷◌, ℕ, List, IfOk};
ghost use Rattle.mc_base.specs.declared.text.token.Token.{Token};
ghost use Rattle.mc_c_syntax.specs.Ast.Classes.{IsClass};
ghost use Rattle.mc_c_syntax.specs.Ast.Names.{is_in, IsName, name_of};
ghost use Rattle.mc_c_syntax.specs.Ast.Grammar.{IsSimple};
ghost use Rattle.mc_c_syntax.specs.Ast.Readers.{IsSame, CanEnd};
ghost use Rattle.mc_c_parse_simple.specs.Simples.{Simples, InFirst, InLeft, BehindSimpleName, just, with_field, changed_first, changed_by, CompletesSimple, IsInValue, IsSimpleMove, IsSimpleStep};
ghost use Rattle.mc_c_parse_simple.specs.Calls.{CompletesCall};
ghost use Rattle.mc_c_parse_simple.specs.Phrases.{Ended, Next};
ghost use Rattle.mc_c_syntax.specs.Ast.Trees.{call};
ghost use Rattle.mc_c_syntax.specs.Ast.Views.{left_of, simple_of, expression_of};
ghost use Rattle.mc_c_parse_expr.specs.Turns.{InTurn};
ghost use Rattle.mc_c_parse_simple.specs.declared.simple.SimpleReader.{SimpleReader};

use crate::call::{CallReader, CallStep};
use crate::right::{RightReader, RightStep};
use crate::sum::fresh_sum;
use mc_base::text::{Place, Text, Token};
use mc_c_parse_expr::{ExpressionReader, ExpressionStep, expressions_can_end};
use mc_c_syntax::ast::{Class, Expression, LeftValue, Name, Simple, name_at};
use std::alloc::{AllocError, Global};
use std::mem;

/// Reads a simple statement: an assignment, `+=`, `-=`, `++`, `--` or a call.
pub struct SimpleReader {
    alloc: Global,
    state: SimpleState,
}

/// Drops what is read. What holds a reader calls this.
impl Drop for SimpleReader {
    fn drop(self) {
        let SimpleReader { state, alloc: _ } = self;
        drop(state);
    }
}

/// By one up, or by one down.
#[derive(Clone, Copy, Debug, PartialEq, Eq)]
enum Change {
    Increment,
    Decrement,
}

#[derive(Drop)]
enum SimpleState {
    Start,
    /// After a first `++` or `--`.
    First(Change, Place),
    /// After a variable or field after a first `++` or `--`.
    FirstLeft(Change, Place, LeftValue),
    /// After the `->` of such a one.
    FirstArrow(Change, Place, LeftValue),
    /// After a first name.
    Named(Name),
    /// After a field.
    Left(LeftValue),
    /// After the `->` of a variable or field.
    Arrow(LeftValue),
    /// After `=`.
    Assign(LeftValue, RightReader),
    /// After `+=` or `-=`.
    ChangeBy(Change, LeftValue, Box<ExpressionReader>),
    Call(CallReader),
    Done(Simple),
}

/// What a token does to a simple statement.
#[derive(Drop)]
pub enum SimpleStep {
    Taken,
    Found(Simple),
    Stuck,
}

/// The same, with the reader after the token.
#[derive(Drop)]
enum SimpleMove {
    Taken(SimpleReader),
    Found(Simple),
    Stuck,
}

impl SimpleReader {
    pub fn new(alloc: Global) -> SimpleReader
        ensures { (aliases : List (List ℕ)) → IsSame (CompletesSimple aliases result) (Simples aliases) }
    {
        SimpleReader {
            alloc,
            state: SimpleState::Start,
        }
    }

    /// After a name with which the statement begins.
    pub fn behind_name(alloc: Global, name: Name) -> SimpleReader
        ensures { (aliases : List (List ℕ)) (token : Token) → IsName token → name_of token ≡ name
            → IsSame (CompletesSimple aliases result) (λ tokens rest s. IsSimple aliases s (token ∷ tokens) rest) }
    {
        SimpleReader {
            alloc,
            state: SimpleState::Named(name),
        }
    }

    /// Takes a token. `alias` says whether a typedef introduced it.
    pub fn step(
        &mut self,
        token: &Token,
        class: Class,
        alias: bool,
    ) -> Result<SimpleStep, AllocError>
        requires { IsClass token.now class }
        ensures { (aliases : List (List ℕ)) → is_in aliases token.now.text ≡ alias
            → IfOk result
            (IsSimpleStep (CompletesSimple aliases self.old) (CompletesSimple aliases self.new) token.now) }
    {
        let alloc = self.alloc;
        match &mut self.state {
            SimpleState::Assign(left, reader) => match reader.step(token, class, alias)? {
                RightStep::Taken => Ok(SimpleStep::Taken),
                RightStep::Found(right) => {
                    let left = taken(alloc, left, token.place);
                    Ok(SimpleStep::Found(Simple::Assign(left, right)))
                }
                RightStep::Stuck => Ok(SimpleStep::Stuck),
            },
            SimpleState::ChangeBy(change, left, reader) => match reader.step(token, class)? {
                ExpressionStep::Taken => Ok(SimpleStep::Taken),
                ExpressionStep::Found(by) => {
                    let left = taken(alloc, left, token.place);
                    let simple = changed_by(*change, left, by);
                    Ok(SimpleStep::Found(simple))
                }
                ExpressionStep::Stuck => Ok(SimpleStep::Stuck),
            },
            _ => self.step_beside_values(token, class, alias),
        }
    }

    /// The same where no value of an assignment is read.
    fn step_beside_values(
        &mut self,
        token: &Token,
        class: Class,
        alias: bool,
    ) -> Result<SimpleStep, AllocError>
        requires class { IsClass token.now class }
        requires beside { IsInValue self.old → ⊥ }
        ensures { (aliases : List (List ℕ)) → is_in aliases token.now.text ≡ alias
            → IfOk result
            (IsSimpleStep (CompletesSimple aliases self.old) (CompletesSimple aliases self.new) token.now) }
    {
        let alloc = self.alloc;
        let reader = mem::replace(self, SimpleReader::new(alloc));
        let step = reader.moved(token, class)?;
        match step {
            SimpleMove::Taken(next) => {
                *self = next;
                Ok(SimpleStep::Taken)
            }
            SimpleMove::Found(made) => Ok(SimpleStep::Found(made)),
            SimpleMove::Stuck => Ok(SimpleStep::Stuck),
        }
    }

    /// The same, by value.
    fn moved(self, token: &Token, class: Class) -> Result<SimpleMove, AllocError>
        requires class { IsClass token.now class }
        requires beside { IsInValue self → ⊥ }
        ensures { (aliases : List (List ℕ)) → IfOk result (IsSimpleMove aliases (CompletesSimple aliases self) token.now) }
    {
        let SimpleReader { alloc, state } = self;
        match state {
            SimpleState::Start => start(alloc, token, class),
            SimpleState::First(change, place) => first(alloc, change, place, token, class),
            SimpleState::FirstLeft(change, place, left) => Ok(first_left(
                alloc, change, place, left, token, class,
            )),
            SimpleState::FirstArrow(change, place, left) => first_arrow(
                alloc, change, place, left, token, class,
            ),
            SimpleState::Named(name) => behind_name(alloc, name, token, class),
            SimpleState::Left(left) => behind_left(alloc, left, token, class),
            SimpleState::Arrow(left) => behind_arrow(alloc, left, token, class),
            SimpleState::Assign(_, _) => unreachable!(),
            SimpleState::ChangeBy(_, _, _) => unreachable!(),
            SimpleState::Call(reader) => in_call(alloc, reader, token, class),
            SimpleState::Done(simple) => Ok(SimpleMove::Found(simple)),
        }
    }
}

fn start(alloc: Global, token: &Token, class: Class) -> Result<SimpleMove, AllocError>
    requires { IsClass token.now class }
    ensures { (aliases : List (List ℕ)) → IfOk result (IsSimpleMove aliases (Simples aliases) token.now) }
{
    match class {
        Class::Name => {
            let name = name_at(alloc, token)?;
            Ok(SimpleMove::Taken(SimpleReader {
                alloc,
                state: SimpleState::Named(name),
            }))
        }
        Class::PlusPlus => Ok(SimpleMove::Taken(SimpleReader {
            alloc,
            state: SimpleState::First(Change::Increment, token.place),
        })),
        Class::MinusMinus => Ok(SimpleMove::Taken(SimpleReader {
            alloc,
            state: SimpleState::First(Change::Decrement, token.place),
        })),
        _ => Ok(SimpleMove::Stuck),
    }
}

fn first(
    alloc: Global,
    change: Change,
    place: Place,
    token: &Token,
    class: Class,
) -> Result<SimpleMove, AllocError>
    requires { IsClass token.now class }
    ensures { (aliases : List (List ℕ))
        → IfOk result (IsSimpleMove aliases
        (Next IsName (λ name. InFirst change place (just (name_of name)))) token.now) }
{
    match class {
        Class::Name => {
            let name = name_at(alloc, token)?;
            let left = just(alloc, name);
            Ok(SimpleMove::Taken(SimpleReader {
                alloc,
                state: SimpleState::FirstLeft(change, place, left),
            }))
        }
        _ => Ok(SimpleMove::Stuck),
    }
}

fn first_left(
    alloc: Global,
    change: Change,
    place: Place,
    left: LeftValue,
    token: &Token,
    class: Class,
) -> SimpleMove
    requires { IsClass token.now class }
    ensures { (aliases : List (List ℕ)) → IsSimpleMove aliases (InFirst change place (left_of left)) token.now result }
{
    match class {
        Class::Arrow => SimpleMove::Taken(SimpleReader {
            alloc,
            state: SimpleState::FirstArrow(change, place, left),
        }),
        _ => {
            let simple = changed_first(change, place, left);
            SimpleMove::Found(simple)
        }
    }
}

fn first_arrow(
    alloc: Global,
    change: Change,
    place: Place,
    left: LeftValue,
    token: &Token,
    class: Class,
) -> Result<SimpleMove, AllocError>
    requires { IsClass token.now class }
    ensures { (aliases : List (List ℕ))
        → IfOk result (IsSimpleMove aliases
        (Next IsName (λ name. InFirst change place (with_field (left_of left) (name_of name)))) token.now) }
{
    match class {
        Class::Name => {
            let name = name_at(alloc, token)?;
            let longer = with_field(left, name)?;
            Ok(SimpleMove::Taken(SimpleReader {
                alloc,
                state: SimpleState::FirstLeft(change, place, longer),
            }))
        }
        _ => Ok(SimpleMove::Stuck),
    }
}

fn behind_name(
    alloc: Global,
    name: Name,
    token: &Token,
    class: Class,
) -> Result<SimpleMove, AllocError>
    requires { IsClass token.now class }
    ensures { (aliases : List (List ℕ)) → IfOk result (IsSimpleMove aliases (BehindSimpleName aliases name) token.now) }
{
    match class {
        Class::OpenParen => {
            let reader = CallReader::new(alloc, name);
            Ok(SimpleMove::Taken(SimpleReader {
                alloc,
                state: SimpleState::Call(reader),
            }))
        }
        _ => {
            let left = just(alloc, name);
            let step = behind_left(alloc, left, token, class)?;
            Ok(step)
        }
    }
}

fn behind_left(
    alloc: Global,
    left: LeftValue,
    token: &Token,
    class: Class,
) -> Result<SimpleMove, AllocError>
    requires { IsClass token.now class }
    ensures { (aliases : List (List ℕ)) → IfOk result (IsSimpleMove aliases (InLeft aliases (left_of left)) token.now) }
{
    match class {
        Class::Arrow => Ok(SimpleMove::Taken(SimpleReader {
            alloc,
            state: SimpleState::Arrow(left),
        })),
        Class::Assign => {
            let reader = RightReader::new(alloc);
            Ok(SimpleMove::Taken(SimpleReader {
                alloc,
                state: SimpleState::Assign(left, reader),
            }))
        }
        Class::PlusAssign => {
            let reader = fresh_sum(alloc)?;
            Ok(SimpleMove::Taken(SimpleReader {
                alloc,
                state: SimpleState::ChangeBy(Change::Increment, left, reader),
            }))
        }
        Class::MinusAssign => {
            let reader = fresh_sum(alloc)?;
            Ok(SimpleMove::Taken(SimpleReader {
                alloc,
                state: SimpleState::ChangeBy(Change::Decrement, left, reader),
            }))
        }
        Class::PlusPlus => Ok(SimpleMove::Taken(SimpleReader {
            alloc,
            state: SimpleState::Done(Simple::Increment(left)),
        })),
        Class::MinusMinus => Ok(SimpleMove::Taken(SimpleReader {
            alloc,
            state: SimpleState::Done(Simple::Decrement(left)),
        })),
        _ => Ok(SimpleMove::Stuck),
    }
}

fn behind_arrow(
    alloc: Global,
    left: LeftValue,
    token: &Token,
    class: Class,
) -> Result<SimpleMove, AllocError>
    requires { IsClass token.now class }
    ensures { (aliases : List (List ℕ))
        → IfOk result (IsSimpleMove aliases
        (Next IsName (λ name. InLeft aliases (with_field (left_of left) (name_of name)))) token.now) }
{
    match class {
        Class::Name => {
            let name = name_at(alloc, token)?;
            let longer = with_field(left, name)?;
            Ok(SimpleMove::Taken(SimpleReader {
                alloc,
                state: SimpleState::Left(longer),
            }))
        }
        _ => Ok(SimpleMove::Stuck),
    }
}

fn in_call(
    alloc: Global,
    reader: CallReader,
    token: &Token,
    class: Class,
) -> Result<SimpleMove, AllocError>
    requires { IsClass token.now class }
    ensures { (aliases : List (List ℕ))
        → IfOk result (IsSimpleMove aliases (InTurn (CompletesCall reader) (λ c. Ended (call c))) token.now) }
{
    match reader.step(token, class)? {
        CallStep::Taken(reader) => Ok(SimpleMove::Taken(SimpleReader {
            alloc,
            state: SimpleState::Call(reader),
        })),
        CallStep::Closed(call) => Ok(SimpleMove::Taken(SimpleReader {
            alloc,
            state: SimpleState::Done(Simple::Call(call)),
        })),
        CallStep::Stuck => Ok(SimpleMove::Stuck),
    }
}

fn just(alloc: Global, name: Name) -> LeftValue
    ensures { left_of result ≡ just name }
{
    LeftValue {
        name,
        fields: Vec::new(alloc),
    }
}

/// The variable or field, which the reader needs no more.
fn taken(alloc: Global, left: &mut LeftValue, place: Place) -> LeftValue
    ensures { result ≡ left.old }
{
    let name = Name {
        text: Text::new(alloc),
        place,
    };
    mem::replace(left, just(alloc, name))
}

fn with_field(left: LeftValue, name: Name) -> Result<LeftValue, AllocError>
    ensures { IfOk result (λ longer. left_of longer ≡ with_field (left_of left) name) }
{
    let LeftValue {
        name: variable,
        mut fields,
    } = left;
    fields.push(name)?;
    Ok(LeftValue {
        name: variable,
        fields,
    })
}

fn changed_first(change: Change, place: Place, left: LeftValue) -> Simple
    ensures { simple_of result ≡ changed_first change place (left_of left) }
{
    match change {
        Change::Increment => Simple::IncrementFirst(place, left),
        Change::Decrement => Simple::DecrementFirst(place, left),
    }
}

fn changed_by(change: Change, left: LeftValue, by: Expression) -> Simple
    ensures { simple_of result ≡ changed_by change (left_of left) (expression_of by) }
{
    match change {
        Change::Increment => Simple::Add(left, by),
        Change::Decrement => Simple::Subtract(left, by),
    }
}

/// Every reader can come to the end of a simple statement.
pub fn simples_can_end()
    ensures { (aliases : List (List ℕ)) (reader : SimpleReader) → CanEnd (CompletesSimple aliases reader) }
{
    expressions_can_end();
}
