// Reads a declaration after its base.
ghost use Rattle.std.specs.Prelude.{◌≡◌, ℕ, List, Some, IfOk, map};
ghost use Rattle.mc_c_syntax.specs.Ast.Classes.{IsClass};
ghost use Rattle.mc_c_syntax.specs.Ast.Names.{is_in, IsName, name_of};
ghost use Rattle.mc_c_syntax.specs.Ast.Readers.{IsSame, CanEnd};
ghost use Rattle.mc_c_parse_simple.specs.Declarations.{BehindBase, BehindComma, BehindDeclarator, BehindInitial};
ghost use Rattle.mc_c_parse_simple.specs.Declarations.{BehindInitials, CompletesDeclaration, IsDeclarationMove};
ghost use Rattle.mc_c_parse_simple.specs.Declarations.{IsDeclarationPut, IsDeclarationStep, IsInInitial};
ghost use Rattle.mc_c_parse_simple.specs.Phrases.{Next};
ghost use Rattle.mc_c_syntax.specs.Ast.Views.{initial_of, right_of};
ghost use Rattle.mc_c_syntax.specs.declared.ast.trees.Declarator.{Declarator};
ghost use Rattle.mc_c_parse_simple.specs.declared.declaration.DeclarationState.TheVariants as DeclarationState;
ghost use Rattle.mc_c_parse_simple.specs.declared.right.RightReader.{RightReader};
ghost use Rattle.mc_c_parse_simple.specs.declared.declaration.DeclarationReader.{DeclarationReader};

use crate::right::{RightReader, RightStep};
use mc_base::text::{Place, Token};
use mc_c_parse_expr::expressions_can_end;
use mc_c_syntax::ast::{Base, Class, Declaration, Declarator, Initial, RightSide, name_at};
use std::alloc::{AllocError, Global};
use std::mem;

/// Reads a declaration after its base, up to its `;`.
pub struct DeclarationReader {
    alloc: Global,
    base: Base,
    items: Vec<Initial>,
    state: DeclarationState,
}

/// Drops what is read. What holds a reader calls this.
impl Drop for DeclarationReader {
    fn drop(self) {
        let DeclarationReader {
            base,
            items,
            state,
            alloc: _,
        } = self;
        drop(base);
        drop(items);
        drop(state);
    }
}

#[derive(Drop)]
enum DeclarationState {
    /// At a declarator.
    Start,
    /// After the `*` of one.
    Pointer(Place),
    /// After a declarator.
    Named(Declarator),
    /// In the value of one.
    Value(Declarator, RightReader),
}

/// What a token does to a declaration.
#[derive(Drop)]
pub enum DeclarationStep {
    Taken,
    /// The declaration, whose `;` the token is.
    Closed(Declaration),
    Stuck,
}

/// The same, with the reader after the token.
#[derive(Drop)]
enum DeclarationMove {
    Taken(DeclarationReader),
    /// The declaration, whose `;` the token is.
    Closed(Declaration),
    Stuck,
}

impl DeclarationReader {
    /// After the base.
    pub fn behind_base(alloc: Global, base: Base) -> DeclarationReader
        ensures { (aliases : List (List ℕ)) → IsSame (CompletesDeclaration aliases result) (BehindBase aliases base) }
    {
        DeclarationReader {
            alloc,
            base,
            items: Vec::new(alloc),
            state: DeclarationState::Start,
        }
    }

    /// Takes a token. `alias` says whether a typedef introduced it.
    pub fn step(
        &mut self,
        token: &Token,
        class: Class,
        alias: bool,
    ) -> Result<DeclarationStep, AllocError>
        requires { IsClass token.now class }
        ensures { (aliases : List (List ℕ)) → is_in aliases token.now.text ≡ alias
            → IfOk result (IsDeclarationStep (CompletesDeclaration aliases self.old) (CompletesDeclaration aliases self.new) token.now) }
    {
        match &mut self.state {
            DeclarationState::Value(_, reader) => match reader.step(token, class, alias)? {
                RightStep::Taken => Ok(DeclarationStep::Taken),
                RightStep::Found(right) => {
                    let step = self.taken(token.place).with_value(right, token, class)?;
                    Ok(self.put(step))
                }
                RightStep::Stuck => Ok(DeclarationStep::Stuck),
            },
            _ => self.step_beside_values(token, class),
        }
    }

    /// The same where no value of a declarator is read.
    fn step_beside_values(
        &mut self,
        token: &Token,
        class: Class,
    ) -> Result<DeclarationStep, AllocError>
        requires class { IsClass token.now class }
        requires beside { IsInInitial self.old → ⊥ }
        ensures { (aliases : List (List ℕ))
            → IfOk result
            (IsDeclarationStep (CompletesDeclaration aliases self.old)
            (CompletesDeclaration aliases self.new) token.now) }
    {
        let step = self.taken(token.place).moved(token, class)?;
        Ok(self.put(step))
    }

    /// The reader by value.
    fn taken(&mut self, place: Place) -> DeclarationReader
        ensures { result ≡ self.old }
    {
        let fresh = DeclarationReader::behind_base(self.alloc, Base::Int(place));
        mem::replace(self, fresh)
    }

    /// After the value of the declarator.
    fn with_value(
        self,
        right: RightSide,
        token: &Token,
        class: Class,
    ) -> Result<DeclarationMove, AllocError>
        requires { IsClass token.now class }
        ensures { (declarator : Declarator) (reader : RightReader)
            → self.state ≡ DeclarationState.Value declarator reader → (aliases : List (List ℕ))
            → IfOk result
            (IsDeclarationMove aliases
            (BehindInitial aliases self.base (map initial_of self.items.items)
            (record { declarator = declarator; value = Some (right_of right) })) token.now) }
    {
        let DeclarationReader {
            alloc,
            base,
            mut items,
            state,
        } = self;
        match state {
            DeclarationState::Value(declarator, _) => {
                items.push(Initial {
                    declarator,
                    value: Some(right),
                })?;
                Ok(behind_initial(alloc, base, items, token, class))
            }
            _ => Ok(DeclarationMove::Stuck),
        }
    }

    /// A step by value, done in place.
    fn put(&mut self, step: DeclarationMove) -> DeclarationStep
        ensures { IsDeclarationPut step self.new result }
    {
        match step {
            DeclarationMove::Taken(next) => {
                *self = next;
                DeclarationStep::Taken
            }
            DeclarationMove::Closed(made) => DeclarationStep::Closed(made),
            DeclarationMove::Stuck => DeclarationStep::Stuck,
        }
    }

    /// The same, by value.
    fn moved(self, token: &Token, class: Class) -> Result<DeclarationMove, AllocError>
        requires class { IsClass token.now class }
        requires beside { IsInInitial self → ⊥ }
        ensures { (aliases : List (List ℕ)) → IfOk result (IsDeclarationMove aliases (CompletesDeclaration aliases self) token.now) }
    {
        let DeclarationReader {
            alloc,
            base,
            items,
            state,
        } = self;
        match state {
            DeclarationState::Start => start(alloc, base, items, token, class),
            DeclarationState::Pointer(place) => behind_star(
                alloc, base, items, place, token, class,
            ),
            DeclarationState::Named(declarator) => behind_declarator(
                alloc, base, items, declarator, token, class,
            ),
            DeclarationState::Value(_, _) => unreachable!(),
        }
    }
}

fn start(
    alloc: Global,
    base: Base,
    items: Vec<Initial>,
    token: &Token,
    class: Class,
) -> Result<DeclarationMove, AllocError>
    requires { IsClass token.now class }
    ensures { (aliases : List (List ℕ))
        → IfOk result (IsDeclarationMove aliases (BehindComma aliases base (map initial_of items.items)) token.now) }
{
    match class {
        Class::Star => Ok(DeclarationMove::Taken(DeclarationReader {
            alloc,
            base,
            items,
            state: DeclarationState::Pointer(token.place),
        })),
        Class::Name => {
            let name = name_at(alloc, token)?;
            let declarator = Declarator {
                pointer: None,
                name,
            };
            Ok(DeclarationMove::Taken(DeclarationReader {
                alloc,
                base,
                items,
                state: DeclarationState::Named(declarator),
            }))
        }
        _ => Ok(DeclarationMove::Stuck),
    }
}

fn behind_star(
    alloc: Global,
    base: Base,
    items: Vec<Initial>,
    place: Place,
    token: &Token,
    class: Class,
) -> Result<DeclarationMove, AllocError>
    requires { IsClass token.now class }
    ensures { (aliases : List (List ℕ))
        → IfOk result (IsDeclarationMove aliases
        (Next IsName (λ name. BehindDeclarator aliases base (map initial_of items.items)
        (record { pointer = Some place; name = name_of name }))) token.now) }
{
    match class {
        Class::Name => {
            let name = name_at(alloc, token)?;
            let declarator = Declarator {
                pointer: Some(place),
                name,
            };
            Ok(DeclarationMove::Taken(DeclarationReader {
                alloc,
                base,
                items,
                state: DeclarationState::Named(declarator),
            }))
        }
        _ => Ok(DeclarationMove::Stuck),
    }
}

fn behind_declarator(
    alloc: Global,
    base: Base,
    mut items: Vec<Initial>,
    declarator: Declarator,
    token: &Token,
    class: Class,
) -> Result<DeclarationMove, AllocError>
    requires { IsClass token.now class }
    ensures { (aliases : List (List ℕ))
        → IfOk result
        (IsDeclarationMove aliases
        (BehindDeclarator aliases base (map initial_of items.items) declarator) token.now) }
{
    match class {
        Class::Assign => {
            let reader = RightReader::new(alloc);
            Ok(DeclarationMove::Taken(DeclarationReader {
                alloc,
                base,
                items,
                state: DeclarationState::Value(declarator, reader),
            }))
        }
        _ => {
            items.push(Initial {
                declarator,
                value: None,
            })?;
            Ok(behind_initial(alloc, base, items, token, class))
        }
    }
}

fn behind_initial(
    alloc: Global,
    base: Base,
    items: Vec<Initial>,
    token: &Token,
    class: Class,
) -> DeclarationMove
    requires { IsClass token.now class }
    ensures { (aliases : List (List ℕ))
        → IsDeclarationMove aliases (BehindInitials aliases base (map initial_of items.items)) token.now result }
{
    match class {
        Class::Comma => DeclarationMove::Taken(DeclarationReader {
            alloc,
            base,
            items,
            state: DeclarationState::Start,
        }),
        Class::Semicolon => DeclarationMove::Closed(Declaration { base, items }),
        _ => DeclarationMove::Stuck,
    }
}

/// Every reader can come to the end of a declaration.
pub fn declarations_can_end()
    ensures { (aliases : List (List ℕ)) (reader : DeclarationReader) → CanEnd (CompletesDeclaration aliases reader) }
{
    expressions_can_end();
}
