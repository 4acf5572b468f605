// The trees of programs: one type for each line of the grammar, with the places of their tokens.
use mc_base::text::{Place, Text};
use mc_base::trees::Several::{Many, Two};
use mc_base::trees::{Parts, Several, Tree, drop_tree};
use std::convert::Infallible;

/// A name, at its place.
#[derive(Drop)]
pub struct Name {
    pub text: Text,
    pub place: Place,
}

/// A variable, or a field after it: `x`, `x->f`, `x->f->g`.
#[derive(Drop)]
pub struct LeftValue {
    pub name: Name,
    pub fields: Vec<Name>,
}

/// An expression. What stands in parentheses is a form of its own.
pub enum Expression {
    Number(u32, Place),
    Null(Place),
    /// `input()`
    Input(Place),
    Value(LeftValue),
    /// `-e`, at the `-`.
    Minus(Place, Box<Expression>),
    /// `(e)`, at the `(`.
    Parens(Place, Box<Expression>),
    Times(Box<Expression>, Box<Expression>),
    Plus(Box<Expression>, Box<Expression>),
    Difference(Box<Expression>, Box<Expression>),
}

impl Drop for Expression {
    fn drop(self) {
        drop_tree(self);
    }
}

impl Tree for Expression {
    ghost use Rattle.mc_base.specs.Trees.{Holds};
    ghost use Rattle.mc_c_syntax.specs.Ast.Sizes.{expression_size};

    type Rest = Infallible;

    ghost size = { expression_size };

    fn parts(self) -> Parts<Expression, Infallible> {
        match self {
            Expression::Number(_, _)
            | Expression::Null(_)
            | Expression::Input(_)
            | Expression::Value(_) => Parts::Nothing,
            Expression::Minus(_, part) | Expression::Parens(_, part) => Parts::One(part),
            Expression::Times(first, second)
            | Expression::Plus(first, second)
            | Expression::Difference(first, second) => Parts::Several(Two(first, second)),
        }
    }

    fn holding(trees: Several<Expression, Infallible>) -> Expression
        ensures { Holds expression_size result trees }
    {
        match trees {
            Two(first, second) => Expression::Times(first, second),
        }
    }
}

#[derive(Clone, Copy, Debug, PartialEq, Eq)]
pub enum Comparison {
    Equal,
    Unequal,
    Below,
    AtMost,
    Above,
    AtLeast,
}

/// A condition.
pub enum Condition {
    /// An expression that is not 0 or null.
    Plain(Expression),
    Compare(Comparison, Box<Expression>, Box<Expression>),
    /// `!c`, at the `!`: c is a `!` again, a variable or field, `input()` or a condition in parentheses.
    Not(Place, Box<Condition>),
    /// `(c)`, at the `(`. Only after a `!` may c be a plain expression.
    Parens(Place, Box<Condition>),
    Both(Box<Condition>, Box<Condition>),
    Either(Box<Condition>, Box<Condition>),
}

impl Drop for Condition {
    fn drop(self) {
        drop_tree(self);
    }
}

impl Tree for Condition {
    ghost use Rattle.mc_base.specs.Trees.{Holds};
    ghost use Rattle.mc_c_syntax.specs.Ast.Sizes.{condition_size};

    type Rest = Infallible;

    ghost size = { condition_size };

    fn parts(self) -> Parts<Condition, Infallible> {
        match self {
            Condition::Plain(_) | Condition::Compare(_, _, _) => Parts::Nothing,
            Condition::Not(_, part) | Condition::Parens(_, part) => Parts::One(part),
            Condition::Both(first, second) | Condition::Either(first, second) => {
                Parts::Several(Two(first, second))
            }
        }
    }

    fn holding(trees: Several<Condition, Infallible>) -> Condition
        ensures { Holds condition_size result trees }
    {
        match trees {
            Two(first, second) => Condition::Both(first, second),
        }
    }
}

#[derive(Drop)]
pub struct Call {
    pub function: Name,
    pub arguments: Vec<Expression>,
}

/// `int`, `struct S`, or a name that a typedef introduced.
#[derive(Drop)]
pub enum Base {
    Int(Place),
    Struct(Place, Name),
    Alias(Name),
}

/// `x`, or `*x` with the place of the `*`.
#[derive(Drop)]
pub struct Declarator {
    pub pointer: Option<Place>,
    pub name: Name,
}

/// What `malloc` allocates, at the `sizeof`: `sizeof(struct S)`, `sizeof(*p)`, `sizeof *p`.
#[derive(Drop)]
pub enum Size {
    OfType(Place, Base),
    OfParens(Place, Name),
    OfValue(Place, Name),
}

/// `(struct S *)`, at its `(`.
#[derive(Drop)]
pub struct Cast {
    pub place: Place,
    pub base: Base,
    pub pointer: Option<Place>,
}

/// `malloc(..)`, at the word `malloc`, perhaps after a cast.
#[derive(Drop)]
pub struct Malloc {
    pub cast: Option<Cast>,
    pub place: Place,
    pub size: Size,
}

#[derive(Drop)]
pub enum RightSide {
    Expression(Expression),
    Call(Call),
    Malloc(Box<Malloc>),
}

/// A declarator, perhaps with a value.
#[derive(Drop)]
pub struct Initial {
    pub declarator: Declarator,
    pub value: Option<RightSide>,
}

#[derive(Drop)]
pub struct Declaration {
    pub base: Base,
    pub items: Vec<Initial>,
}

#[derive(Drop)]
pub enum Simple {
    Assign(LeftValue, RightSide),
    Add(LeftValue, Expression),
    Subtract(LeftValue, Expression),
    /// `x++`
    Increment(LeftValue),
    /// `x--`
    Decrement(LeftValue),
    /// `++x`, at the `++`.
    IncrementFirst(Place, LeftValue),
    /// `--x`, at the `--`.
    DecrementFirst(Place, LeftValue),
    Call(Call),
}

/// An argument of a shape command; a number may be negative, and is at its first token.
#[derive(Drop)]
pub enum Argument {
    Name(Name),
    Null(Place),
    Number(u32, Place),
    Negative(u32, Place),
}

/// `assume_shape(predicate, variable, ..);`
#[derive(Drop)]
pub struct AssumeShape {
    pub place: Place,
    pub predicate: Name,
    pub variable: Name,
    pub arguments: Vec<Argument>,
}

/// `assert_shape(predicate, start, ..);`
#[derive(Drop)]
pub struct AssertShape {
    pub place: Place,
    pub predicate: Name,
    pub start: Argument,
    pub arguments: Vec<Argument>,
}

/// A statement, at its first token.
pub enum Statement {
    Declaration(Declaration),
    Block(Place, Vec<Statement>),
    /// `;`
    Empty(Place),
    Simple(Simple),
    Free(Place, Expression),
    Assert(Place, Condition),
    Assume(Place, Condition),
    AssumeShape(AssumeShape),
    AssertShape(AssertShape),
    AssertEmpty(Place),
    If(Place, Condition, Box<Statement>),
    IfElse(Place, Condition, Box<Statement>, Box<Statement>),
    While(Place, Condition, Box<Statement>),
    Do(Place, Box<Statement>, Condition),
    For(Box<ForHead>, Box<Statement>),
    Break(Place),
    Continue(Place),
    Return(Place, Option<RightSide>),
}

impl Drop for Statement {
    fn drop(self) {
        drop_tree(self);
    }
}

impl Tree for Statement {
    ghost use Rattle.mc_base.specs.Trees.{Holds};
    ghost use Rattle.mc_c_syntax.specs.Ast.Sizes.{statement_size};

    /// The place of a block.
    type Rest = Place;

    ghost size = { statement_size };

    fn parts(self) -> Parts<Statement, Place> {
        match self {
            Statement::Declaration(_) | Statement::Simple(_) => Parts::Nothing,
            Statement::Free(_, _) | Statement::Return(_, _) => Parts::Nothing,
            Statement::Assert(_, _) | Statement::Assume(_, _) => Parts::Nothing,
            Statement::AssumeShape(_) | Statement::AssertShape(_) => Parts::Nothing,
            Statement::Empty(_) | Statement::AssertEmpty(_) => Parts::Nothing,
            Statement::Break(_) | Statement::Continue(_) => Parts::Nothing,
            Statement::If(_, _condition, part)
            | Statement::While(_, _condition, part)
            | Statement::Do(_, part, _condition) => Parts::One(part),
            Statement::For(_head, part) => Parts::One(part),
            Statement::IfElse(_, _condition, first, second) => Parts::Several(Two(first, second)),
            Statement::Block(place, statements) => Parts::Several(Many(place, statements)),
        }
    }

    fn holding(trees: Several<Statement, Place>) -> Statement
        ensures { Holds statement_size result trees }
    {
        match trees {
            Two(first, second) => {
                let place = Place { line: 0, column: 0 };
                let condition = Condition::Plain(Expression::Null(place));
                Statement::IfElse(place, condition, first, second)
            }
            Many(place, statements) => Statement::Block(place, statements),
        }
    }
}

/// What stands in the parentheses of a `for`.
#[derive(Drop)]
pub struct ForHead {
    pub place: Place,
    pub start: ForStart,
    pub condition: Option<Condition>,
    pub last: Option<Simple>,
}

#[derive(Drop)]
pub enum ForStart {
    Nothing,
    Declaration(Declaration),
    Simple(Simple),
}

/// Fields of one base.
#[derive(Drop)]
pub struct Field {
    pub base: Base,
    pub declarators: Vec<Declarator>,
}

/// `struct S { .. }`, at the word `struct`.
#[derive(Drop)]
pub struct Struct {
    pub place: Place,
    pub name: Name,
    pub fields: Vec<Field>,
}

#[derive(Drop)]
pub enum Aliased {
    Base(Base),
    Struct(Struct),
}

#[derive(Drop)]
pub struct Typedef {
    pub place: Place,
    pub aliased: Aliased,
    pub declarators: Vec<Declarator>,
}

/// What a function gives: nothing, or a value, with the place of the `*` where there is one.
#[derive(Drop)]
pub enum Returned {
    Void(Place),
    Value(Base, Option<Place>),
}

#[derive(Drop)]
pub struct Parameter {
    pub base: Base,
    pub declarator: Declarator,
}

/// `()`, `(void)`, or parameters.
#[derive(Drop)]
pub enum Parameters {
    Empty,
    Void(Place),
    Listed(Vec<Parameter>),
}

/// The block of a function, at its `{`.
#[derive(Drop)]
pub struct Body {
    pub place: Place,
    pub statements: Vec<Statement>,
}

/// A function, or its prototype where it has no body. `static_place` is the place of `static`.
#[derive(Drop)]
pub struct Function {
    pub static_place: Option<Place>,
    pub returned: Returned,
    pub name: Name,
    pub parameters: Parameters,
    pub body: Option<Body>,
}

#[derive(Drop)]
pub enum Item {
    Struct(Struct),
    Typedef(Typedef),
    Function(Function),
}

/// A whole program.
#[derive(Drop)]
pub struct Unit {
    pub items: Vec<Item>,
}
