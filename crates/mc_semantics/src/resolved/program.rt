// Resolved programs: variables, fields, structs, functions and predicates are numbers.
use mc_base::text::{Place, Text};
use mc_base::trees::Several::{Many, Two};
use mc_base::trees::{Parts, Several, Tree, drop_tree};
use mc_base::{Kind, PredId, StructId};
use mc_c_syntax::ast::Comparison;
use std::convert::Infallible;

/// A field by its number, and the struct that it belongs to.
#[derive(Clone, Copy, Debug, PartialEq, Eq)]
pub struct FieldAt {
    pub shape: StructId,
    pub field: usize,
}

/// A variable by its number among those of its function, and the fields after it.
#[derive(Drop)]
pub struct LeftValue {
    pub variable: usize,
    pub fields: Vec<FieldAt>,
}

/// An expression; null is 0.
pub enum Expression {
    Number(u32),
    Input,
    Value(LeftValue),
    Minus(Box<Expression>),
    Times(Box<Expression>, Box<Expression>),
    Plus(Box<Expression>, Box<Expression>),
    Difference(Box<Expression>, Box<Expression>),
}

impl Drop for Expression {
    fn drop(self) {
        drop_tree(self);
    }
}

impl Tree for Expression {
    ghost use Rattle.mc_base.specs.Trees.{Holds};
    ghost use Rattle.mc_semantics.specs.Resolved.Sizes.{expression_size};

    type Rest = Infallible;

    ghost size = { expression_size };

    fn parts(self) -> Parts<Expression, Infallible> {
        match self {
            Expression::Number(_) | Expression::Input | Expression::Value(_) => Parts::Nothing,
            Expression::Minus(part) => Parts::One(part),
            Expression::Times(first, second)
            | Expression::Plus(first, second)
            | Expression::Difference(first, second) => Parts::Several(Two(first, second)),
        }
    }

    fn holding(trees: Several<Expression, Infallible>) -> Expression
        ensures { Holds expression_size result trees }
    {
        match trees {
            Two(first, second) => Expression::Times(first, second),
        }
    }
}

/// A condition; an atomic one is at its first token.
pub enum Condition {
    /// An expression that is not 0 or null.
    Plain(Place, Expression),
    Compare(Place, Comparison, Box<Expression>, Box<Expression>),
    Not(Box<Condition>),
    Both(Box<Condition>, Box<Condition>),
    Either(Box<Condition>, Box<Condition>),
}

impl Drop for Condition {
    fn drop(self) {
        drop_tree(self);
    }
}

impl Tree for Condition {
    ghost use Rattle.mc_base.specs.Trees.{Holds};
    ghost use Rattle.mc_semantics.specs.Resolved.Sizes.{condition_size};

    type Rest = Infallible;

    ghost size = { condition_size };

    fn parts(self) -> Parts<Condition, Infallible> {
        match self {
            Condition::Plain(_, _) | Condition::Compare(_, _, _, _) => Parts::Nothing,
            Condition::Not(part) => Parts::One(part),
            Condition::Both(first, second) | Condition::Either(first, second) => {
                Parts::Several(Two(first, second))
            }
        }
    }

    fn holding(trees: Several<Condition, Infallible>) -> Condition
        ensures { Holds condition_size result trees }
    {
        match trees {
            Two(first, second) => Condition::Both(first, second),
        }
    }
}

/// A call, of a function by its number among the defined ones.
#[derive(Drop)]
pub struct Call {
    pub function: usize,
    pub arguments: Vec<Expression>,
}

#[derive(Drop)]
pub enum RightSide {
    Expression(Expression),
    Call(Call),
    /// A struct that is allocated, and how many fields it has.
    Malloc(StructId, usize),
}

/// A declarator, perhaps with a value.
#[derive(Drop)]
pub struct Initial {
    pub variable: usize,
    pub value: Option<RightSide>,
}

#[derive(Drop)]
pub enum Action {
    Assign(LeftValue, RightSide),
    Add(LeftValue, Expression),
    Subtract(LeftValue, Expression),
    Call(Call),
}

/// A simple statement, at its first token.
#[derive(Drop)]
pub struct Simple {
    pub place: Place,
    pub action: Action,
}

/// An argument of a shape command.
#[derive(Clone, Copy, Debug, PartialEq, Eq)]
pub enum Argument {
    Variable(usize),
    Constant(i64),
}

/// `assume_shape(predicate, variable, ..);`
#[derive(Drop)]
pub struct AssumeShape {
    pub place: Place,
    pub predicate: PredId,
    pub variable: usize,
    pub arguments: Vec<Argument>,
}

/// `assert_shape(predicate, start, ..);`
#[derive(Drop)]
pub struct AssertShape {
    pub place: Place,
    pub predicate: PredId,
    pub start: Argument,
    pub arguments: Vec<Argument>,
}

/// A statement, at its first token; `assert` and `assume` are at the first token of their condition.
pub enum Statement {
    Declaration(Place, Vec<Initial>),
    /// A block, with the variables that are undefined after its end.
    Block(Vec<usize>, Vec<Statement>),
    /// `;`
    Empty,
    Simple(Simple),
    Free(Place, Expression),
    Assert(Place, Condition),
    Assume(Place, Condition),
    AssumeShape(AssumeShape),
    AssertShape(AssertShape),
    AssertEmpty(Place),
    If(Place, Condition, Box<Statement>),
    IfElse(Place, Condition, Box<Statement>, Box<Statement>),
    While(Place, Condition, Box<Statement>),
    Do(Place, Box<Statement>, Condition),
    For(Box<ForHead>, Box<Statement>),
    Break(Place),
    Continue(Place),
    Return(Place, Option<RightSide>),
}

impl Drop for Statement {
    fn drop(self) {
        drop_tree(self);
    }
}

impl Tree for Statement {
    ghost use Rattle.mc_base.specs.Trees.{Holds};
    ghost use Rattle.mc_semantics.specs.Resolved.Sizes.{statement_size};

    /// The variables of a block.
    type Rest = Vec<usize>;

    ghost size = { statement_size };

    fn parts(self) -> Parts<Statement, Vec<usize>> {
        match self {
            Statement::Declaration(_, _) | Statement::Simple(_) => Parts::Nothing,
            Statement::Free(_, _) | Statement::Return(_, _) => Parts::Nothing,
            Statement::Assert(_, _) | Statement::Assume(_, _) => Parts::Nothing,
            Statement::AssumeShape(_) | Statement::AssertShape(_) => Parts::Nothing,
            Statement::Empty | Statement::AssertEmpty(_) => Parts::Nothing,
            Statement::Break(_) | Statement::Continue(_) => Parts::Nothing,
            Statement::If(_, _condition, part)
            | Statement::While(_, _condition, part)
            | Statement::Do(_, part, _condition) => Parts::One(part),
            Statement::For(_head, part) => Parts::One(part),
            Statement::IfElse(_, _condition, first, second) => {
                Parts::Several(Two(first, second))
            }
            Statement::Block(variables, statements) => {
                Parts::Several(Many(variables, statements))
            }
        }
    }

    fn holding(trees: Several<Statement, Vec<usize>>) -> Statement
        ensures { Holds statement_size result trees }
    {
        match trees {
            Two(first, second) => {
                let place = Place { line: 0, column: 0 };
                let condition = Condition::Plain(place, Expression::Input);
                Statement::IfElse(place, condition, first, second)
            }
            Many(variables, statements) => Statement::Block(variables, statements),
        }
    }
}

/// What stands in the parentheses of a `for`, and the variables that it declares, which are undefined after it.
#[derive(Drop)]
pub struct ForHead {
    pub place: Place,
    pub start: ForStart,
    pub condition: Option<Condition>,
    pub last: Option<Simple>,
    pub variables: Vec<usize>,
}

#[derive(Drop)]
pub enum ForStart {
    Nothing,
    Declaration(Place, Vec<Initial>),
    Simple(Simple),
}

/// A variable of a function, at its declarator.
#[derive(Drop)]
pub struct Local {
    pub name: Text,
    pub place: Place,
    pub kind: Kind,
}

/// A function: its variables in the order of the text, of which the first ones are its parameters, and the kind of its result.
#[derive(Drop)]
pub struct Function {
    pub name: Text,
    pub locals: Vec<Local>,
    pub parameters: usize,
    pub result: Option<Kind>,
    pub body: Vec<Statement>,
}

/// A program: its defined functions in the order of the text, and the number of its entry.
#[derive(Drop)]
pub struct Resolved {
    pub functions: Vec<Function>,
    pub entry: usize,
}
