// A reader of expressions.
ghost use Rattle.std.specs.Prelude.{◌≡◌, ◌≢◌, [], IfOk, OnOk, codes};
ghost use Rattle.mc_c_syntax.specs.Ast.Classes.{IsClass};
ghost use Rattle.mc_c_syntax.specs.Ast.Grammar.{IsSum};
ghost use Rattle.mc_c_syntax.specs.Ast.Readers.{IsSame, CanEnd};
ghost use Rattle.mc_c_syntax.specs.Ast.Names.{IsMark};
ghost use Rattle.mc_c_syntax.specs.Ast.Views.{expression_of};
ghost use Rattle.mc_c_parse_expr.specs.Turns.{Moves};
ghost use Rattle.mc_c_parse_expr.specs.Expressions.{AtOperand, AtSpot, AtSum, Behind, BehindOperand, BehindName, CompletesExpression, GoesOn, StepsExpression, negated, nothing, product_of, sum_of};

use crate::makes::{less_of, minus_of, parens_of, plus_of, times_of};
use crate::primary::{Primary, PrimaryStep, variable};
use mc_base::stack::Stack;
use mc_base::text::{Place, Token};
use mc_c_syntax::ast::{Class, Expression, LeftValue, Name};
use std::alloc::{AllocError, Global};
use std::mem;

/// Reads an expression, token by token.
pub struct ExpressionReader {
    alloc: Global,
    groups: Stack<Group>,
    pending: Pending,
    spot: Spot,
}

/// Drops what is read. What holds a reader calls this.
impl Drop for ExpressionReader {
    fn drop(self) {
        let ExpressionReader {
            alloc: _,
            groups,
            pending,
            spot,
        } = self;
        drop(groups);
        drop(pending);
        drop(spot);
    }
}

/// What a reader does with a token.
#[derive(Drop)]
pub enum ExpressionStep {
    /// It takes it.
    Taken,
    /// The expression ends before the token.
    Found(Expression),
    /// No text has this token here.
    Stuck,
}

/// What waits for the operand that is read.
struct Pending {
    sum: Option<Summed>,
    /// What is multiplied.
    factor: Option<Expression>,
    /// The places of the `-` signs before the operand.
    minuses: Stack<Place>,
}

/// Drops what waits. What replaces it calls this.
impl Drop for Pending {
    fn drop(self) {
        let Pending {
            sum,
            factor,
            minuses,
        } = self;
        drop(sum);
        drop(factor);
        drop(minuses);
    }
}

/// A sum with the `+` or `-` after it.
#[derive(Drop)]
enum Summed {
    Plus(Expression),
    Difference(Expression),
}

/// A `(` that is open, and what waits for what it begins.
#[derive(Drop)]
struct Group {
    place: Place,
    outer: Pending,
}

/// What the reader stands after.
#[derive(Drop)]
enum Spot {
    /// An operand comes next.
    Operand,
    /// The beginning of an operand.
    Primary(Primary),
    /// A whole operand.
    Unary(Expression),
}

impl ExpressionReader {
    /// A reader of an expression.
    pub fn new(alloc: Global) -> ExpressionReader
        ensures { IsSame (CompletesExpression result) (λ tokens rest e. IsSum e tokens rest) }
    {
        at_spot(alloc, Spot::Operand)
    }

    /// A reader of what is left of an expression after a name with which it begins.
    pub fn behind_name(alloc: Global, name: Name) -> ExpressionReader
        ensures { IsSame (CompletesExpression result) (BehindName name) }
    {
        let left = LeftValue {
            name,
            fields: Vec::new(alloc),
        };
        at_spot(alloc, Spot::Primary(Primary::Left(left)))
    }

    /// A reader of what is left of an expression after an operand with which it begins.
    pub fn behind_operand(alloc: Global, operand: Expression) -> ExpressionReader
        ensures { IsSame (CompletesExpression result) (BehindOperand (expression_of operand)) }
    {
        at_spot(alloc, Spot::Unary(operand))
    }

    /// Takes a token, or answers why not.
    pub fn step(&mut self, token: &Token, class: Class) -> Result<ExpressionStep, AllocError>
        requires { IsClass token.now class }
        ensures { IfOk result (λ step. StepsExpression (CompletesExpression self.old) (CompletesExpression self.new) token.now step) }
    {
        match mem::replace(&mut self.spot, Spot::Operand) {
            Spot::Operand => {
                let step = self.at_operand(token, class)?;
                Ok(step)
            }
            Spot::Primary(primary) => {
                let step = self.at_primary(primary, token, class)?;
                Ok(step)
            }
            Spot::Unary(operand) => {
                let step = self.behind_unary(operand, token, class)?;
                Ok(step)
            }
        }
    }

    fn at_operand(&mut self, token: &Token, class: Class) -> Result<ExpressionStep, AllocError>
        requires { IsClass token.now class }
        ensures { IfOk result
            (λ step. StepsExpression (AtOperand self.old.groups self.old.pending)
            (CompletesExpression self.new) token.now step) }
    {
        match class {
            Class::Minus => {
                self.negate(token)?;
                Ok(ExpressionStep::Taken)
            }
            Class::OpenParen => {
                self.open_group(token)?;
                Ok(ExpressionStep::Taken)
            }
            Class::Name => {
                self.spot = Spot::Primary(Primary::Left(variable(self.alloc, token)?));
                Ok(ExpressionStep::Taken)
            }
            Class::Number(value) => {
                self.spot = Spot::Unary(Expression::Number(value, token.place));
                Ok(ExpressionStep::Taken)
            }
            Class::Null => {
                self.spot = Spot::Unary(Expression::Null(token.place));
                Ok(ExpressionStep::Taken)
            }
            Class::Input => {
                self.spot = Spot::Primary(Primary::Input(token.place));
                Ok(ExpressionStep::Taken)
            }
            _ => Ok(ExpressionStep::Stuck),
        }
    }

    /// Takes a `-` before an operand.
    fn negate(&mut self, token: &Token) -> Result<(), AllocError>
        requires { IsMark (codes "-") token.now }
        ensures { OnOk result (Moves (AtOperand self.old.groups self.old.pending) (CompletesExpression self.new) token.now) }
    {
        self.pending.minuses.push(token.place)?;
        self.spot = Spot::Operand;
        Ok(())
    }

    /// Takes a `(`.
    fn open_group(&mut self, token: &Token) -> Result<(), AllocError>
        requires { IsMark (codes "(") token.now }
        ensures { OnOk result (Moves (AtOperand self.old.groups self.old.pending) (CompletesExpression self.new) token.now) }
    {
        let outer = mem::replace(&mut self.pending, fresh(self.alloc));
        self.groups.push(Group {
            place: token.place,
            outer,
        })?;
        self.spot = Spot::Operand;
        Ok(())
    }

    fn at_primary(
        &mut self,
        primary: Primary,
        token: &Token,
        class: Class,
    ) -> Result<ExpressionStep, AllocError>
        requires { IsClass token.now class }
        ensures { IfOk result
            (λ step. StepsExpression (AtSpot (Spot.Primary primary) self.old.groups self.old.pending)
            (CompletesExpression self.new) token.now step) }
    {
        match primary.step(self.alloc, token, class)? {
            PrimaryStep::Taken(primary) => {
                self.spot = Spot::Primary(primary);
                Ok(ExpressionStep::Taken)
            }
            PrimaryStep::Closed(operand) => {
                self.spot = Spot::Unary(operand);
                Ok(ExpressionStep::Taken)
            }
            PrimaryStep::Found(operand) => {
                let step = self.behind_unary(operand, token, class)?;
                Ok(step)
            }
            PrimaryStep::Stuck => Ok(ExpressionStep::Stuck),
        }
    }

    fn behind_unary(
        &mut self,
        operand: Expression,
        token: &Token,
        class: Class,
    ) -> Result<ExpressionStep, AllocError>
        requires { IsClass token.now class }
        ensures { IfOk result (λ step. StepsExpression
            (GoesOn self.old.pending (expression_of operand) (Behind self.old.groups))
            (CompletesExpression self.new) token.now step) }
    {
        let operand = with_minuses(self.alloc, &mut self.pending.minuses, operand)?;
        let product = multiplied(self.alloc, self.pending.factor.take(), operand)?;
        match class {
            Class::Star => {
                self.pending.factor = Some(product);
                self.spot = Spot::Operand;
                Ok(ExpressionStep::Taken)
            }
            _ => {
                let sum = added(self.alloc, self.pending.sum.take(), product)?;
                let step = self.behind_sum(sum, token, class)?;
                Ok(step)
            }
        }
    }

    fn behind_sum(
        &mut self,
        sum: Expression,
        token: &Token,
        class: Class,
    ) -> Result<ExpressionStep, AllocError>
        requires class { IsClass token.now class }
        requires no_star { class ≢ Class.Star }
        requires idle { self.old.pending ≡ nothing }
        ensures { IfOk result (λ step. StepsExpression (AtSum self.old.groups (expression_of sum))
            (CompletesExpression self.new) token.now step) }
    {
        match class {
            Class::Plus => {
                self.pending.sum = Some(Summed::Plus(sum));
                self.spot = Spot::Operand;
                Ok(ExpressionStep::Taken)
            }
            Class::Minus => {
                self.pending.sum = Some(Summed::Difference(sum));
                self.spot = Spot::Operand;
                Ok(ExpressionStep::Taken)
            }
            Class::CloseParen => {
                let step = self.close(sum, token)?;
                Ok(step)
            }
            _ => {
                if self.groups.is_empty() {
                    Ok(ExpressionStep::Found(sum))
                } else {
                    Ok(ExpressionStep::Stuck)
                }
            }
        }
    }

    /// Takes a `)`.
    fn close(&mut self, sum: Expression, token: &Token) -> Result<ExpressionStep, AllocError>
        requires { IsMark (codes ")") token.now }
        ensures { IfOk result (λ step. StepsExpression (AtSum self.old.groups (expression_of sum))
            (CompletesExpression self.new) token.now step) }
    {
        match self.groups.pop() {
            Some(Group { place, outer }) => {
                self.pending = outer;
                self.spot = Spot::Unary(parens_of(self.alloc, place, sum)?);
                Ok(ExpressionStep::Taken)
            }
            None => Ok(ExpressionStep::Found(sum)),
        }
    }
}

fn fresh(alloc: Global) -> Pending
    ensures { result ≡ nothing }
{
    Pending {
        sum: None,
        factor: None,
        minuses: Stack::new(alloc),
    }
}

fn at_spot(alloc: Global, spot: Spot) -> ExpressionReader
    ensures { result ≡ record { alloc = alloc; groups = []; pending = nothing; spot = spot } }
{
    ExpressionReader {
        alloc,
        groups: Stack::new(alloc),
        pending: fresh(alloc),
        spot,
    }
}

fn with_minuses(
    alloc: Global,
    minuses: &mut Stack<Place>,
    operand: Expression,
) -> Result<Expression, AllocError>
    ensures { IfOk result (λ e. (expression_of e ≡ negated minuses.old (expression_of operand)) × (minuses.new ≡ [])) }
{
    let mut operand = operand;
    while let Some(place) = minuses.pop() {
        operand = minus_of(alloc, place, operand)?;
    }
    Ok(operand)
}

fn multiplied(
    alloc: Global,
    factor: Option<Expression>,
    operand: Expression,
) -> Result<Expression, AllocError>
    ensures { IfOk result (λ e. expression_of e ≡ product_of factor (expression_of operand)) }
{
    match factor {
        None => Ok(operand),
        Some(left) => times_of(alloc, left, operand),
    }
}

fn added(alloc: Global, sum: Option<Summed>, product: Expression) -> Result<Expression, AllocError>
    ensures { IfOk result (λ e. expression_of e ≡ sum_of sum (expression_of product)) }
{
    match sum {
        None => Ok(product),
        Some(Summed::Plus(left)) => plus_of(alloc, left, product),
        Some(Summed::Difference(left)) => less_of(alloc, left, product),
    }
}

/// Every reader can come to the end of an expression.
pub fn expressions_can_end()
    ensures { (r : ExpressionReader) → CanEnd (CompletesExpression r) }
{}
