// A reader of conditions.
ghost use Rattle.std.specs.Prelude.{◌≡◌, ◌≢◌, [], IfOk, OnOk, codes};
ghost use Rattle.mc_c_syntax.specs.Ast.Classes.{IsClass};
ghost use Rattle.mc_c_syntax.specs.Ast.Grammar.{IsCondition, IsSum};
ghost use Rattle.mc_c_syntax.specs.Ast.Readers.{IsSame, CanEnd};
ghost use Rattle.mc_c_syntax.specs.Ast.Names.{IsMark};
ghost use Rattle.mc_c_syntax.specs.Ast.Views.{condition_of, expression_of};
ghost use Rattle.mc_c_parse_expr.specs.Conditions.{AtConditionOperand, AtConditionSpot, AtEither, BeginsDenied};
ghost use Rattle.mc_c_parse_expr.specs.Conditions.{BehindCondition, CompletesCondition, HasNoReader, IsEnclosed};
ghost use Rattle.mc_c_parse_expr.specs.Conditions.{IsSeen, Joins, MaybeCompared, StepsCondition, at_right, denied};
ghost use Rattle.mc_c_parse_expr.specs.Conditions.{either_of, both_of, nothing, whole_of};
ghost use Rattle.mc_c_parse_expr.specs.Turns.{InTurn, Moves};

use crate::expression::{ExpressionReader, ExpressionStep};
use crate::makes::{both_of, compare_of, either_of, enclosed_of, not_of, parens_of};
use crate::primary::{Primary, PrimaryStep, variable};
use mc_base::stack::Stack;
use mc_base::text::{Place, Token};
use mc_c_syntax::ast::{Class, Comparison, Condition, Expression};
use std::alloc::{AllocError, Global};
use std::mem;

/// Reads a condition, token by token.
pub struct ConditionReader {
    alloc: Global,
    groups: Stack<ConditionGroup>,
    pending: ConditionPending,
    spot: ConditionSpot,
}

/// Drops what is read. What holds a reader calls this.
impl Drop for ConditionReader {
    fn drop(self) {
        let ConditionReader {
            alloc: _,
            groups,
            pending,
            spot,
        } = self;
        drop(groups);
        drop(pending);
        drop(spot);
    }
}

/// What a reader does with a token.
#[derive(Drop)]
pub enum ConditionStep {
    /// It takes it.
    Taken,
    /// The condition ends before the token.
    Found(Condition),
    /// No text has this token here.
    Stuck,
}

/// What waits for the operand that is read.
struct ConditionPending {
    /// What stands before the last `||`.
    either: Option<Condition>,
    /// What stands before the last `&&`.
    both: Option<Condition>,
    /// The places of the `!` signs before the operand.
    bangs: Stack<Place>,
}

/// Drops what waits. What replaces it calls this.
impl Drop for ConditionPending {
    fn drop(self) {
        let ConditionPending {
            either,
            both,
            bangs,
        } = self;
        drop(either);
        drop(both);
        drop(bangs);
    }
}

/// A `(` that is open, and what waits for what it begins.
#[derive(Drop)]
struct ConditionGroup {
    place: Place,
    outer: ConditionPending,
}

/// What the reader stands after.
#[derive(Drop)]
enum ConditionSpot {
    /// An operand comes next.
    Operand,
    /// The beginning of an operand after a `!`.
    Primary(Primary),
    /// The beginning of an expression.
    Sum(ExpressionReader),
    /// A comparison, and the beginning of its right side.
    Compared(LeftSide, ExpressionReader),
    /// A whole operand.
    Whole(Whole),
}

/// The left side of a comparison, with its mark.
#[derive(Drop)]
struct LeftSide {
    mark: Comparison,
    left: Expression,
}

/// A condition that may still become a part of an expression.
#[derive(Drop)]
enum Whole {
    Plain(Expression),
    Compare(Comparison, Expression, Expression),
    Not(Place, Condition),
    Parens(Place, Condition),
    Both(Condition, Condition),
    Either(Condition, Condition),
}

impl ConditionReader {
    /// A reader of a condition.
    pub fn new(alloc: Global) -> ConditionReader
        ensures { IsSame (CompletesCondition result) (λ tokens rest c. IsCondition c tokens rest) }
    {
        ConditionReader {
            alloc,
            groups: Stack::new(alloc),
            pending: fresh(alloc),
            spot: ConditionSpot::Operand,
        }
    }

    /// Takes a token, or answers why not.
    pub fn step(&mut self, token: &Token, class: Class) -> Result<ConditionStep, AllocError>
        requires { IsClass token.now class }
        ensures { IfOk result (λ step. StepsCondition (CompletesCondition self.old) (CompletesCondition self.new) token.now step) }
    {
        match &mut self.spot {
            ConditionSpot::Sum(reader) => match reader.step(token, class)? {
                ExpressionStep::Taken => Ok(ConditionStep::Taken),
                ExpressionStep::Found(sum) => {
                    let step = self.behind_sum(sum, token, class)?;
                    Ok(step)
                }
                ExpressionStep::Stuck => Ok(ConditionStep::Stuck),
            },
            ConditionSpot::Compared(_, reader) => match reader.step(token, class)? {
                ExpressionStep::Taken => Ok(ConditionStep::Taken),
                ExpressionStep::Found(right) => {
                    let step = self.behind_right(right, token, class)?;
                    Ok(step)
                }
                ExpressionStep::Stuck => Ok(ConditionStep::Stuck),
            },
            _ => {
                let step = self.step_between(token, class)?;
                Ok(step)
            }
        }
    }

    /// Takes a token where no expression is read.
    fn step_between(&mut self, token: &Token, class: Class) -> Result<ConditionStep, AllocError>
        requires class { IsClass token.now class }
        requires spot { HasNoReader self.old.spot }
        ensures { IfOk result (λ step. StepsCondition (CompletesCondition self.old) (CompletesCondition self.new) token.now step) }
    {
        match mem::replace(&mut self.spot, ConditionSpot::Operand) {
            ConditionSpot::Operand => {
                let step = self.at_operand(token, class)?;
                Ok(step)
            }
            ConditionSpot::Primary(primary) => {
                let step = self.at_primary(primary, token, class)?;
                Ok(step)
            }
            ConditionSpot::Whole(whole) => {
                let step = self.behind_whole(whole, token, class)?;
                Ok(step)
            }
            _ => Ok(ConditionStep::Stuck),
        }
    }

    fn at_operand(&mut self, token: &Token, class: Class) -> Result<ConditionStep, AllocError>
        requires { IsClass token.now class }
        ensures { IfOk result
            (λ step. StepsCondition (AtConditionOperand self.old.groups self.old.pending)
            (CompletesCondition self.new) token.now step) }
    {
        match class {
            Class::Bang => {
                self.deny(token)?;
                Ok(ConditionStep::Taken)
            }
            Class::OpenParen => {
                self.open_group(token)?;
                Ok(ConditionStep::Taken)
            }
            _ => {
                let step = self.begin_operand(token, class)?;
                Ok(step)
            }
        }
    }

    /// Takes a `!`.
    fn deny(&mut self, token: &Token) -> Result<(), AllocError>
        requires { IsMark (codes "!") token.now }
        ensures { OnOk result (Moves (AtConditionOperand self.old.groups self.old.pending) (CompletesCondition self.new) token.now) }
    {
        self.pending.bangs.push(token.place)?;
        self.spot = ConditionSpot::Operand;
        Ok(())
    }

    /// Takes a `(`.
    fn open_group(&mut self, token: &Token) -> Result<(), AllocError>
        requires { IsMark (codes "(") token.now }
        ensures { OnOk result (Moves (AtConditionOperand self.old.groups self.old.pending) (CompletesCondition self.new) token.now) }
    {
        let outer = mem::replace(&mut self.pending, fresh(self.alloc));
        self.groups.push(ConditionGroup {
            place: token.place,
            outer,
        })?;
        self.spot = ConditionSpot::Operand;
        Ok(())
    }

    /// Takes the first token of an operand that begins with no `!` and no `(`.
    fn begin_operand(&mut self, token: &Token, class: Class) -> Result<ConditionStep, AllocError>
        requires class { IsClass token.now class }
        requires no_bang { class ≢ Class.Bang }
        requires no_parens { class ≢ Class.OpenParen }
        ensures { IfOk result
            (λ step. StepsCondition (AtConditionOperand self.old.groups self.old.pending)
            (CompletesCondition self.new) token.now step) }
    {
        if self.pending.bangs.is_empty() {
            let step = self.begin_sum(token, class)?;
            Ok(step)
        } else {
            match begin_denied(self.alloc, token, class)? {
                Some(primary) => {
                    self.spot = ConditionSpot::Primary(primary);
                    Ok(ConditionStep::Taken)
                }
                None => Ok(ConditionStep::Stuck),
            }
        }
    }

    /// Takes the first token of an expression.
    fn begin_sum(&mut self, token: &Token, class: Class) -> Result<ConditionStep, AllocError>
        requires { IsClass token.now class }
        ensures { IfOk result (λ step. StepsCondition
            (InTurn (λ tokens rest e. IsSum e tokens rest)
            (λ e. MaybeCompared self.old.pending e (BehindCondition self.old.groups)))
            (CompletesCondition self.new) token.now step) }
    {
        let mut reader = ExpressionReader::new(self.alloc);
        match reader.step(token, class)? {
            ExpressionStep::Taken => {
                self.spot = ConditionSpot::Sum(reader);
                Ok(ConditionStep::Taken)
            }
            ExpressionStep::Found(sum) => {
                let step = self.behind_sum(sum, token, class)?;
                Ok(step)
            }
            ExpressionStep::Stuck => Ok(ConditionStep::Stuck),
        }
    }

    fn at_primary(
        &mut self,
        primary: Primary,
        token: &Token,
        class: Class,
    ) -> Result<ConditionStep, AllocError>
        requires { IsClass token.now class }
        ensures { IfOk result
            (λ step. StepsCondition
            (AtConditionSpot (ConditionSpot.Primary primary) self.old.groups self.old.pending)
            (CompletesCondition self.new) token.now step) }
    {
        match primary.step(self.alloc, token, class)? {
            PrimaryStep::Taken(primary) => {
                self.spot = ConditionSpot::Primary(primary);
                Ok(ConditionStep::Taken)
            }
            PrimaryStep::Closed(operand) => {
                self.spot = ConditionSpot::Whole(Whole::Plain(operand));
                Ok(ConditionStep::Taken)
            }
            PrimaryStep::Found(operand) => {
                let step = self.behind_whole(Whole::Plain(operand), token, class)?;
                Ok(step)
            }
            PrimaryStep::Stuck => Ok(ConditionStep::Stuck),
        }
    }

    fn behind_sum(
        &mut self,
        sum: Expression,
        token: &Token,
        class: Class,
    ) -> Result<ConditionStep, AllocError>
        requires { IsClass token.now class }
        ensures { IfOk result (λ step. StepsCondition
            (MaybeCompared self.old.pending (expression_of sum) (BehindCondition self.old.groups))
            (CompletesCondition self.new) token.now step) }
    {
        match class {
            Class::Compare(mark) => {
                let side = LeftSide { mark, left: sum };
                self.spot = ConditionSpot::Compared(side, ExpressionReader::new(self.alloc));
                Ok(ConditionStep::Taken)
            }
            _ => {
                let step = self.behind_whole(Whole::Plain(sum), token, class)?;
                Ok(step)
            }
        }
    }

    /// After the right side of a comparison.
    fn behind_right(
        &mut self,
        right: Expression,
        token: &Token,
        class: Class,
    ) -> Result<ConditionStep, AllocError>
        requires { IsClass token.now class }
        ensures { IfOk result (λ step. StepsCondition
            (Joins self.old.pending (at_right self.old.spot (expression_of right))
            (BehindCondition self.old.groups)) (CompletesCondition self.new) token.now step) }
    {
        let spot = mem::replace(&mut self.spot, ConditionSpot::Operand);
        self.behind_whole(compared(spot, right), token, class)
    }

    fn behind_whole(
        &mut self,
        operand: Whole,
        token: &Token,
        class: Class,
    ) -> Result<ConditionStep, AllocError>
        requires { IsClass token.now class }
        ensures { IfOk result (λ step. StepsCondition
            (Joins self.old.pending (whole_of operand) (BehindCondition self.old.groups))
            (CompletesCondition self.new) token.now step) }
    {
        let operand = with_bangs(self.alloc, &mut self.pending.bangs, operand)?;
        let whole = joined(self.alloc, self.pending.both.take(), operand)?;
        match class {
            Class::And => {
                self.pending.both = Some(made(self.alloc, whole)?);
                self.spot = ConditionSpot::Operand;
                Ok(ConditionStep::Taken)
            }
            _ => {
                let whole = alternated(self.alloc, self.pending.either.take(), whole)?;
                let step = self.behind_both(whole, token, class)?;
                Ok(step)
            }
        }
    }

    fn behind_both(
        &mut self,
        whole: Whole,
        token: &Token,
        class: Class,
    ) -> Result<ConditionStep, AllocError>
        requires class { IsClass token.now class }
        requires no_and { class ≢ Class.And }
        requires idle { self.old.pending ≡ nothing }
        ensures { IfOk result (λ step. StepsCondition (AtEither self.old.groups (whole_of whole))
            (CompletesCondition self.new) token.now step) }
    {
        match class {
            Class::Or => {
                self.pending.either = Some(made(self.alloc, whole)?);
                self.spot = ConditionSpot::Operand;
                Ok(ConditionStep::Taken)
            }
            Class::CloseParen => {
                let step = self.close(whole, token)?;
                Ok(step)
            }
            _ => {
                if self.groups.is_empty() {
                    let condition = made(self.alloc, whole)?;
                    Ok(ConditionStep::Found(condition))
                } else {
                    Ok(ConditionStep::Stuck)
                }
            }
        }
    }

    /// Takes a `)`.
    fn close(&mut self, whole: Whole, token: &Token) -> Result<ConditionStep, AllocError>
        requires { IsMark (codes ")") token.now }
        ensures { IfOk result (λ step. StepsCondition (AtEither self.old.groups (whole_of whole))
            (CompletesCondition self.new) token.now step) }
    {
        match self.groups.pop() {
            Some(ConditionGroup { place, outer }) => {
                self.spot = enclosed(self.alloc, place, &outer.bangs, whole)?;
                self.pending = outer;
                Ok(ConditionStep::Taken)
            }
            None => {
                let condition = made(self.alloc, whole)?;
                Ok(ConditionStep::Found(condition))
            }
        }
    }
}

/// Every reader can come to the end of a condition.
pub fn conditions_can_end()
    ensures { (r : ConditionReader) → CanEnd (CompletesCondition r) }
{}

fn fresh(alloc: Global) -> ConditionPending
    ensures { result ≡ nothing }
{
    ConditionPending {
        either: None,
        both: None,
        bangs: Stack::new(alloc),
    }
}

fn begin_denied(alloc: Global, token: &Token, class: Class) -> Result<Option<Primary>, AllocError>
    requires class { IsClass token.now class }
    requires no_bang { class ≢ Class.Bang }
    requires no_parens { class ≢ Class.OpenParen }
    ensures { IfOk result (λ begun. BeginsDenied token.now begun) }
{
    match class {
        Class::Name => {
            let left = variable(alloc, token)?;
            Ok(Some(Primary::Left(left)))
        }
        Class::Input => Ok(Some(Primary::Input(token.place))),
        _ => Ok(None),
    }
}

/// The comparison of which this is the right side.
fn compared(spot: ConditionSpot, right: Expression) -> Whole
    ensures { whole_of result ≡ at_right spot (expression_of right) }
{
    match spot {
        ConditionSpot::Compared(side, _) => Whole::Compare(side.mark, side.left, right),
        _ => Whole::Plain(right),
    }
}

/// What stands after parentheses: an expression, if one is in them and no `!` before them.
fn enclosed(
    alloc: Global,
    place: Place,
    bangs: &Stack<Place>,
    whole: Whole,
) -> Result<ConditionSpot, AllocError>
    ensures { IfOk result (λ spot. IsEnclosed bangs.now place (whole_of whole) spot) }
{
    if bangs.is_empty() {
        match seen(whole) {
            Ok(sum) => {
                let operand = parens_of(alloc, place, sum)?;
                Ok(ConditionSpot::Sum(ExpressionReader::behind_operand(alloc, operand)))
            }
            Err(whole) => {
                let condition = made(alloc, whole)?;
                Ok(ConditionSpot::Whole(Whole::Parens(place, condition)))
            }
        }
    } else {
        let condition = made(alloc, whole)?;
        Ok(ConditionSpot::Whole(Whole::Parens(place, condition)))
    }
}

fn with_bangs(alloc: Global, bangs: &mut Stack<Place>, operand: Whole) -> Result<Whole, AllocError>
    ensures { IfOk result (λ whole. (whole_of whole ≡ denied bangs.old (whole_of operand)) × (bangs.new ≡ [])) }
{
    let mut operand = operand;
    while let Some(place) = bangs.pop() {
        operand = Whole::Not(place, made(alloc, operand)?);
    }
    Ok(operand)
}

fn joined(alloc: Global, both: Option<Condition>, operand: Whole) -> Result<Whole, AllocError>
    ensures { IfOk result (λ whole. whole_of whole ≡ both_of both (whole_of operand)) }
{
    match both {
        None => Ok(operand),
        Some(left) => Ok(Whole::Both(left, made(alloc, operand)?)),
    }
}

fn alternated(alloc: Global, either: Option<Condition>, operand: Whole) -> Result<Whole, AllocError>
    ensures { IfOk result (λ whole. whole_of whole ≡ either_of either (whole_of operand)) }
{
    match either {
        None => Ok(operand),
        Some(left) => Ok(Whole::Either(left, made(alloc, operand)?)),
    }
}

fn made(alloc: Global, whole: Whole) -> Result<Condition, AllocError>
    ensures { IfOk result (λ c. condition_of c ≡ whole_of whole) }
{
    match whole {
        Whole::Plain(sum) => Ok(Condition::Plain(sum)),
        Whole::Compare(mark, left, right) => compare_of(alloc, mark, left, right),
        Whole::Not(place, condition) => not_of(alloc, place, condition),
        Whole::Parens(place, condition) => enclosed_of(alloc, place, condition),
        Whole::Both(left, right) => both_of(alloc, left, right),
        Whole::Either(left, right) => either_of(alloc, left, right),
    }
}

/// The expression that a condition is, or the condition again.
fn seen(whole: Whole) -> Result<Expression, Whole>
    ensures { IsSeen whole result }
{
    match whole {
        Whole::Plain(sum) => Ok(sum),
        Whole::Compare(mark, left, right) => Err(Whole::Compare(mark, left, right)),
        Whole::Not(place, condition) => Err(Whole::Not(place, condition)),
        Whole::Parens(place, condition) => Err(Whole::Parens(place, condition)),
        Whole::Both(left, right) => Err(Whole::Both(left, right)),
        Whole::Either(left, right) => Err(Whole::Either(left, right)),
    }
}
