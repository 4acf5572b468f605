// Evaluates expressions.
ghost use Rattle.std.specs.Prelude.{◌≡◌, IfOk, [], ℕ, ℤ, Option, List, map};
ghost use Rattle.mc_flow.specs.declared.defs.shapes.StructInfo.{StructInfo};
ghost use Rattle.mc_flow.specs.Heap.Heap.{Heap as HeapModel};
ghost use Rattle.mc_flow.specs.Heap.Choices.{Choice as ChoiceModel};
ghost use Rattle.mc_semantics.specs.Values.{operated};
ghost use Rattle.mc_semantics.specs.Resolved.Views.{expression_of};
ghost use Rattle.mc_run_values.specs.declared.values.turns.Hand.TheVariants as hands;
ghost use Rattle.mc_run_values.specs.Values.Models.{AreEvaluated, IsEvaluated, applied_of, operation_of};
ghost use Rattle.mc_run_values.specs.Values.Turns.{Falls, Gets, IsTurn};

use crate::script::{NamedStructs, Script};
use crate::values::asking::input;
use crate::values::numbers::{Operation, operate};
use crate::values::reading::left_value;
use crate::values::refusal::{Arguments, Evaluated};
use crate::values::turns::{Hand, Pending, Turn};
use mc_base::stack::Stack;
use mc_base::{FaultKind, NoMemory};
use mc_flow::heap::Heap;
use mc_semantics::resolved::Expression;
use std::alloc::Global;

// What an operation makes of two values.
fn applied(operation: Operation, a: Option<i64>, b: Option<i64>) -> Result<Option<i64>, FaultKind>
    ensures { (choices : List ChoiceModel) → applied_of result choices ≡ operated (operation_of operation) a b choices }
{
    let Some(a) = a else {
        return Err(FaultKind::Uninit);
    };
    let Some(b) = b else {
        return Err(FaultKind::Uninit);
    };
    Ok(Some(operate(operation, a, b)))
}

/// Where something is computed: what the variables hold, the heap, and the structs of the program.
#[derive(Drop)]
pub struct Here<'a> {
    pub values: &'a [Option<i64>],
    pub heap: &'a Heap,
    pub structs: &'a NamedStructs<'a>,
}

// A value at hand goes to what waits for it.
fn resume<'a>(stack: &mut Stack<Pending<'a>>, value: Option<i64>) -> Result<Turn<'a>, NoMemory>
    ensures turn { IfOk result (λ turn. (structs : List StructInfo) (values : List (Option ℤ)) (heap : HeapModel) (lines : List (List ℕ))
        → IsTurn structs values heap (hands.Value value) stack.old lines turn stack.new lines) }
    ensures falls { IfOk result (λ turn. Falls (hands.Value value) stack.old turn stack.new) }
{
    match stack.pop() {
        None => Ok(Turn::Ends(Evaluated::Value(value))),
        Some(Pending::Right(operation, second)) => {
            stack.push(Pending::Apply(operation, value))?;
            Ok(Turn::Goes(Hand::Expression(second)))
        }
        Some(Pending::Apply(operation, first)) => match applied(operation, first, value) {
            Ok(value) => Ok(Turn::Goes(Hand::Value(value))),
            Err(kind) => Ok(Turn::Ends(Evaluated::Fault(kind))),
        },
    }
}

// What an input comes to, or why it comes to none.
fn given<'a>(answer: Evaluated) -> Turn<'a>
    ensures { Gets answer result }
{
    match answer {
        Evaluated::Value(value) => Turn::Goes(Hand::Value(value)),
        Evaluated::Fault(kind) => Turn::Ends(Evaluated::Fault(kind)),
        Evaluated::Unanswered(why) => Turn::Ends(Evaluated::Unanswered(why)),
    }
}

// An expression at hand is entered.
fn enter<'a>(
    alloc: Global,
    here: &Here,
    script: &mut Script,
    stack: &mut Stack<Pending<'a>>,
    expression: &'a Expression,
) -> Result<Turn<'a>, NoMemory>
    ensures turn { IfOk result (λ turn. IsTurn here.now.structs.now here.now.values.now here.now.heap.now
        (hands.Expression expression.entry) stack.old script.old turn stack.new script.new) }
    ensures falls { IfOk result (λ turn. Falls (hands.Expression expression.entry) stack.old turn stack.new) }
{
    match expression {
        Expression::Number(n) => Ok(Turn::Goes(Hand::Value(Some(i64::from(*n))))),
        Expression::Input => Ok(given(input(alloc, here.structs, script)?)),
        Expression::Value(left) => match left_value(here.values, here.heap, left) {
            Ok(value) => Ok(Turn::Goes(Hand::Value(value))),
            Err(kind) => Ok(Turn::Ends(Evaluated::Fault(kind))),
        },
        Expression::Minus(part) => {
            stack.push(Pending::Apply(Operation::Difference, Some(0)))?;
            Ok(Turn::Goes(Hand::Expression(part)))
        }
        Expression::Times(first, second) => {
            stack.push(Pending::Right(Operation::Times, second))?;
            Ok(Turn::Goes(Hand::Expression(first)))
        }
        Expression::Plus(first, second) => {
            stack.push(Pending::Right(Operation::Plus, second))?;
            Ok(Turn::Goes(Hand::Expression(first)))
        }
        Expression::Difference(first, second) => {
            stack.push(Pending::Right(Operation::Difference, second))?;
            Ok(Turn::Goes(Hand::Expression(first)))
        }
    }
}

fn take_turn<'a>(
    alloc: Global,
    here: &Here,
    script: &mut Script,
    stack: &mut Stack<Pending<'a>>,
    hand: Hand<'a>,
) -> Result<Turn<'a>, NoMemory>
    ensures turn { IfOk result (λ turn. IsTurn here.now.structs.now here.now.values.now here.now.heap.now
        hand.entry stack.old script.old turn stack.new script.new) }
    ensures falls { IfOk result (λ turn. Falls hand.entry stack.old turn stack.new) }
{
    match hand {
        Hand::Expression(expression) => enter(alloc, here, script, stack, expression),
        Hand::Value(value) => resume(stack, value),
    }
}

// What an expression comes to, where nothing waits for it.
fn run_turns<'a>(
    alloc: Global,
    here: &Here,
    script: &mut Script,
    stack: &mut Stack<Pending<'a>>,
    expression: &'a Expression,
) -> Result<Evaluated, NoMemory>
    requires { stack.old ≡ [] }
    ensures { IfOk result (λ answer. IsEvaluated here.now.structs.now here.now.values.now here.now.heap.now
        (expression_of expression.now) script.old answer script.new) }
{
    let mut hand = Hand::Expression(expression);
    loop {
        match take_turn(alloc, here, script, stack, hand)? {
            Turn::Goes(next) => hand = next,
            Turn::Ends(answer) => return Ok(answer),
        }
    }
}

/// Evaluates expressions of a program, one after the other. It keeps its memory for the next one.
pub struct Evaluator<'a> {
    stack: Stack<Pending<'a>>,
    alloc: Global,
}

/// Drops its parts. What holds one calls this.
impl Drop for Evaluator<'_> {
    fn drop(self) {
        let Evaluator { stack, alloc: _ } = self;
        drop(stack);
    }
}

impl<'a> Evaluator<'a> {
    pub fn new(alloc: Global) -> Evaluator<'a> {
        Evaluator {
            stack: Stack::new(alloc),
            alloc,
        }
    }

    /// What an expression comes to, with inputs from the script.
    pub fn evaluate(
        &mut self,
        here: &Here,
        script: &mut Script,
        expression: &'a Expression,
    ) -> Result<Evaluated, NoMemory>
        ensures { IfOk result (λ answer. IsEvaluated here.now.structs.now here.now.values.now here.now.heap.now
            (expression_of expression.now) script.old answer script.new) }
    {
        empty(&mut self.stack);
        run_turns(self.alloc, here, script, &mut self.stack, expression)
    }

    /// What arguments come to, one after the other.
    pub fn evaluate_all(
        &mut self,
        here: &Here,
        script: &mut Script,
        arguments: &'a [Expression],
    ) -> Result<Arguments, NoMemory>
        ensures { IfOk result (λ answer. AreEvaluated here.now.structs.now here.now.values.now here.now.heap.now
            (map expression_of arguments.now) script.old answer script.new) }
    {
        let mut values = Vec::with_capacity(self.alloc, arguments.len())?;
        let mut left = arguments;
        while let [argument, more @ ..] = left {
            match self.evaluate(here, script, argument)? {
                Evaluated::Value(value) => values.push(value)?,
                Evaluated::Fault(kind) => return Ok(Arguments::Fault(kind)),
                Evaluated::Unanswered(why) => return Ok(Arguments::Unanswered(why)),
            }
            left = more;
        }
        Ok(Arguments::Values(values))
    }
}

// Lets all go that waits.
fn empty<'a>(stack: &mut Stack<Pending<'a>>)
    ensures { stack.new ≡ [] }
{
    'items: while let Some(_item) = stack.pop() {}
}
