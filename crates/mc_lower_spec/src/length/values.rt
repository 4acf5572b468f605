// The points of expressions and conditions are counted.
ghost use Rattle.std.specs.Prelude.{◌≡◌, ◌∷◌, ◌+◌, IfOk, OnOk, map};
ghost use Rattle.mc_lower_spec.specs.Length.Lengths.{all_operations, clearing, comparing, operations, testing};
ghost use Rattle.mc_lower_spec.specs.Length.Waiting.{parts_left, tests_left};
ghost use Rattle.mc_semantics.specs.Resolved.Views.{condition_of, expression_of};

use mc_base::NoMemory;
use mc_base::stack::Stack;
use mc_semantics::resolved::{Condition, Expression};
use std::alloc::{AllocError, Global};

/// A sum.
pub fn sum(a: usize, b: usize) -> Result<usize, NoMemory>
    ensures { IfOk result (λ c. c ≡ a + b) }
{
    match a.checked_add(b) {
        Some(c) => Ok(c),
        None => Err(AllocError),
    }
}

/// The point by which variables become undefined, where there are any.
pub fn clearing(count: usize) -> usize
    ensures { result ≡ clearing count }
{
    if count == 0 { 0 } else { 1 }
}

// An expression that is still to be counted.
#[derive(Clone, Copy)]
pub struct Part<'e> {
    pub whole: &'e Expression,
}

// A condition that is still to be counted.
#[derive(Clone, Copy)]
pub struct Tested<'c> {
    pub whole: &'c Condition,
}

// An expression is next.
fn push_part<'e>(work: &mut Stack<Part<'e>>, whole: &'e Expression) -> Result<(), NoMemory>
    ensures { OnOk result (parts_left work.new ≡ operations (expression_of whole.now) + parts_left work.old) }
{
    work.push(Part { whole })
}

// Two expressions are next.
fn push_parts<'e>(
    work: &mut Stack<Part<'e>>,
    first: &'e Expression,
    second: &'e Expression,
) -> Result<(), NoMemory>
    ensures { OnOk result (parts_left work.new
        ≡ operations (expression_of first.now) + operations (expression_of second.now) + parts_left work.old) }
{
    push_part(work, second)?;
    push_part(work, first)
}

// The points of an expression but for those of its parts, which are next.
fn take_apart<'e>(whole: &'e Expression, work: &mut Stack<Part<'e>>) -> Result<usize, NoMemory>
    ensures { IfOk result (λ n. n + parts_left work.new ≡ operations (expression_of whole.now) + parts_left work.old) }
{
    match whole {
        Expression::Number(_) => Ok(0),
        Expression::Input => Ok(1),
        Expression::Value(left) => Ok(left.fields.len()),
        Expression::Minus(part) => {
            push_part(work, part)?;
            Ok(1)
        }
        Expression::Times(left, right) => {
            push_parts(work, left, right)?;
            Ok(1)
        }
        Expression::Plus(left, right) => {
            push_parts(work, left, right)?;
            Ok(1)
        }
        Expression::Difference(left, right) => {
            push_parts(work, left, right)?;
            Ok(1)
        }
    }
}

/// The points of an expression; a loop, so that none is too deep.
pub fn operations(alloc: Global, whole: &Expression) -> Result<usize, NoMemory>
    ensures { IfOk result (λ n. n ≡ operations (expression_of whole.now)) }
{
    let mut work = Stack::new(alloc);
    let mut count = take_apart(whole, &mut work)?;
    'parts: for _ in 0..u64::MAX {
        match work.pop() {
            Some(part) => {
                let more = take_apart(part.whole, &mut work)?;
                count = sum(count, more)?;
            }
            None => return Ok(count),
        }
    }
    Err(AllocError)
}

/// The points of several expressions.
pub fn all_operations(alloc: Global, wholes: &[Expression]) -> Result<usize, NoMemory>
    ensures { IfOk result (λ n. n ≡ all_operations (map expression_of wholes.now)) }
{
    let mut count = 0;
    for at in 0..wholes.len() {
        let more = operations(alloc, &wholes[at])?;
        count = sum(count, more)?;
    }
    Ok(count)
}

// The points of a comparison with so many temporaries.
fn comparing(temporaries: usize) -> Result<usize, NoMemory>
    ensures { IfOk result (λ n. n ≡ comparing temporaries) }
{
    let clear = clearing(temporaries);
    sum(temporaries, 1 + clear + clear)
}

// A condition is next.
fn push_test<'c>(work: &mut Stack<Tested<'c>>, whole: &'c Condition) -> Result<(), NoMemory>
    ensures { OnOk result (tests_left work.new ≡ testing (condition_of whole.now) + tests_left work.old) }
{
    work.push(Tested { whole })
}

// Two conditions are next.
fn push_tests<'c>(
    work: &mut Stack<Tested<'c>>,
    first: &'c Condition,
    second: &'c Condition,
) -> Result<(), NoMemory>
    ensures { OnOk result (tests_left work.new
        ≡ testing (condition_of first.now) + testing (condition_of second.now) + tests_left work.old) }
{
    push_test(work, second)?;
    push_test(work, first)
}

// The points of a comparison of two expressions.
fn compare(alloc: Global, left: &Expression, right: &Expression) -> Result<usize, NoMemory>
    ensures { IfOk result (λ n. n ≡ comparing (operations (expression_of left.now) + operations (expression_of right.now))) }
{
    let first = operations(alloc, left)?;
    let second = operations(alloc, right)?;
    let both = sum(first, second)?;
    comparing(both)
}

// The points of a condition but for those of its parts, which are next.
fn take_test_apart<'c>(
    alloc: Global,
    whole: &'c Condition,
    work: &mut Stack<Tested<'c>>,
) -> Result<usize, NoMemory>
    ensures { IfOk result (λ n. n + tests_left work.new ≡ testing (condition_of whole.now) + tests_left work.old) }
{
    match whole {
        Condition::Plain(_, value) => {
            let temporaries = operations(alloc, value)?;
            comparing(temporaries)
        }
        Condition::Compare(_, _, left, right) => compare(alloc, left, right),
        Condition::Not(part) => {
            push_test(work, part)?;
            Ok(0)
        }
        Condition::Both(first, second) => {
            push_tests(work, first, second)?;
            Ok(0)
        }
        Condition::Either(first, second) => {
            push_tests(work, first, second)?;
            Ok(0)
        }
    }
}

/// The points of a condition; a loop, so that none is too deep.
pub fn testing(alloc: Global, whole: &Condition) -> Result<usize, NoMemory>
    ensures { IfOk result (λ n. n ≡ testing (condition_of whole.now)) }
{
    let mut work = Stack::new(alloc);
    let mut count = take_test_apart(alloc, whole, &mut work)?;
    'parts: for _ in 0..u64::MAX {
        match work.pop() {
            Some(part) => {
                let more = take_test_apart(alloc, part.whole, &mut work)?;
                count = sum(count, more)?;
            }
            None => return Ok(count),
        }
    }
    Err(AllocError)
}
