// The points of assignments, calls and declarations are counted.
ghost use Rattle.std.specs.Prelude.{◌≡◌, ℕ, List, Some, IfOk, option_map};
ghost use Rattle.mc_lower_spec.specs.Length.Lengths.{acting, assigning, calling, changing, finishing, initializing, loading, putting, returning, setting, testing_perhaps};
ghost use Rattle.mc_semantics.specs.Resolved.Views.{action_of, call_of, condition_of, expression_of, initial_of, right_of, simple_of};
ghost use Rattle.mc_semantics.specs.Resolved.Programs.{allocation, expression, result_of};
ghost use Rattle.std.specs.Prelude.{slice_index};

use crate::length::values::{all_operations, clearing, operations, sum, testing};
use mc_base::NoMemory;
use mc_semantics::resolved::{Action, Call, Condition, Expression, Initial, RightSide, Simple};
use std::alloc::Global;

// Of so many fields after a variable all but the last one are loaded.
fn loading(fields: usize) -> usize
    ensures { result ≡ loading fields }
{
    if fields == 0 { 0 } else { fields - 1 }
}

// The points by which an operand is put somewhere.
fn putting(fields: usize, temporaries: usize) -> Result<usize, NoMemory>
    ensures { IfOk result (λ n. n ≡ putting fields temporaries) }
{
    let behind = loading(fields);
    let all = sum(temporaries, behind)?;
    sum(behind, 1 + clearing(all))
}

// The points by which a variable is set to an expression with so many operations.
fn setting(operations: usize) -> Result<usize, NoMemory>
    ensures { IfOk result (λ n. n ≡ setting operations) }
{
    if operations == 0 {
        Ok(1)
    } else {
        sum(operations, clearing(operations - 1))
    }
}

// The points by which something is changed by an expression with so many operations.
fn changing(fields: usize, operations: usize) -> Result<usize, NoMemory>
    ensures { IfOk result (λ n. n ≡ changing fields operations) }
{
    if fields == 0 {
        let count = sum(operations, 1 + clearing(operations))?;
        Ok(count)
    } else {
        let loaded = sum(operations, fields - 1)?;
        let temporaries = sum(loaded, 2)?;
        let stored = sum(loaded, 3)?;
        sum(stored, clearing(temporaries))
    }
}

// What a call of a function comes to, but for its arguments.
pub fn rest_of(table: &[usize], function: usize) -> usize
    ensures { result ≡ slice_index table.now function }
{
    match table.get(function) {
        Some(count) => *count,
        None => 0,
    }
}

// The points of a call.
fn calling(alloc: Global, table: &[usize], call: &Call) -> Result<usize, NoMemory>
    ensures { IfOk result (λ n. n ≡ calling table.now (call_of call.now)) }
{
    let operations = all_operations(alloc, call.arguments.as_slice())?;
    let copied = sum(operations, call.arguments.len())?;
    let cleared = sum(copied, clearing(operations))?;
    sum(cleared, rest_of(table, call.function))
}

// The points by which the value of an expression is put somewhere.
fn assign_value(alloc: Global, value: &Expression, fields: usize) -> Result<usize, NoMemory>
    ensures { IfOk result (λ n. (table : List ℕ) → n ≡ assigning table (expression (expression_of value.now)) fields) }
{
    let operations = operations(alloc, value)?;
    if fields == 0 {
        let count = setting(operations)?;
        Ok(count)
    } else {
        let put = putting(fields, operations)?;
        sum(operations, put)
    }
}

// The points by which new memory is put somewhere.
fn assign_new(fields: usize) -> Result<usize, NoMemory>
    ensures { IfOk result (λ n. (table : List ℕ) (shape count : ℕ) → n ≡ assigning table (allocation shape count) fields) }
{
    if fields == 0 {
        Ok(1)
    } else {
        let put = putting(fields, 1)?;
        sum(put, 1)
    }
}

// The points by which the result of a call is put somewhere.
fn assign_result(
    alloc: Global,
    table: &[usize],
    call: &Call,
    fields: usize,
) -> Result<usize, NoMemory>
    ensures { IfOk result (λ n. n ≡ assigning table.now (result_of (call_of call.now)) fields) }
{
    let called = calling(alloc, table, call)?;
    let put = putting(fields, 0)?;
    let taken = sum(put, 1)?;
    sum(called, taken)
}

// The points of an assignment to a variable, or to a field after so many.
fn assigning(
    alloc: Global,
    table: &[usize],
    right: &RightSide,
    fields: usize,
) -> Result<usize, NoMemory>
    ensures { IfOk result (λ n. n ≡ assigning table.now (right_of right.now) fields) }
{
    match right {
        RightSide::Expression(value) => {
            let count = assign_value(alloc, value, fields)?;
            Ok(count)
        }
        RightSide::Call(call) => {
            let count = assign_result(alloc, table, call, fields)?;
            Ok(count)
        }
        RightSide::Malloc(_, _) => {
            let count = assign_new(fields)?;
            Ok(count)
        }
    }
}

/// The points of what a simple statement does.
pub fn acting(alloc: Global, table: &[usize], action: &Action) -> Result<usize, NoMemory>
    ensures { IfOk result (λ n. n ≡ acting table.now (action_of action.now)) }
{
    match action {
        Action::Assign(left, right) => assigning(alloc, table, right, left.fields.len()),
        Action::Add(left, value) => {
            let operations = operations(alloc, value)?;
            changing(left.fields.len(), operations)
        }
        Action::Subtract(left, value) => {
            let operations = operations(alloc, value)?;
            changing(left.fields.len(), operations)
        }
        Action::Call(call) => calling(alloc, table, call),
    }
}

/// The points of a declarator.
pub fn initializing(alloc: Global, table: &[usize], item: &Initial) -> Result<usize, NoMemory>
    ensures { IfOk result (λ n. n ≡ initializing table.now (initial_of item.now).value) }
{
    match &item.value {
        None => Ok(1),
        Some(right) => assigning(alloc, table, right, 0),
    }
}

/// The points of the last part of a `for`.
pub fn finishing(alloc: Global, table: &[usize], last: Option<&Simple>) -> Result<usize, NoMemory>
    ensures { IfOk result (λ n. n ≡ finishing table.now (option_map (λ s. simple_of s.now) last.entry)) }
{
    match last {
        None => Ok(0),
        Some(simple) => acting(alloc, table, &simple.action),
    }
}

/// The points of a condition that may be missing.
pub fn testing_perhaps(alloc: Global, condition: Option<&Condition>) -> Result<usize, NoMemory>
    ensures { IfOk result (λ n. n ≡ testing_perhaps (option_map (λ c. condition_of c.now) condition.entry)) }
{
    match condition {
        None => Ok(0),
        Some(condition) => testing(alloc, condition),
    }
}

// The points of a value that is returned.
fn return_right(alloc: Global, table: &[usize], right: &RightSide) -> Result<usize, NoMemory>
    ensures { IfOk result (λ n. n ≡ returning table.now (Some (right_of right.now))) }
{
    match right {
        RightSide::Expression(value) => {
            let operations = operations(alloc, value)?;
            setting(operations)
        }
        RightSide::Call(call) => {
            let called = calling(alloc, table, call)?;
            sum(called, 2)
        }
        RightSide::Malloc(_, _) => Ok(1),
    }
}

/// The points of a `return`.
pub fn returning(
    alloc: Global,
    table: &[usize],
    value: Option<&RightSide>,
) -> Result<usize, NoMemory>
    ensures { IfOk result (λ n. n ≡ returning table.now (option_map (λ r. right_of r.now) value.entry)) }
{
    match value {
        None => Ok(0),
        Some(right) => return_right(alloc, table, right),
    }
}
