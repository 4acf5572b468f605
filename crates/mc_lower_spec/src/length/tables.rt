// The points of the calls of each function, and those of a program.
ghost use Rattle.std.specs.Prelude.{◌≡◌, ◌↔◌, IfOk, IsTrue, map};
ghost use Rattle.mc_lower_spec.specs.Length.Lengths.{IsFalling, IsLength, IsSoMany, IsTable, awaiting, calling_rest};
ghost use Rattle.mc_lower_spec.specs.Lowering.{IsMain};
ghost use Rattle.mc_semantics.specs.Resolved.Views.{function_of};

use crate::length::actions::rest_of;
use crate::length::statements::body_points;
use crate::length::values::sum;
use mc_base::{Kind, NoMemory};
use mc_semantics::resolved::{Function, Resolved};
use std::alloc::{AllocError, Global};

// So many points, or 10,001 where there are more.
fn capped(count: usize) -> usize
    ensures { IsSoMany result count }
{
    if count > 10000 { 10001 } else { count }
}

// The point by which a result is undefined.
fn awaiting(kind: Option<Kind>) -> usize
    ensures { result ≡ awaiting kind }
{
    match kind {
        Some(_) => 1,
        None => 0,
    }
}

// What a call of a function comes to, but for its arguments.
fn calling_rest(alloc: Global, table: &[usize], function: &Function) -> Result<usize, NoMemory>
    ensures { IfOk result (λ n. n ≡ calling_rest table.now (function_of function.now)) }
{
    let body = body_points(alloc, table, function.parameters, function.body.as_slice())?;
    sum(body, 1 + awaiting(function.result))
}

// The entry of a function is what the table makes it.
fn refine_one(
    alloc: Global,
    functions: &[Function],
    table: &mut Vec<usize>,
    number: usize,
) -> Result<(), NoMemory> {
    if let Some(function) = functions.get(number) {
        let count = calling_rest(alloc, table.as_slice(), function)?;
        if let Some(slot) = table.get_mut(number) {
            *slot = capped(count);
        }
    }
    Ok(())
}

// Each entry of the table is what the table makes it, from the first to the last one.
fn refine(alloc: Global, functions: &[Function], table: &mut Vec<usize>) -> Result<(), NoMemory> {
    for number in 0..functions.len() {
        refine_one(alloc, functions, table, number)?;
    }
    Ok(())
}

// The same, from the last to the first one.
fn refine_back(
    alloc: Global,
    functions: &[Function],
    table: &mut Vec<usize>,
) -> Result<(), NoMemory> {
    for back in 0..functions.len() {
        refine_one(alloc, functions, table, functions.len() - 1 - back)?;
    }
    Ok(())
}

// Whether each entry is what the table makes it.
fn is_right(alloc: Global, functions: &[Function], table: &[usize]) -> Result<bool, NoMemory>
    ensures { IfOk result (λ right. IsTrue right → IsTable table.now (map function_of functions.now)) }
{
    for at in 0..functions.len() {
        let count = calling_rest(alloc, table, &functions[at])?;
        if rest_of(table, at) != capped(count) {
            return Ok(false);
        }
    }
    Ok(true)
}

// The table of what calls come to: in rounds, until nothing changes. One is enough where functions stand after those that they call.
fn table_of(alloc: Global, functions: &[Function]) -> Result<Vec<usize>, NoMemory>
    ensures { IfOk result (λ table. IsTable table.items (map function_of functions.now)) }
{
    let mut table = Vec::new(alloc);
    for _ in 0..functions.len() {
        table.push(0)?;
    }
    for _ in 0..u64::MAX {
        refine(alloc, functions, &mut table)?;
        if is_right(alloc, functions, table.as_slice())? {
            return Ok(table);
        }
        refine_back(alloc, functions, &mut table)?;
    }
    Err(AllocError)
}

// Whether it is `main` with a number as its result.
fn is_main(function: &Function) -> bool
    ensures { IsTrue result ↔ IsMain (function_of function.now) }
{
    function.name.as_slice() == b"main".as_slice() && function.result == Some(Kind::Int)
}

// The point by which the result of `main` is set after its body.
fn falling(function: &Function) -> usize
    ensures { IsFalling (function_of function.now) result }
{
    if is_main(function) { 1 } else { 0 }
}

/// How many points each flow graph of a program has, or, where they are more than 10,000, a number above 10,000 that is no more.
/// The number is found without a flow graph, and so without those points.
pub fn length(alloc: Global, program: &Resolved) -> Result<usize, NoMemory>
    ensures { IfOk result (λ n. IsLength program.now n) }
{
    let Some(entry) = program.functions.get(program.entry) else {
        return Ok(0);
    };
    let table = table_of(alloc, program.functions.as_slice())?;
    let body = body_points(
        alloc,
        table.as_slice(),
        entry.parameters,
        entry.body.as_slice(),
    )?;
    let count = sum(body, 2 + falling(entry))?;
    Ok(count)
}
