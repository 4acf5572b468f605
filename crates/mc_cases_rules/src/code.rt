// The instructions of cases, each an array of its name and what it works on: names, or numbers as operands.

use crate::names::{field, operand, predicate, structure, variable};
use crate::program::Program;
use anyhow::{Result, bail};
use mc_base::{Items, PointId, VarId};
use mc_flow::{Instr, Operand};
use mc_lines::cert::{named, values_of};
use serde_json::Value;
use std::alloc::Global;

// Where an instruction goes on.
const NEXT: PointId = PointId(1);

// Where a test goes on that fails.
const ELSE: PointId = PointId(2);

// The values of a list.
fn list(value: &Value) -> Result<&[Value]> {
    match values_of(value) {
        Some(values) => Ok(values),
        None => bail!("no list: {value}"),
    }
}

fn variables(alloc: Global, program: &Program, value: &Value) -> Result<Items<VarId>> {
    let mut variables = Items::new(alloc);
    for value in list(value)? {
        variables.push(variable(program, value)?)?;
    }
    Ok(variables)
}

fn operands(alloc: Global, program: &Program, value: &Value) -> Result<Items<Operand>> {
    let mut operands = Items::new(alloc);
    for value in list(value)? {
        operands.push(operand(program, value)?)?;
    }
    Ok(operands)
}

// An instruction that works on nothing.
fn plain(name: &str) -> Result<Instr> {
    match name {
        "Skip" => Ok(Instr::Skip(NEXT)),
        "AssertEmpty" => Ok(Instr::AssertEmpty(NEXT)),
        "End" => Ok(Instr::End),
        "Fail" => Ok(Instr::Fail),
        _ => bail!("no instruction {name}"),
    }
}

fn of_one(alloc: Global, program: &Program, name: &str, a: &Value) -> Result<Instr> {
    match name {
        "Undef" => Ok(Instr::Undef(variables(alloc, program, a)?, NEXT)),
        "Input" => Ok(Instr::Input(variable(program, a)?, NEXT)),
        "Free" => Ok(Instr::Free(operand(program, a)?, NEXT)),
        _ => bail!("no instruction {name} of one"),
    }
}

// A test of two operands.
fn test(program: &Program, name: &str, a: &Value, b: &Value) -> Result<Instr> {
    let left = operand(program, a)?;
    let right = operand(program, b)?;
    match name {
        "TestEq" => Ok(Instr::TestEq(left, right, NEXT, ELSE)),
        "TestLe" => Ok(Instr::TestLe(left, right, NEXT, ELSE)),
        _ => bail!("no instruction {name} of two"),
    }
}

fn of_two(program: &Program, name: &str, a: &Value, b: &Value) -> Result<Instr> {
    match name {
        "Copy" => {
            let x = variable(program, a)?;
            Ok(Instr::Copy(x, operand(program, b)?, NEXT))
        }
        "Malloc" => {
            let x = variable(program, a)?;
            Ok(Instr::Malloc(x, structure(program, b)?, NEXT))
        }
        _ => test(program, name, a, b),
    }
}

// What is computed of two operands.
fn computed(program: &Program, name: &str, a: &Value, b: &Value, c: &Value) -> Result<Instr> {
    let x = variable(program, a)?;
    let left = operand(program, b)?;
    let right = operand(program, c)?;
    match name {
        "Add" => Ok(Instr::Add(x, left, right, NEXT)),
        "Sub" => Ok(Instr::Sub(x, left, right, NEXT)),
        "Mul" => Ok(Instr::Mul(x, left, right, NEXT)),
        _ => bail!("no instruction {name} of three"),
    }
}

// A shape that is assumed at a variable.
fn assumed(alloc: Global, program: &Program, a: &Value, b: &Value, c: &Value) -> Result<Instr> {
    let pred = predicate(program, a)?;
    let x = variable(program, b)?;
    let args = operands(alloc, program, c)?;
    Ok(Instr::AssumeShape(pred, x, args, NEXT))
}

// A shape that is asserted at an operand.
fn asserted(alloc: Global, program: &Program, a: &Value, b: &Value, c: &Value) -> Result<Instr> {
    let pred = predicate(program, a)?;
    let at = operand(program, b)?;
    let args = operands(alloc, program, c)?;
    Ok(Instr::AssertShape(pred, at, args, NEXT))
}

fn of_three(
    alloc: Global,
    program: &Program,
    name: &str,
    a: &Value,
    b: &Value,
    c: &Value,
) -> Result<Instr> {
    match name {
        "AssumeShape" => assumed(alloc, program, a, b, c),
        "AssertShape" => asserted(alloc, program, a, b, c),
        _ => computed(program, name, a, b, c),
    }
}

// A load into a variable: the base, its struct and the field.
fn load(program: &Program, a: &Value, b: &Value, c: &Value, d: &Value) -> Result<Instr> {
    let x = variable(program, a)?;
    let base = variable(program, b)?;
    let shape = structure(program, c)?;
    let place = field(program, shape, d)?;
    Ok(Instr::Load(x, base, shape, place, NEXT))
}

// A store of an operand: the base, its struct and the field stand before it.
fn store(program: &Program, a: &Value, b: &Value, c: &Value, d: &Value) -> Result<Instr> {
    let base = variable(program, a)?;
    let shape = structure(program, b)?;
    let place = field(program, shape, c)?;
    let from = operand(program, d)?;
    Ok(Instr::Store(base, shape, place, from, NEXT))
}

fn of_four(
    program: &Program,
    name: &str,
    a: &Value,
    b: &Value,
    c: &Value,
    d: &Value,
) -> Result<Instr> {
    match name {
        "Load" => load(program, a, b, c, d),
        "Store" => store(program, a, b, c, d),
        _ => bail!("no instruction {name} of four"),
    }
}

fn of_entries(alloc: Global, program: &Program, name: &str, entries: &[Value]) -> Result<Instr> {
    match entries {
        [] => plain(name),
        [a] => of_one(alloc, program, name, a),
        [a, b] => of_two(program, name, a, b),
        [a, b, c] => of_three(alloc, program, name, a, b, c),
        [a, b, c, d] => of_four(program, name, a, b, c, d),
        _ => bail!("no instruction {name} of five"),
    }
}

/// The instruction of an array; a Skip where there is none.
pub fn instruction(alloc: Global, program: &Program, value: Option<&Value>) -> Result<Instr> {
    let Some(value) = value else {
        return Ok(Instr::Skip(NEXT));
    };
    match named(value) {
        Some((name, entries)) => of_entries(alloc, program, name, entries),
        None => bail!("no instruction: {value}"),
    }
}
