// What names stand for in a program.

use crate::program::Program;
use anyhow::{Result, bail};
use mc_base::{Items, PredId, StructId, VarId};
use mc_flow::Operand;
use mc_flow::defs::{FieldInfo, StructInfo};
use serde_json::Value;
use std::alloc::{AllocError, Global};

/// The bytes of a text.
pub fn letters(alloc: Global, text: &str) -> Result<Items<u8>, AllocError> {
    Ok(Items::of(Vec::from_slice(alloc, text.as_bytes())?))
}

// The text of a value that is one.
fn word(value: &Value) -> Result<&str> {
    match value.as_str() {
        Some(word) => Ok(word),
        None => bail!("no name: {value}"),
    }
}

/// The variable of a name.
pub fn variable(program: &Program, value: &Value) -> Result<VarId> {
    let name = word(value)?;
    for (number, info) in program.flow.vars.as_slice().iter().enumerate() {
        if info.name.as_slice() == name.as_bytes() {
            return Ok(VarId(number as u64));
        }
    }
    bail!("no variable {name}")
}

/// The struct of a name.
pub fn structure(program: &Program, value: &Value) -> Result<StructId> {
    let name = word(value)?;
    for (number, info) in program.flow.structs.list.as_slice().iter().enumerate() {
        if info.name.as_slice() == name.as_bytes() {
            return Ok(StructId(number as u64));
        }
    }
    bail!("no struct {name}")
}

// The fields of a struct.
fn fields(program: &Program, shape: StructId) -> &[FieldInfo] {
    match program.flow.structs.list.get(shape.0 as usize) {
        Some(info) => info.fields.as_slice(),
        None => &[],
    }
}

/// The field of a name, of a struct.
pub fn field(program: &Program, shape: StructId, value: &Value) -> Result<u64> {
    let name = word(value)?;
    for (number, info) in fields(program, shape).iter().enumerate() {
        if info.name.as_slice() == name.as_bytes() {
            return Ok(number as u64);
        }
    }
    bail!("no field {name}")
}

/// The predicate of a name.
pub fn predicate(program: &Program, value: &Value) -> Result<PredId> {
    let name = word(value)?;
    for (number, info) in program.defs.as_slice().iter().enumerate() {
        if info.name.as_slice() == name.as_bytes() {
            return Ok(PredId(number as u64));
        }
    }
    bail!("no predicate {name}")
}

/// A number, or the variable of a name.
pub fn operand(program: &Program, value: &Value) -> Result<Operand> {
    match value.as_i64() {
        Some(number) => Ok(Operand::Const(number)),
        None => Ok(Operand::Var(variable(program, value)?)),
    }
}
