// What cases are about: a flow graph, of which the first instruction is that of a case, and definitions.

use crate::names::letters;
use anyhow::{Result, bail};
use mc_base::text::Place;
use mc_base::{Items, Kind, PointId, VarInfo};
use mc_cases::Case;
use mc_def_read::read_defs;
use mc_flow::defs::{Defs, FieldInfo, StructInfo, Structs};
use mc_flow::{Flow, Instr, Point};
use mc_lines::cert::{Entry, named};
use serde_json::Value;
use std::alloc::{AllocError, Global};

/// A flow graph and definitions.
#[derive(Drop)]
pub struct Program {
    pub flow: Flow,
    pub defs: Defs,
}

// How many bytes definitions may have.
const DEFINITION_BYTES: usize = 262_144;

// The name and the kind of an array of both.
fn name_and_kind(alloc: Global, value: &Value) -> Result<(Items<u8>, Kind)> {
    let Some((name, [kind])) = named(value) else {
        bail!("no name with a kind: {value}");
    };
    let kind = Kind::read(alloc, kind)?;
    Ok((letters(alloc, name)?, kind))
}

// A field of its name and its kind.
fn field(alloc: Global, value: &Value) -> Result<FieldInfo> {
    let (name, kind) = name_and_kind(alloc, value)?;
    Ok(FieldInfo { name, kind })
}

fn fields(alloc: Global, values: &[Value]) -> Result<Items<FieldInfo>> {
    let mut fields = Items::new(alloc);
    for value in values {
        fields.push(field(alloc, value)?)?;
    }
    Ok(fields)
}

// A struct of its name and its fields.
fn structure(alloc: Global, value: &Value) -> Result<StructInfo> {
    let Some((name, values)) = named(value) else {
        bail!("no struct: {value}");
    };
    let fields = fields(alloc, values)?;
    let name = letters(alloc, name)?;
    Ok(StructInfo { name, fields })
}

fn structs(alloc: Global, values: &[Value]) -> Result<Structs> {
    let mut list = Items::new(alloc);
    for value in values {
        list.push(structure(alloc, value)?)?;
    }
    Ok(Structs { list })
}

// A variable of its name and its kind.
fn variable(alloc: Global, value: &Value) -> Result<VarInfo> {
    let (name, kind) = name_and_kind(alloc, value)?;
    Ok(VarInfo { name, kind })
}

fn variables(alloc: Global, values: &[Value]) -> Result<Items<VarInfo>> {
    let mut variables = Items::new(alloc);
    for value in values {
        variables.push(variable(alloc, value)?)?;
    }
    Ok(variables)
}

// The definitions of a text.
fn definitions(alloc: Global, text: &str, structs: &Structs) -> Result<Defs> {
    let bytes = text.as_bytes();
    if bytes.len() > DEFINITION_BYTES {
        bail!("definitions are too long");
    }
    Ok(read_defs(alloc, bytes, structs)?)
}

fn point(code: Instr) -> Point {
    Point {
        code,
        place: Place { line: 1, column: 1 },
    }
}

// The points of an instruction and two ends.
fn points(alloc: Global, code: Instr) -> Result<Items<Point>, AllocError> {
    let mut points = Items::new(alloc);
    points.push(point(code))?;
    points.push(point(Instr::End))?;
    points.push(point(Instr::End))?;
    Ok(points)
}

// A flow graph of a Skip and two ends.
fn flow(alloc: Global, structs: Structs, vars: Items<VarInfo>) -> Result<Flow, AllocError> {
    Ok(Flow {
        points: points(alloc, Instr::Skip(PointId(1)))?,
        vars,
        heads: Items::new(alloc),
        merges: Items::new(alloc),
        thresholds: Items::new(alloc),
        structs,
    })
}

/// The program of the structs and variables of a case, and of a text of definitions.
pub fn program_of(alloc: Global, case: Case<'_>, text: &str) -> Result<Program> {
    let structs = structs(alloc, case.list("structs")?)?;
    let vars = variables(alloc, case.list("variables")?)?;
    let defs = definitions(alloc, text, &structs)?;
    let flow = flow(alloc, structs, vars)?;
    Ok(Program { flow, defs })
}

impl Program {
    /// Puts an instruction in place of the first one.
    pub fn begin_with(&mut self, alloc: Global, code: Instr) -> Result<(), AllocError> {
        self.flow.points = points(alloc, code)?;
        Ok(())
    }
}
