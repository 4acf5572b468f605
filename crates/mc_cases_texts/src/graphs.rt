// Programs and their flow graphs, as texts.
mod points;

use crate::input::{Input, bytes};
use crate::tried::Outcome;
use anyhow::{Result, bail};
use mc_base::{Kind, NoMemory, PointId, VarInfo};
use mc_cases::{Case, latin};
use mc_flow::{Flow, Operand, Point};
use mc_load::inputs::{Sources, read};
use mc_load::lowered::{TooLong, graph};
use mc_lower::Lowered;
use mc_outside::MemFiles;
use points::{add_code, add_operand, add_point};
use std::alloc::Global;

// A file p with a program, and a file d with definitions.
fn files(alloc: Global, program: Vec<u8>, definitions: Vec<u8>) -> Result<MemFiles, NoMemory> {
    let mut files = Vec::new(alloc);
    files.push((String::from_str(alloc, "p")?, program))?;
    files.push((String::from_str(alloc, "d")?, definitions))?;
    Ok(MemFiles::new(alloc, files, Vec::new(alloc)))
}

// The flow graph of a case's program with the definitions given, or that it is too long.
fn lowered(
    alloc: Global,
    case: Case<'_>,
    definitions: Vec<u8>,
) -> Result<Result<Lowered, TooLong>> {
    let mut files = files(alloc, bytes(alloc, case, "program")?, definitions)?;
    let sources = Sources {
        program: "p",
        definitions: "d",
        start: case.text_or("entry", "main"),
    };
    match read(alloc, &mut files, sources) {
        Ok(Ok(bound)) => Ok(graph(alloc, &bound)?),
        _ => bail!("no program"),
    }
}

/// How many points the flow graph of a case has.
pub fn size(alloc: Global, case: Case<'_>) -> Result<String> {
    match lowered(alloc, case, Vec::new(alloc))? {
        Ok(lowered) => Ok(format!(in alloc; "{} points", lowered.flow.points.len())?),
        Err(_) => Ok(String::from_str(alloc, "too long")?),
    }
}

/// The flow graph of a case, with the places of its points where the kind is `graphs`.
pub fn outcome_of(alloc: Global, kind: &str, input: Input<'_>) -> Result<Outcome> {
    let definitions = input.bytes(alloc, "definitions")?;
    let wanted = bytes(alloc, input.case, "graph")?;
    let wanted = latin::text_of(alloc, wanted.as_slice())?;
    match lowered(alloc, input.case, definitions)? {
        Ok(lowered) => Ok(Outcome {
            wanted,
            came: shown(alloc, &lowered, kind == "graphs")?,
        }),
        Err(_) => bail!("too long"),
    }
}

fn shown(alloc: Global, lowered: &Lowered, placed: bool) -> Result<String, NoMemory> {
    let mut out = String::new(alloc);
    for point in lowered.flow.points.as_slice() {
        if placed {
            add_place(&mut out, point)?;
        }
        add_code(&mut out, &point.code)?;
    }
    add_lists(&mut out, &lowered.flow)?;
    if placed {
        add_points(&mut out, "stops", lowered.stops.as_slice())?;
    }
    Ok(out)
}

fn add_place(out: &mut String, point: &Point) -> Result<(), NoMemory> {
    let line = point.place.line;
    let column = point.place.column;
    write!(out, "{line}:{column} ")
}

// The variables, the heads, the merges and the thresholds.
fn add_lists(out: &mut String, flow: &Flow) -> Result<(), NoMemory> {
    out.push_str("variables")?;
    for info in flow.vars.as_slice() {
        add_variable(out, info)?;
    }
    out.push('\n')?;
    add_points(out, "heads", flow.heads.as_slice())?;
    add_points(out, "merges", flow.merges.as_slice())?;
    out.push_str("thresholds")?;
    for value in flow.thresholds.as_slice() {
        add_operand(out, Operand::Const(*value))?;
    }
    out.push('\n')
}

fn add_variable(out: &mut String, info: &VarInfo) -> Result<(), NoMemory> {
    match info.kind {
        Kind::Int => out.push_str(" int:")?,
        Kind::Ptr => out.push_str(" ptr:")?,
    }
    for byte in info.name.as_slice() {
        out.push(char::from(*byte))?;
    }
    Ok(())
}

fn add_points(out: &mut String, name: &str, points: &[PointId]) -> Result<(), NoMemory> {
    out.push_str(name)?;
    for point in points {
        add_point(out, *point)?;
    }
    out.push('\n')
}
