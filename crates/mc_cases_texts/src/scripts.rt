// Scripts for a program with the structs `list` and `node`, and what their lines answer.
use crate::input::bytes;
use anyhow::Result;
use mc_base::Items;
use mc_cases::Case;
use mc_flow::defs::StructInfo;
use mc_run_values::script::{Asked, Choice, NamedStructs, NewBlock, Script, Shape, struct_texts};
use std::alloc::{AllocError, Global};

// A struct without fields of this name.
fn named(alloc: Global, name: &str) -> Result<StructInfo, AllocError> {
    Ok(StructInfo {
        name: Items::of(Vec::from_slice(alloc, name.as_bytes())?),
        fields: Items::of(Vec::new(alloc)),
    })
}

/// The answers of a case's script, one for each line, and that of the first line that is missing.
pub fn came(alloc: Global, case: Case<'_>) -> Result<String> {
    let text = bytes(alloc, case, "script")?;
    Ok(answers(alloc, Script::of(text.as_slice()))?)
}

fn answers(alloc: Global, script: Script<'_>) -> Result<String, AllocError> {
    let infos = vec![in alloc; named(alloc, "list")?, named(alloc, "node")?]?;
    let texts = struct_texts(alloc, infos.as_slice())?;
    let structs = NamedStructs::of(alloc, infos.as_slice(), texts.as_slice())?;
    answers_for(alloc, script, &structs)
}

fn answers_for(
    alloc: Global,
    mut script: Script<'_>,
    structs: &NamedStructs<'_>,
) -> Result<String, AllocError> {
    let mut out = String::new(alloc);
    for _ in 0..script.count() {
        add_next(alloc, &mut out, &mut script, structs)?;
        out.push_str(", ")?;
    }
    add_next(alloc, &mut out, &mut script, structs)?;
    Ok(out)
}

fn add_next(
    alloc: Global,
    out: &mut String,
    script: &mut Script<'_>,
    structs: &NamedStructs<'_>,
) -> Result<(), AllocError> {
    let asked = script.ask(alloc, structs)?;
    add_answer(out, &asked)
}

fn add_answer(out: &mut String, asked: &Asked) -> Result<(), AllocError> {
    match asked {
        Asked::Missing => out.push_str("missing"),
        Asked::Unreadable => out.push_str("unreadable"),
        Asked::Choice(choice) => add_choice(out, choice),
    }
}

fn add_choice(out: &mut String, choice: &Choice) -> Result<(), AllocError> {
    match choice {
        Choice::Input(value) => write!(out, "input {value}"),
        Choice::Malloc(address) => write!(out, "malloc {address}"),
        Choice::Shape(shape) => add_shape(out, shape),
    }
}

fn add_shape(out: &mut String, shape: &Shape) -> Result<(), AllocError> {
    let value = shape.value;
    write!(out, "shape {value}")?;
    for block in shape.blocks.as_slice() {
        add_block(out, block)?;
    }
    Ok(())
}

fn add_block(out: &mut String, block: &NewBlock) -> Result<(), AllocError> {
    let number = block.shape.0;
    let address = block.address;
    write!(out, " at {address} struct {number}:")?;
    for field in block.fields.as_slice() {
        write!(out, " {field}")?;
    }
    Ok(())
}
