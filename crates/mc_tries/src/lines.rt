// The lines of scripts.
use crate::making::Made;
use mc_base::NoMemory;
use mc_base::text::print_number;
use mc_flow::defs::StructInfo;
use std::alloc::Global;

// Adds a number.
fn print_signed(alloc: Global, out: &mut Vec<u8>, number: i64) -> Result<(), NoMemory> {
    let text = format!(in alloc; "{number}")?;
    out.extend_from_slice(text.as_bytes())
}

/// The line of an input.
pub fn input_line(alloc: Global, number: i64) -> Result<Vec<u8>, NoMemory> {
    let mut line = Vec::new(alloc);
    line.extend_from_slice(b"[\"input\",")?;
    print_signed(alloc, &mut line, number)?;
    line.push(b']')?;
    Ok(line)
}

/// The line of an answer of malloc.
pub fn malloc_line(alloc: Global, address: u64) -> Result<Vec<u8>, NoMemory> {
    let mut line = Vec::new(alloc);
    line.extend_from_slice(b"[\"malloc\",")?;
    print_number(alloc, &mut line, address)?;
    line.push(b']')?;
    Ok(line)
}

// Adds numbers, parted by commas.
fn print_fields(alloc: Global, out: &mut Vec<u8>, fields: &[i64]) -> Result<(), NoMemory> {
    for (place, field) in fields.iter().enumerate() {
        if place > 0 {
            out.push(b',')?;
        }
        print_signed(alloc, out, *field)?;
    }
    Ok(())
}

/// The line of a shape. It is no line that can be read where a struct of its blocks is not there.
pub fn shape_line(alloc: Global, structs: &[StructInfo], made: &Made) -> Result<Vec<u8>, NoMemory> {
    let mut line = Vec::new(alloc);
    line.extend_from_slice(b"[\"shape\",")?;
    print_signed(alloc, &mut line, made.value)?;
    line.extend_from_slice(b",[")?;
    for (place, block) in made.blocks.as_slice().iter().enumerate() {
        if place > 0 {
            line.push(b',')?;
        }
        line.push(b'[')?;
        print_number(alloc, &mut line, block.address)?;
        line.extend_from_slice(b",\"")?;
        if let Some(info) = structs.get(block.shape as usize) {
            line.extend_from_slice(info.name.as_slice())?;
        }
        line.extend_from_slice(b"\",[")?;
        print_fields(alloc, &mut line, block.fields.as_slice())?;
        line.extend_from_slice(b"]]")?;
    }
    line.extend_from_slice(b"]]")?;
    Ok(line)
}
