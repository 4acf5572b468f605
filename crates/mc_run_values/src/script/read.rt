// Reads a line.
ghost use Rattle.std.specs.Prelude.{◌≡◌, ◌∷◌, [], map};
ghost use Rattle.serde_json.specs.View.{view};
ghost use Rattle.mc_lines.specs.Cert.Entries.{named_data, values_data};
ghost use Rattle.mc_lines.specs.Cert.Reads.{Reads};
ghost use Rattle.mc_run_values.specs.Script.Lines.{BlockFits, IsLineRead, LineFits, block_data, line_data};

use crate::script::line::{NamedBlock, ScriptLine};
use mc_lines::cert::{Entry, LineFault, named, put, three, two, values_of};
use serde_json::Value;
use std::alloc::{AllocError, Global};

// The block of three values.
fn block_with(
    alloc: Global,
    address: &Value,
    shape: &Value,
    fields: &Value,
) -> Result<NamedBlock, LineFault>
    ensures { Reads block_data BlockFits (values_data (view address.now ∷ view shape.now ∷ view fields.now ∷ [])) result }
{
    let (address, shape, fields) = three(alloc, address, shape, fields)?;
    Ok(NamedBlock {
        address,
        shape,
        fields,
    })
}

fn block_of(alloc: Global, values: &[Value]) -> Result<NamedBlock, LineFault>
    ensures { Reads block_data BlockFits (values_data (map view values.now)) result }
{
    match values.len() {
        3 => block_with(alloc, &values[0], &values[1], &values[2]),
        _ => Err(LineFault::Form),
    }
}

impl Entry for NamedBlock {
    ghost spelled = { block_data };

    ghost fits = { BlockFits };

    fn read(alloc: Global, value: &Value) -> Result<NamedBlock, LineFault> {
        match values_of(value) {
            None => Err(LineFault::Form),
            Some(entries) => block_of(alloc, entries),
        }
    }

    fn write(&self, alloc: Global) -> Result<Value, AllocError> {
        let mut values = Vec::with_capacity(alloc, 3)?;
        put(alloc, &mut values, &self.address)?;
        put(alloc, &mut values, &self.shape)?;
        put(alloc, &mut values, &self.fields)?;
        Ok(Value::Array(values))
    }
}

// The line of a name and an entry.
fn of_one(alloc: Global, name: &str, a: &Value) -> Result<ScriptLine, LineFault>
    ensures { Reads line_data LineFits (named_data name.now (view a.now ∷ [])) result }
{
    match name {
        "input" => Ok(ScriptLine::Input(Entry::read(alloc, a)?)),
        "malloc" => Ok(ScriptLine::Malloc(Entry::read(alloc, a)?)),
        _ => Err(LineFault::Form),
    }
}

// The line of a name and two entries.
fn of_two(alloc: Global, name: &str, a: &Value, b: &Value) -> Result<ScriptLine, LineFault>
    ensures { Reads line_data LineFits (named_data name.now (view a.now ∷ view b.now ∷ [])) result }
{
    match name {
        "shape" => {
            let (value, blocks) = two(alloc, a, b)?;
            Ok(ScriptLine::Shape(value, blocks))
        }
        _ => Err(LineFault::Form),
    }
}

// The line of a name and entries.
fn line_in(alloc: Global, name: &str, entries: &[Value]) -> Result<ScriptLine, LineFault>
    ensures { Reads line_data LineFits (named_data name.now (map view entries.now)) result }
{
    match entries.len() {
        1 => of_one(alloc, name, &entries[0]),
        2 => of_two(alloc, name, &entries[0], &entries[1]),
        _ => Err(LineFault::Form),
    }
}

fn line_in_value(alloc: Global, value: &Value) -> Result<ScriptLine, LineFault>
    ensures { Reads line_data LineFits (view value.now) result }
{
    match named(value) {
        None => Err(LineFault::Form),
        Some((name, entries)) => line_in(alloc, name, entries),
    }
}

/// The line that bytes spell, or why they are none: `NotJson`, `Form` or `NoMemory`.
pub fn line_of(alloc: Global, bytes: &[u8]) -> Result<ScriptLine, LineFault>
    ensures { IsLineRead bytes.now result }
{
    match Value::from_slice(alloc, bytes) {
        Err(e) => Err(if e.is_memory() {
            LineFault::NoMemory
        } else {
            LineFault::NotJson
        }),
        Ok(value) => line_in_value(alloc, &value),
    }
}
