// Whether a predicate holds on a heap.
use crate::entries::{entry, list};
use crate::shapes::Shapes;
use anyhow::{Context, Result, bail};
use mc_base::{Items, NoMemory, PredId};
use mc_cases::Case;
use mc_flow::heap::Heap;
use mc_lines::cert::values_of;
use mc_shape_search::sat::{holds, meets};
use serde_json::Value;
use std::alloc::Global;

/// The greatest address.
const LAST: u64 = 4_611_686_018_427_387_903;

/// Allocates a block, and writes the fields that are defined.
fn add_block(heap: &mut Heap, at: u64, shape: u64, fields: &[Value]) -> Result<(), NoMemory> {
    if at == 0 || at > LAST {
        return Ok(());
    }
    heap.add(at, shape, fields.len() as u64)?;
    for (place, field) in fields.iter().enumerate() {
        if let Some(value) = field.as_i64() {
            heap.write(at, shape, place as u64, value);
        }
    }
    Ok(())
}

/// Adds a block: its address, its struct, and what its fields hold, null where one is undefined.
fn add(heap: &mut Heap, value: &Value) -> Result<()> {
    match values_of(value) {
        Some([at, shape, fields]) => {
            let at = at.as_u64().context("address")?;
            let shape = shape.as_u64().context("struct")?;
            let fields = values_of(fields).context("fields")?;
            Ok(add_block(heap, at, shape, fields)?)
        }
        _ => bail!("no block"),
    }
}

fn heap_of(alloc: Global, case: Case<'_>) -> Result<Heap> {
    let mut heap = Heap::new(alloc);
    for value in case.list("blocks")? {
        add(&mut heap, value)?;
    }
    Ok(heap)
}

/// The addresses of a part, ascending; null where there is none.
fn written(alloc: Global, part: Option<Vec<u64>>) -> Result<Value> {
    match part {
        Some(mut part) => {
            part.sort()?;
            list(alloc, part.as_slice())
        }
        None => Ok(Value::Null),
    }
}

/// The part of the heap on which the predicate of a case holds, and whether it holds on the whole heap.
pub fn answer(alloc: Global, shapes: &Shapes, case: Case<'_>) -> Result<Value> {
    let heap = heap_of(alloc, case)?;
    let pred: PredId = entry(alloc, case, "pred")?;
    let value = case.integer("value")?;
    let args: Items<i64> = entry(alloc, case, "args")?;
    let args = args.as_slice();
    let part = holds(alloc, &heap, shapes.defs(), pred, value, args)?;
    let whole = meets(alloc, &heap, shapes.defs(), pred, value, args)?;
    let mut values = Vec::new(alloc);
    values.push(written(alloc, part)?)?;
    values.push(Value::Bool(whole))?;
    Ok(Value::Array(values))
}
