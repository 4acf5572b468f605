// What variables and fields hold.
ghost use Rattle.std.specs.Prelude.{◌≡◌, IfOk, ℤ, Option, option_map};
ghost use Rattle.mc_flow.specs.Values.{all_there};
ghost use Rattle.mc_flow.specs.Heap.Access.{read_of};
ghost use Rattle.mc_semantics.specs.Values.{read};
ghost use Rattle.mc_semantics.specs.Resolved.Configs.{held};
ghost use Rattle.mc_semantics.specs.Resolved.Values.{left_value, loaded};
ghost use Rattle.mc_semantics.specs.Resolved.Views.{field_of, left_of};
ghost use Rattle.mc_run_values.specs.Values.Models.{found_of};

use crate::values::numbers::address_of;
use mc_base::{FaultKind, NoMemory};
use mc_flow::heap::{Heap, Read};
use mc_semantics::resolved::{FieldAt, LeftValue};
use std::alloc::Global;

/// What a variable holds, if it is defined.
pub fn held(values: &[Option<i64>], variable: usize) -> Option<i64>
    ensures { result ≡ held values.now variable }
{
    if variable < values.len() {
        values[variable]
    } else {
        None
    }
}

fn found_in(answer: Read) -> Result<Option<i64>, FaultKind>
    ensures { (there : Option (Option ℤ)) → answer ≡ read_of there → found_of result ≡ read there }
{
    match answer {
        Read::Value(value) => Ok(Some(value)),
        Read::Undefined => Err(FaultKind::Uninit),
        Read::Absent => Err(FaultKind::Freed),
    }
}

/// What a field after a pointer holds.
pub fn loaded(heap: &Heap, field: &FieldAt, pointer: Option<i64>) -> Result<Option<i64>, FaultKind>
    ensures { found_of result ≡ loaded heap.now (field_of field.now) pointer }
{
    let Some(pointer) = pointer else {
        return Err(FaultKind::Uninit);
    };
    let address = address_of(pointer);
    if address == 0 {
        return Err(FaultKind::Null);
    }
    found_in(heap.read(address, field.shape.0, field.field as u64))
}

/// What a left value holds, which may be undefined where it is a variable.
pub fn left_value(
    values: &[Option<i64>],
    heap: &Heap,
    left: &LeftValue,
) -> Result<Option<i64>, FaultKind>
    ensures { found_of result ≡ left_value values.now heap.now (left_of left.now) }
{
    let mut value = held(values, left.variable);
    let mut fields = left.fields.as_slice();
    while let [field, more @ ..] = fields {
        match loaded(heap, field, value) {
            Ok(next) => value = next,
            Err(kind) => return Err(kind),
        }
        fields = more;
    }
    Ok(value)
}

/// The values, if each of them is defined.
pub fn all_there(alloc: Global, values: &[Option<i64>]) -> Result<Option<Vec<i64>>, NoMemory>
    ensures { IfOk result (λ made. option_map (λ there. there.items) made ≡ all_there values.now) }
{
    let mut there = Vec::with_capacity(alloc, values.len())?;
    let mut left = values;
    while let [first, more @ ..] = left {
        let Some(value) = first else {
            return Ok(None);
        };
        there.push(*value)?;
        left = more;
    }
    Ok(Some(there))
}
