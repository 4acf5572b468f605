// What is written into fields, and what frees a block.
ghost use Rattle.std.specs.Prelude.{◌≡◌, ℤ, List, Option, OnErr};
ghost use Rattle.mc_semantics.specs.Resolved.Steps.{freed};
ghost use Rattle.mc_semantics.specs.Resolved.Values.{assigned_behind, put};
ghost use Rattle.mc_semantics.specs.Resolved.Views.{field_of, left_of};
ghost use Rattle.std.specs.Prelude.{map};
ghost use Rattle.mc_run_values.specs.Values.Models.{IsComputed, change_of, operation_of};

use crate::values::numbers::{Operation, address_of, operate};
use crate::values::reading::{left_value, loaded};
use mc_base::FaultKind;
use mc_flow::heap::Heap;
use mc_semantics::resolved::{FieldAt, LeftValue};

// A field after a pointer gets a value.
fn put(
    heap: &mut Heap,
    field: &FieldAt,
    value: Option<i64>,
    pointer: Option<i64>,
) -> Result<(), FaultKind>
    ensures change { (values : List (Option ℤ)) → change_of result values heap.new
        ≡ put values heap.old (field_of field.now) value pointer }
    ensures kept { OnErr result (heap.new ≡ heap.old) }
{
    let Some(value) = value else {
        return Err(FaultKind::Uninit);
    };
    let Some(pointer) = pointer else {
        return Err(FaultKind::Uninit);
    };
    let address = address_of(pointer);
    if address == 0 {
        return Err(FaultKind::Null);
    }
    if heap.write(address, field.shape.0, field.field as u64, value) {
        Ok(())
    } else {
        Err(FaultKind::Freed)
    }
}

/// The last of these fields after a value gets a value. With a fault nothing changes.
pub fn assign_behind(
    heap: &mut Heap,
    base: Option<i64>,
    first: &FieldAt,
    more: &[FieldAt],
    value: Option<i64>,
) -> Result<(), FaultKind>
    ensures change { (values : List (Option ℤ)) → change_of result values heap.new
        ≡ assigned_behind values heap.old base (field_of first.now) (map field_of more.now) value }
    ensures kept { OnErr result (heap.new ≡ heap.old) }
{
    let mut base = base;
    let mut field = first;
    let mut more = more;
    while let [next, rest @ ..] = more {
        match loaded(heap, field, base) {
            Ok(value) => base = value,
            Err(kind) => return Err(kind),
        }
        field = next;
        more = rest;
    }
    put(heap, field, value, base)
}

/// What an operation makes of what a variable or field holds and another value.
pub fn computed(
    operation: Operation,
    values: &[Option<i64>],
    heap: &Heap,
    left: &LeftValue,
    value: Option<i64>,
) -> Result<Option<i64>, FaultKind>
    ensures { IsComputed (operation_of operation) values.now heap.now (left_of left.now) value result }
{
    match left_value(values, heap, left) {
        Err(kind) => Err(kind),
        Ok(None) => Err(FaultKind::Uninit),
        Ok(Some(first)) => match value {
            None => Err(FaultKind::Uninit),
            Some(second) => Ok(Some(operate(operation, first, second))),
        },
    }
}

/// Frees a block. Null is let alone.
pub fn free(heap: &mut Heap, pointer: Option<i64>) -> Result<(), FaultKind>
    ensures change { (values : List (Option ℤ)) → change_of result values heap.new
        ≡ freed (record { values = values; heap = heap.old }) pointer }
    ensures kept { OnErr result (heap.new ≡ heap.old) }
{
    let Some(pointer) = pointer else {
        return Err(FaultKind::Uninit);
    };
    let address = address_of(pointer);
    if address == 0 {
        return Ok(());
    }
    if heap.remove(address) {
        Ok(())
    } else {
        Err(FaultKind::BadFree)
    }
}
