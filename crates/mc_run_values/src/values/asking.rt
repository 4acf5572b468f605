// Asks a script for an input, or for an address.
ghost use Rattle.std.specs.Prelude.{◌≡◌, ◌↔◌, ◌<◌, ◌^◌, IfOk, IsTrue, MatchOption};
ghost use Rattle.mc_base.specs.Kinds.{InKind};
ghost use Rattle.mc_base.specs.declared.plain.Kind.TheVariants.{Int};
ghost use Rattle.mc_flow.specs.Heap.Choices.{input as choose_input, malloc as choose_malloc};
ghost use Rattle.mc_flow.specs.Heap.Heap.{Heap as HeapModel};
ghost use Rattle.mc_semantics.specs.Values.{IsInput};
ghost use Rattle.mc_run_values.specs.Script.Models.{choice};
ghost use Rattle.mc_run_values.specs.Values.Models.{IsAnswered};
ghost use Rattle.mc_run_values.specs.Values.Memory.{IsAdded, IsAllocated};
ghost use Rattle.mc_semantics.specs.Waiting.Requests.{IsAllowed, an_address, an_input};

use crate::script::{Asked, Choice, NamedStructs, Script};
use crate::values::refusal::{Allocated, Evaluated, Refusal};
use mc_base::{NoMemory, StructId};
use mc_flow::heap::Heap;
use std::alloc::Global;

fn is_int(number: &i64) -> bool
    ensures { IsTrue result ↔ InKind Int number.now }
{
    *number >= -2147483648 && *number <= 2147483647
}

// The input that a choice is.
fn input_in(given: &Choice) -> Option<i64>
    ensures { MatchOption result (IsAllowed an_input (choice given.now) → ⊥)
        (λ value. (choice given.now ≡ choose_input value) × InKind Int value) }
{
    match given {
        Choice::Input(value) => { if is_int(value) { Some(*value) } else { None } }
        Choice::Malloc(_) => None,
        Choice::Shape(_) => None,
    }
}

/// The value of an `input()`: any `int`.
pub fn input(
    alloc: Global,
    structs: &NamedStructs,
    script: &mut Script,
) -> Result<Evaluated, NoMemory>
    ensures { IfOk result (λ answer. IsAnswered structs.now IsInput (λ choices left. left ≡ choices) script.old answer script.new) }
{
    match script.ask(alloc, structs)? {
        Asked::Missing => Ok(Evaluated::Unanswered(Refusal::Missing)),
        Asked::Unreadable => Ok(Evaluated::Unanswered(Refusal::Unreadable)),
        Asked::Choice(choice) => {
            let value = input_in(&choice);
            if value.is_some() {
                Ok(Evaluated::Value(value))
            } else {
                Ok(Evaluated::Unanswered(Refusal::NotAllowed))
            }
        }
    }
}

// The address or null that a choice is.
fn address_in(given: &Choice) -> Option<u64>
    ensures { MatchOption result ((heap : HeapModel) → IsAllowed (an_address heap) (choice given.now) → ⊥)
        (λ at. (choice given.now ≡ choose_malloc at) × (at < 2 ^ 62)) }
{
    match given {
        Choice::Input(_) => None,
        Choice::Malloc(address) => {
            if *address < 4611686018427387904 {
                Some(*address)
            } else {
                None
            }
        }
        Choice::Shape(_) => None,
    }
}

// A new block at an address that is not allocated. At null there is none.
fn add_at(
    heap: &mut Heap,
    address: u64,
    shape: StructId,
    fields: usize,
) -> Result<Allocated, NoMemory>
    requires { address < 2 ^ 62 }
    ensures { IfOk result (λ answer. IsAdded shape.0 fields heap.old address answer heap.new) }
{
    if address == 0 {
        return Ok(Allocated::Address(0));
    }
    if heap.add(address, shape.0, fields as u64)? {
        Ok(Allocated::Address(address))
    } else {
        Ok(Allocated::Unanswered(Refusal::NotAllowed))
    }
}

/// A new block, of which no field is defined, at the address that the script gives, or none where it gives null. Where the
/// script gives no answer, the heap stays as it is.
pub fn allocate(
    alloc: Global,
    heap: &mut Heap,
    structs: &NamedStructs,
    script: &mut Script,
    shape: StructId,
    fields: usize,
) -> Result<Allocated, NoMemory>
    ensures { IfOk result (λ answer. IsAllocated structs.now shape.0 fields heap.old script.old answer heap.new script.new) }
{
    match script.ask(alloc, structs)? {
        Asked::Missing => Ok(Allocated::Unanswered(Refusal::Missing)),
        Asked::Unreadable => Ok(Allocated::Unanswered(Refusal::Unreadable)),
        Asked::Choice(choice) => match address_in(&choice) {
            Some(address) => {
                let answer = add_at(heap, address, shape, fields)?;
                Ok(answer)
            }
            None => Ok(Allocated::Unanswered(Refusal::NotAllowed)),
        },
    }
}
