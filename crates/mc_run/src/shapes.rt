// What is freed, and what commands on shapes take and add.
ghost use Rattle.std.specs.Prelude.{◌≡◌, ◌↔◌, ◌∷◌, [], IfOk, IsTrue, map, option_map};
ghost use Rattle.mc_flow.specs.Values.{all_there};
ghost use Rattle.mc_semantics.specs.Resolved.Steps.{Executes, argument_value};
ghost use Rattle.mc_semantics.specs.Resolved.Programs.{free as free_statement};
ghost use Rattle.mc_semantics.specs.Resolved.Views.{argument_of, expression_of};
ghost use Rattle.mc_run_values.specs.Tasks.Going.{tasks_of};
ghost use Rattle.mc_flow.specs.Heap.Adding.{AreFree, with_blocks};
ghost use Rattle.mc_run_values.specs.Script.Models.{block};
ghost use Rattle.mc_run.specs.Asking.{StatementAsks};
ghost use Rattle.mc_run.specs.Models.{config_of, here_of, program_of};
ghost use Rattle.mc_run.specs.Steps.{IsStep};

use crate::assigning::settled;
use crate::machine::{Machine, Program};
use crate::outcome::{End, Stepped};
use mc_base::NoMemory;
use mc_base::text::Place;
use mc_flow::heap::Heap;
use mc_run_values::script::{NewBlock, Script};
use mc_run_values::values::{Evaluated, free};
use mc_semantics::resolved::{Argument, Expression};

/// A `free`.
pub fn free_at<'a>(
    machine: &mut Machine<'a>,
    program: Program<'a>,
    script: &mut Script,
    pointer: &'a Expression,
    place: Place,
) -> Result<Stepped, NoMemory>
    ensures { IfOk result (λ stepped. IsStep program.entry.structs.now
        (λ choices r. Executes (program_of program.entry) (here_of machine.old)
        (free_statement place (expression_of pointer.now)) (tasks_of machine.old.work) choices r)
        (λ choices request rest. StatementAsks program.entry.defs.now (here_of machine.old).values
        (here_of machine.old).heap (free_statement place (expression_of pointer.now)) choices request rest)
        script.old stepped (config_of machine.new) script.new) }
{
    match machine.evaluate(program, script, pointer)? {
        Evaluated::Value(value) => Ok(settled(free(&mut machine.heap, value), place)),
        Evaluated::Fault(kind) => Ok(Stepped::Ends(End::Fault(kind, place))),
        Evaluated::Unanswered(why) => Ok(Stepped::Unanswered(why)),
    }
}

/// What an argument is, if it is defined.
pub fn value_of(machine: &Machine, argument: &Argument) -> Option<i64>
    ensures { result ≡ argument_value (here_of machine.now).values (argument_of argument.now) }
{
    match argument {
        Argument::Variable(variable) => machine.work.held(*variable),
        Argument::Constant(value) => Some(*value),
    }
}

/// The arguments, if each of them is defined.
pub fn values_of(machine: &Machine, arguments: &[Argument]) -> Result<Option<Vec<i64>>, NoMemory>
    ensures { IfOk result (λ made. option_map (λ there. there.items) made
        ≡ all_there (map (argument_value (here_of machine.now).values) (map argument_of arguments.now))) }
{
    let mut there = Vec::with_capacity(machine.alloc, arguments.len())?;
    let mut left = arguments;
    while let [first, more @ ..] = left {
        let Some(value) = value_of(machine, first) else {
            return Ok(None);
        };
        there.push(value)?;
        left = more;
    }
    Ok(Some(there))
}

/// The blocks come into the heap, if their addresses are free. With false, some of them may be there.
pub fn add_blocks(heap: &mut Heap, blocks: &[NewBlock]) -> Result<bool, NoMemory>
    ensures free { IfOk result (λ added. IsTrue added ↔ AreFree heap.old (map block blocks.now)) }
    ensures added { IfOk result (λ added. IsTrue added → heap.new ≡ with_blocks heap.old (map block blocks.now)) }
{
    let mut left = blocks;
    while let [first, more @ ..] = left {
        if !add_block(heap, first)? {
            return Ok(false);
        }
        left = more;
    }
    Ok(true)
}

// A block with its fields comes into the heap, if its address is free.
fn add_block(heap: &mut Heap, added: &NewBlock) -> Result<bool, NoMemory>
    ensures free { IfOk result (λ there. IsTrue there ↔ AreFree heap.old (block added.now ∷ [])) }
    ensures added { IfOk result (λ there. IsTrue there → heap.new ≡ with_blocks heap.old (block added.now ∷ [])) }
{
    if added.address == 0 || added.address >= 4611686018427387904 {
        return Ok(false);
    }
    let fields = added.fields.as_slice();
    if !heap.add(added.address, added.shape.0, fields.len() as u64)? {
        return Ok(false);
    }
    let mut field = 0;
    while field < fields.len() {
        heap.write(added.address, added.shape.0, field as u64, fields[field]);
        field += 1;
    }
    Ok(true)
}
