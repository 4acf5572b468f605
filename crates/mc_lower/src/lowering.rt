// A program is lowered: a loop over what is left, with a stack of its own.
ghost use Rattle.std.specs.Prelude.{[], ◌∷◌, ℕ, ◌≡◌, ◌<◌, ◌≤◌, ◌↔◌, IfErr, IfOk, OnOk, IsTrue, length, slice_get, suc};
ghost use Rattle.mc_lower_spec.specs.Lowering.{Answers, Falls, IsMain, LowersAll, Makes, in_body};
ghost use Rattle.mc_semantics.specs.Resolved.Views.{function_of};
ghost use Rattle.mc_lower.specs.Finished.{AreTooLong, Ends, IsFlowOf, IsValidFlow};
ghost use Rattle.mc_lower.specs.declared.lines.Awaited.TheVariants.{Out};
ghost use Rattle.mc_lower.specs.declared.lowering.LowerFault.TheVariants.{TooLong};
ghost use Rattle.mc_lower.specs.Knowns.{IsAnswered, Keeps, known};
ghost use Rattle.mc_lower.specs.Ready.{FitsAll, IsEntered, IsSound, Ready, functions_in, with_awaited};
ghost use Rattle.mc_lower.specs.Left.{Rest};
ghost use Rattle.mc_lower.specs.Worlds.{Agrees, Leads, World, stage_of};

use crate::builder::{BuildFault, Builder, MAX_POINTS, NOWHERE, Role};
use crate::finishing::finish;
use crate::tasks::{Context, Task, push};
use crate::values::nothing;
use mc_base::stack::Stack;
use mc_base::{Items, Kind, PointId};
use mc_flow::defs::Structs;
use mc_flow::{Flow, Instr};
use mc_lower_laws::valid::lowerings_are_valid;
use mc_lower_spec::length::length;
use mc_semantics::resolved::{Function, Resolved};
use std::alloc::Global;

/// The flow graph of a program, and its points whose End counts as a stop.
#[derive(Drop)]
pub struct Lowered {
    pub flow: Flow,
    pub stops: Items<PointId>,
}

// Whether it is `main` with a number as its result.
fn is_main(function: &Function) -> bool
    ensures { IsTrue result ↔ IsMain (function_of function.now) }
{
    function.name.as_slice() == b"main".as_slice() && function.result == Some(Kind::Int)
}

impl<'a> Builder<'a> {
    // All that is left is lowered.
    fn run(&mut self, tasks: &mut Stack<Task<'a>>) -> Result<(), BuildFault>
        requires { Ready (known self.old) tasks.old }
        ensures entered { OnOk result (IsEntered (known self.new)) }
        ensures source { OnOk result ((known self.new).source ≡ (known self.old).source) }
        ensures leads { OnOk result ((w : World) → Agrees w self.new → Agrees w self.old
            × Rest w tasks.old (stage_of w self.old) (stage_of w self.new)) }
    {
        'tasks: for _ in 0..u64::MAX {
            match tasks.pop() {
                Some(task) => self.step(tasks, task)?,
                None => return Ok(()),
            }
        }
        Err(BuildFault::NoMemory)
    }

    // The result of the entry, where it has one.
    fn begin(&mut self, entry: &Function, occurrence: usize) -> Result<(), BuildFault>
        requires { IsAnswered (known self.old) occurrence → ⊥ }
        ensures same { OnOk result (known self.new ≡ with_awaited occurrence entry.now.result (known self.old)) }
        ensures leads { OnOk result (Leads
            (λ w s u. Answers w.graph (w.out occurrence) (function_of entry.now).result s u) self.old self.new) }
    {
        match entry.result {
            Some(kind) => {
                self.create_result(occurrence, kind)?;
                Ok(())
            }
            None => Ok(()),
        }
    }

    // The body of the entry.
    fn body(&mut self, entry: &'a Function, occurrence: usize) -> Result<(), BuildFault>
        requires fits { FitsAll (known self.old)
            (record { function = entry; occurrence = occurrence; block = None; turns = None })
            (function_of entry.now).body }
        requires entered { IsEntered (known self.old) }
        ensures entered { OnOk result (IsEntered (known self.new)) }
        ensures source { OnOk result ((known self.new).source ≡ (known self.old).source) }
        ensures leads { OnOk result (Leads
            (λ w s u. LowersAll w.graph (in_body (function_of entry.now) (w.out occurrence))
            (function_of entry.now).body s u) self.old self.new) }
    {
        let context = Context {
            function: entry,
            occurrence,
            block: None,
            turns: None,
        };
        let mut tasks = Stack::new(self.alloc);
        push(&mut tasks, Task::Statements(entry.body.as_slice(), context))?;
        self.run(&mut tasks)?;
        Ok(())
    }

    // After the body of `main` its result is 0.
    fn fall(&mut self, entry: &Function, occurrence: usize) -> Result<(), BuildFault>
        requires { IsMain (function_of entry.now) → IsAnswered (known self.old) occurrence }
        ensures same { OnOk result (Keeps self.old self.new) }
        ensures leads { OnOk result (Leads (λ w s u. Falls w.graph (function_of entry.now) (w.out occurrence) s u) self.old self.new) }
    {
        if !is_main(entry) {
            return Ok(());
        }
        let own = self.own_result(occurrence);
        self.copy(NOWHERE, own, nothing())?;
        Ok(())
    }

    // An End, where the `return` of the entry goes.
    fn end(&mut self, occurrence: usize) -> Result<(), BuildFault>
        requires occurs { occurrence < (known self.old).state.occurrences }
        requires waits { (known self.old).waiting ≡ Out occurrence ∷ [] }
        ensures { OnOk result (Leads (λ w s u. Ends w.graph (w.out occurrence) s u) self.old self.new) }
    {
        self.land(Role::Plain, NOWHERE, Instr::End)?;
        Ok(())
    }

    // A Skip, the entry, and an End.
    fn make_entry(&mut self, entry: &'a Function) -> Result<(), BuildFault>
        requires no_points { self.old.lines.points.items ≡ [] }
        requires no_variables { self.old.variables.list.items ≡ [] }
        requires no_owners { (known self.old).state.owners ≡ [] }
        requires no_occurrences { (known self.old).state.occurrences ≡ 0 }
        requires none_waits { (known self.old).waiting ≡ [] }
        requires sound { IsSound (known self.old).source }
        requires there { slice_get (functions_in (known self.old).source) (known self.old).source.program.entry
            ≡ Some (function_of entry.now) }
        ensures { OnOk result ((w : World) → Agrees w self.new → Agrees w self.old × (out : ℕ)
            × Makes w.graph (function_of entry.now) out (length self.new.variables.list.items)
            × (length self.new.lines.points.items ≡ suc out)) }
    {
        self.skip(Role::Plain, NOWHERE)?;
        let occurrence = self.occur()?;
        self.begin(entry, occurrence)?;
        self.body(entry, occurrence)?;
        self.fall(entry, occurrence)?;
        self.end(occurrence)?;
        Ok(())
    }
}

// The flow graph of a program with these structs.
fn build(alloc: Global, program: &Resolved, structs: &Structs) -> Result<Lowered, BuildFault>
    requires { IsSound (record { program = program.now; structs = structs.now }) }
    ensures flow { IfOk result (λ x. IsFlowOf program.now structs.now x) }
    ensures valid { IfOk result (λ x. IsValidFlow program.now structs.now x) }
{
    let mut builder = Builder::new(alloc, program, structs);
    let entry = builder.function(program.entry);
    builder.make_entry(entry)?;
    let lowered = finish(builder)?;
    // This law is called for the proof alone.
    lowerings_are_valid();
    Ok(lowered)
}

/// Why there is no flow graph.
#[derive(Clone, Copy, Debug, PartialEq, Eq)]
pub enum LowerFault {
    /// Each has more than 10,000 points.
    TooLong,
    NoMemory,
}

/// The flow graph of a program with these structs, calls inlined. How long it is is found before it is made.
pub fn lower(alloc: Global, program: &Resolved, structs: &Structs) -> Result<Lowered, LowerFault>
    requires { IsSound (record { program = program.now; structs = structs.now }) }
    ensures flow { IfOk result (λ x. IsFlowOf program.now structs.now x) }
    ensures valid { IfOk result (λ x. IsValidFlow program.now structs.now x) }
    ensures short { IfOk result (λ x. length x.flow.points ≤ 10000) }
    ensures long { IfErr result (λ e. e ≡ TooLong → AreTooLong program.now structs.now) }
{
    match length(alloc, program) {
        Ok(points) => {
            if points > MAX_POINTS {
                return Err(LowerFault::TooLong);
            }
        }
        Err(_) => return Err(LowerFault::NoMemory),
    }
    match build(alloc, program, structs) {
        Ok(lowered) => Ok(lowered),
        Err(BuildFault::NoMemory) => Err(LowerFault::NoMemory),
    }
}
