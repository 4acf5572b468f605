// A program that runs.
ghost use Rattle.std.specs.Prelude.{◌≡◌, IfOk, map};
ghost use Rattle.mc_semantics.specs.Resolved.Views.{expression_of};
ghost use Rattle.mc_run.specs.Models.{here_of};
ghost use Rattle.mc_run_values.specs.Values.Models.{AreEvaluated, IsEvaluated};

use mc_base::NoMemory;
use mc_flow::defs::Defs;
use mc_flow::heap::Heap;
use mc_run_values::script::{NamedStructs, Script};
use mc_run_values::tasks::Work;
use mc_run_values::values::{Arguments, Evaluated, Evaluator, Here};
use mc_semantics::resolved::{Expression, Resolved};
use std::alloc::Global;

/// A program, with its definitions and its structs.
#[derive(Clone, Copy)]
pub struct Program<'a> {
    pub resolved: &'a Resolved,
    pub defs: &'a Defs,
    pub structs: &'a NamedStructs<'a>,
}

/// Where a run is.
pub struct Machine<'a> {
    pub work: Work<'a>,
    pub heap: Heap,
    pub evaluator: Evaluator<'a>,
    pub alloc: Global,
}

/// Drops its parts. What holds one calls this.
impl Drop for Machine<'_> {
    fn drop(self) {
        let Machine {
            work,
            heap,
            evaluator,
            alloc: _,
        } = self;
        drop(work);
        drop(heap);
        drop(evaluator);
    }
}

impl<'a> Machine<'a> {
    /// What an expression comes to.
    pub fn evaluate(
        &mut self,
        program: Program<'a>,
        script: &mut Script,
        expression: &'a Expression,
    ) -> Result<Evaluated, NoMemory>
        ensures answer { IfOk result (λ answer. IsEvaluated program.entry.structs.now (here_of self.old).values (here_of self.old).heap
            (expression_of expression.now) script.old answer script.new) }
        ensures work { self.new.work ≡ self.old.work }
        ensures heap { self.new.heap ≡ self.old.heap }
    {
        let here = Here {
            values: self.work.values(),
            heap: &self.heap,
            structs: program.structs,
        };
        self.evaluator.evaluate(&here, script, expression)
    }

    /// What arguments come to, one after the other.
    pub fn evaluate_all(
        &mut self,
        program: Program<'a>,
        script: &mut Script,
        arguments: &'a [Expression],
    ) -> Result<Arguments, NoMemory>
        ensures answer { IfOk result (λ answer. AreEvaluated program.entry.structs.now (here_of self.old).values (here_of self.old).heap
            (map expression_of arguments.now) script.old answer script.new) }
        ensures work { self.new.work ≡ self.old.work }
        ensures heap { self.new.heap ≡ self.old.heap }
    {
        let here = Here {
            values: self.work.values(),
            heap: &self.heap,
            structs: program.structs,
        };
        self.evaluator.evaluate_all(&here, script, arguments)
    }
}
