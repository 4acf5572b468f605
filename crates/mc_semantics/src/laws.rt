// Laws of steps.
ghost use Rattle.mc_flow.specs.Runs.{ended, stopped, fault};
ghost use Rattle.mc_base.specs.declared.plain.FaultKind.TheVariants.{Null, Uninit, Assertion};
ghost use Rattle.mc_flow.specs.Heap.Choices.{Choice, input as choose_input, malloc as choose_malloc};
ghost use Rattle.mc_semantics.specs.Examples.{at, Comes, assigning, undefined_value, choosing, stopping_early, assuming, whiling, doing, turning, calling, reading_first};
ghost use Rattle.mc_semantics.specs.Configs.{Config, Program, Result};
ghost use Rattle.mc_semantics.specs.Laws.{ArrivalsAreDetermined, ValuesAreDetermined};
ghost use Rattle.mc_semantics.specs.Steps.{Step};
ghost use Rattle.std.specs.Prelude.{◌≡◌, List, [], ◌∷◌, pos};

/// The choices of a run determine each of its steps.
pub fn steps_are_determined()
    ensures { (program : Program) (config : Config) (choices : List Choice) (one other : Result)
        → Step program config choices one → Step program config choices other → one ≡ other }
{}

/// The choices determine what an expression comes to, and the tasks at which the next step is are determined too.
pub fn values_are_determined()
    ensures values { ValuesAreDetermined }
    ensures arrivals { ArrivalsAreDetermined }
{}

/// What small programs come to: declarators and assignments; an undefined value; both sides of a condition with an input;
/// `&&` and `||` that stop early; a false `assume`; `while` with `continue` and `break`, `do`, `for`; calls whose result
/// is stored, dropped and returned; and a field that is read before the variable beside it is taken.
pub fn small_programs_run()
    ensures assigning { Comes assigning 4 [] ended }
    ensures undefined { Comes undefined_value 2 [] (fault Uninit (at 2)) }
    ensures small { Comes choosing 6 (choose_input (pos 4) ∷ []) (fault Assertion (at 19)) }
    ensures large { Comes choosing 7 (choose_input (pos 6) ∷ []) ended }
    ensures early { Comes stopping_early 4 [] (fault Uninit (at 12)) }
    ensures assuming { Comes assuming 1 [] stopped }
    ensures whiling { Comes whiling 7 [] ended }
    ensures doing { Comes doing 2 [] ended }
    ensures turning { Comes turning 7 [] ended }
    ensures calling { Comes calling 13 [] ended }
    ensures reading { Comes reading_first 3 (choose_malloc 0 ∷ []) (fault Null (at 4)) }
{}
