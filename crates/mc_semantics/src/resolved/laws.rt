// Laws of resolved programs.
ghost use Rattle.mc_c_syntax.specs.Ast.Trees.{FunctionTree};
ghost use Rattle.mc_flow.specs.declared.defs.rules.Def.{Def};
ghost use Rattle.mc_flow.specs.Heap.Choices.{Choice};
ghost use Rattle.mc_flow.specs.Heap.Heap.{Heap};
ghost use Rattle.mc_semantics.specs.Configs.{Config as NamedConfig, Values as NamedValues};
ghost use Rattle.mc_semantics.specs.Examples.{turning};
ghost use Rattle.mc_semantics.specs.Resolved.Configs.{Config, Values};
ghost use Rattle.mc_semantics.specs.Resolved.Examples.{hiding, hiding_resolved, linking, linking_resolved, resolved, turning_resolved};
ghost use Rattle.mc_semantics.specs.Resolved.Running.{Agree, AreKnown, ArriveAlike, Match, RunAlike, StepAlike, ValuesAlike};
ghost use Rattle.mc_c_types.specs.Tables.{Tables, Variable, called_function};
ghost use Rattle.std.specs.Prelude.{◌≡◌, ℕ, List};

/// A program and its resolved program run alike, step by step: with the same choices, faults, places, ends, stops and waits.
pub fn resolved_programs_run_alike()
    ensures steps { (t : Tables) (defs : List Def) (entry : List ℕ) (c : NamedConfig) (d : Config)
        (choices : List Choice) → Match t defs c d → StepAlike t defs entry c d choices }
    ensures runs { (t : Tables) (defs : List Def) (entry : List ℕ) (f : FunctionTree) → called_function t entry
        ≡ Some f → RunAlike t defs entry f }
{}

/// Between two steps they are alike too: each name and each expression has the same value in both, and where the one comes to its
/// next step the other comes to the same step.
pub fn resolved_programs_stand_alike()
    ensures values { (t : Tables) (defs : List Def) (locals : List Variable) (vs : List Variable)
        (values : NamedValues) (numbered : Values) (heap : Heap) → Agree locals values numbered → AreKnown locals vs
        → ValuesAlike t defs locals vs values numbered heap }
    ensures arrivals { (t : Tables) (defs : List Def) (c : NamedConfig) (d : Config) → Match t defs c d → ArriveAlike t defs c d }
{}

/// What is left of small programs: a variable that hides another one in its block, and in its own value; the variable of the
/// head of a `for`; an argument of a call; and a struct with a field.
pub fn small_programs_are_resolved()
    ensures hiding { resolved hiding ≡ hiding_resolved }
    ensures turning { resolved turning ≡ turning_resolved }
    ensures linking { resolved linking ≡ linking_resolved }
{}
