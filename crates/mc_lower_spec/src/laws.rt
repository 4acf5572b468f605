// Laws of lowering.
ghost use Rattle.mc_lower_spec.specs.Examples.{calls_graph, calls_main, commands_graph, commands_main, conditions_graph, conditions_main, do_graph, do_main};
ghost use Rattle.mc_lower_spec.specs.Examples.{fields_graph, fields_main, for_graph, for_main, returns_graph, returns_main, run_function, run_graph};
ghost use Rattle.mc_lower_spec.specs.Examples.{values_graph, values_main, while_graph, while_main, whole_graph};
ghost use Rattle.mc_lower_spec.specs.Graphs.{Graph};
ghost use Rattle.mc_lower_spec.specs.Lowering.{IsLowering, Makes};
ghost use Rattle.mc_lower_spec.specs.Runs.{FaultsMatch, RunsMatch};
ghost use Rattle.mc_lower_spec.specs.Scopes.{AreScoped};
ghost use Rattle.std.specs.Prelude.{ℕ};
ghost use Rattle.mc_semantics.specs.Resolved.Programs.{Function};

/// The flow graphs of small programs, which were worked out by hand: expressions and assignments, fields, nested conditions, each
/// loop with `break` and `continue`, commands, two occurrences of a function, and results that are returned on.
pub fn small_programs_are_lowered()
    ensures values { Makes values_graph values_main 11 4 }
    ensures fields { Makes fields_graph fields_main 16 7 }
    ensures conditions { Makes conditions_graph conditions_main 15 4 }
    ensures while_loops { Makes while_graph while_main 13 4 }
    ensures do_loops { Makes do_graph do_main 11 2 }
    ensures for_loops { Makes for_graph for_main 15 3 }
    ensures commands { Makes commands_graph commands_main 16 4 }
    ensures calls { Makes calls_graph calls_main 20 8 }
    ensures returns { Makes returns_graph returns_main 14 6 }
    ensures without_result { Makes run_graph run_function 1 0 }
    ensures whole { IsLowering whole_graph do_main 11 2 }
{}

/// In two of them, a `while` with blocks and a `for` whose body declares a variable of the block around, what is written is in
/// scope.
pub fn small_programs_are_scoped()
    ensures while_loops { AreScoped while_graph.program }
    ensures for_loops { AreScoped for_graph.program }
{}

/// A program and its flow graph: the one comes to a fault, an end or a stop exactly where the other does, if what is written
/// is in scope.
pub fn runs_match()
    ensures { (g : Graph) (entry : Function) (out count : ℕ) → IsLowering g entry out count → AreScoped g.program
        → RunsMatch g entry }
{}

/// Every fault of a program is one of its flow graph, to which the run with the same choices comes, if what is written is in
/// scope.
pub fn faults_match()
    ensures { (g : Graph) (entry : Function) (out count : ℕ) → IsLowering g entry out count → AreScoped g.program
        → FaultsMatch g entry }
{}
