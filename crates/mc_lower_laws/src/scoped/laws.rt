// Laws of the scopes of resolved programs.
ghost use Rattle.mc_c_syntax.specs.Ast.Trees.{FunctionTree, UnitTree};
ghost use Rattle.mc_flow.specs.declared.defs.rules.Def.{Def};
ghost use Rattle.mc_flow.specs.Steps.{IsSafeFlow};
ghost use Rattle.mc_lower_laws.specs.Faults.{FaultsAreIn, FlowFaultsAreIn};
ghost use Rattle.mc_lower_spec.specs.Graphs.{Graph};
ghost use Rattle.mc_lower_spec.specs.Lowering.{IsLowering};
ghost use Rattle.mc_lower_spec.specs.Scopes.{AreScoped};
ghost use Rattle.mc_semantics.specs.Steps.{IsSafeProgram, program_of};
ghost use Rattle.mc_c_grammar.specs.Places.Places.{AreDistinct, declared_places};
ghost use Rattle.mc_semantics.specs.Resolved.Programs.{Function};
ghost use Rattle.mc_semantics.specs.Resolved.Resolving.{resolved_program};
ghost use Rattle.mc_c_types.specs.Tables.{called_function, tables_of};
ghost use Rattle.mc_c_types.specs.Typing.{IsWellTyped};
ghost use Rattle.std.specs.Prelude.{◌≡◌, ℕ, List, Some};

use mc_lower_spec::{faults_match, runs_match};
use mc_semantics::resolved::resolved_programs_run_alike;

/// In a resolved program what is written is in scope, if the program is well typed and declares its variables at
/// different places.
pub fn resolved_programs_are_scoped()
    ensures { (unit : UnitTree) (defs : List Def) (entry : List ℕ) → IsWellTyped unit entry
        → AreDistinct (declared_places unit) → AreScoped (resolved_program (tables_of unit) defs entry) }
{}

/// Every fault of a program is one of its flow graph, to which the run with the same choices comes, if the program is well typed
/// and declares its variables at different places.
pub fn faults_are_in_flow_graphs()
    ensures { (unit : UnitTree) (defs : List Def) (entry : List ℕ) (f : FunctionTree)
        (g : Graph) (start : Function) (out count : ℕ) → IsWellTyped unit entry → AreDistinct (declared_places unit)
        → called_function (tables_of unit) entry ≡ Some f
        → g.program ≡ resolved_program (tables_of unit) defs entry → IsLowering g start out count
        → FaultsAreIn g.flow defs (program_of unit defs) f }
{
    // These laws are called for the proof alone.
    resolved_programs_are_scoped();
    faults_match();
    resolved_programs_run_alike();
}

/// Every fault of the flow graph is one of the program, to which the run with the same choices comes, if the program is well
/// typed and declares its variables at different places.
pub fn flow_faults_are_in_programs()
    ensures { (unit : UnitTree) (defs : List Def) (entry : List ℕ) (f : FunctionTree)
        (g : Graph) (start : Function) (out count : ℕ) → IsWellTyped unit entry → AreDistinct (declared_places unit)
        → called_function (tables_of unit) entry ≡ Some f
        → g.program ≡ resolved_program (tables_of unit) defs entry → IsLowering g start out count
        → FlowFaultsAreIn g.flow defs (program_of unit defs) f }
{
    // These laws are called for the proof alone.
    resolved_programs_are_scoped();
    runs_match();
    resolved_programs_run_alike();
}

/// A safe flow graph of the resolved program means that the program itself is safe, if it is well typed and declares
/// its variables at different places.
pub fn safe_flow_graphs_mean_safe_trees()
    ensures { (unit : UnitTree) (defs : List Def) (entry : List ℕ) (f : FunctionTree)
        (g : Graph) (start : Function) (out count : ℕ) → IsWellTyped unit entry → AreDistinct (declared_places unit)
        → called_function (tables_of unit) entry ≡ Some f
        → g.program ≡ resolved_program (tables_of unit) defs entry → IsLowering g start out count
        → IsSafeFlow g.flow defs → IsSafeProgram (program_of unit defs) f }
{
    // For the proof alone: a fault of the program is one of its flow graph.
    faults_are_in_flow_graphs();
}
