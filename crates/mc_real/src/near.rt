// How near ends and faults are in programs without loops.
ghost use Rattle.std.specs.Prelude.{◌≡◌, ℕ, List, [], Some};
ghost use Rattle.mc_flow.specs.declared.defs.rules.Def.{Def};
ghost use Rattle.mc_c_syntax.specs.Ast.Trees.{FunctionTree, UnitTree};
ghost use Rattle.mc_c_grammar.specs.Places.Places.{AreDistinct, declared_places};
ghost use Rattle.mc_c_types.specs.Tables.{called_function, tables_of};
ghost use Rattle.mc_c_types.specs.Typing.{IsWellTyped};
ghost use Rattle.mc_semantics.specs.Resolved.Programs.{Function};
ghost use Rattle.mc_semantics.specs.Resolved.Resolving.{resolved_program};
ghost use Rattle.mc_semantics.specs.Steps.{program_of};
ghost use Rattle.mc_lower_spec.specs.Graphs.{Graph};
ghost use Rattle.mc_lower_spec.specs.Lowering.{IsLowering};
ghost use Rattle.mc_real.specs.Near.{FlowFaultsAreNear, RunsAreShort};

use mc_lower_laws::scoped::flow_faults_are_in_programs;
use mc_semantics::resolved::resolved_programs_run_alike;

/// Where the flow graph has no loops, each run of the program that comes to an end does so within two steps for each point:
/// a call and the `return` in it have the point behind the call's body, and each other step has a point of its own.
pub fn runs_are_short()
    ensures { (g : Graph) (entry : Function) (out count : ℕ) → IsLowering g entry out count → g.flow.heads ≡ []
        → RunsAreShort g entry }
{}

/// Where the flow graph has no loops, every fault of it is one of the program, to which the run with the same choices comes
/// within two steps for each point, if the program is well typed and declares its variables at different places.
pub fn flow_faults_are_near()
    ensures { (unit : UnitTree) (defs : List Def) (entry : List ℕ) (f : FunctionTree)
        (g : Graph) (start : Function) (out count : ℕ) → IsWellTyped unit entry → AreDistinct (declared_places unit)
        → called_function (tables_of unit) entry ≡ Some f
        → g.program ≡ resolved_program (tables_of unit) defs entry → IsLowering g start out count → g.flow.heads ≡ []
        → FlowFaultsAreNear g.flow defs (program_of unit defs) f }
{
    // These laws are called for the proof alone: the run to the fault, however long, is as short as all are.
    flow_faults_are_in_programs();
    runs_are_short();
    resolved_programs_run_alike();
}
