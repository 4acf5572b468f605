// Laws of what programs have a flow graph.
ghost use Rattle.mc_c_syntax.specs.Ast.Trees.{UnitTree};
ghost use Rattle.mc_c_types.specs.Calls.{CallSite, call_sites};
ghost use Rattle.mc_c_types.specs.Tables.{tables_of};
ghost use Rattle.mc_flow.specs.declared.defs.rules.Def.{Def};
ghost use Rattle.mc_flow.specs.declared.defs.shapes.Structs.{Structs};
ghost use Rattle.mc_lower_laws.specs.Existing.Ranks.{HasRanks};
ghost use Rattle.mc_lower_laws.specs.Lowerable.Lowerable.{IsLowerableProgram};
ghost use Rattle.mc_lower_laws.specs.Valid.Kinds.{IsWellMade};
ghost use Rattle.mc_lower_spec.specs.Graphs.{Graph};
ghost use Rattle.mc_lower_spec.specs.Lowering.{IsLowering};
ghost use Rattle.mc_lower_spec.specs.Scopes.{AreScoped};
ghost use Rattle.mc_semantics.specs.Resolved.Programs.{Function, Program};
ghost use Rattle.mc_semantics.specs.Resolved.Resolving.{resolved_program};
ghost use Rattle.std.specs.Prelude.{◌≡◌, ◌<◌, ℕ, List, Contains};

/// A resolved program has a flow graph, of however many points, if its values are of the kinds that are wanted, what is
/// written is in scope, what it names is made before, and no function calls itself, at once or by others.
pub fn flow_graphs_exist()
    ensures { (structs : Structs) (p : Program) → IsWellMade structs p → AreScoped p → IsLowerableProgram structs p
        → HasRanks p → (g : Graph) × (entry : Function) × (out : ℕ) × (count : ℕ) × (g.program ≡ p)
        × (g.flow.structs ≡ structs) × IsLowering g entry out count }
{}

/// The functions of a resolved program have ranks, if those of the program have ranks by their names.
pub fn resolved_programs_have_ranks()
    ensures { (unit : UnitTree) (defs : List Def) (entry : List ℕ) (rank : List ℕ → ℕ)
        → ((site : CallSite) → Contains (call_sites unit) site → rank site.callee.text < rank site.caller)
        → HasRanks (resolved_program (tables_of unit) defs entry) }
{}
