// What lowering needs of resolved programs beside the kinds of their values.
ghost use Rattle.mc_c_syntax.specs.Ast.Trees.{UnitTree};
ghost use Rattle.mc_flow.specs.declared.defs.rules.Def.{Def};
ghost use Rattle.mc_lower_laws.specs.Lowerable.Lowerable.{IsLowerableProgram};
ghost use Rattle.mc_c_grammar.specs.Places.Places.{AreDistinct, declared_places};
ghost use Rattle.mc_semantics.specs.Resolved.Resolving.{resolved_program};
ghost use Rattle.mc_c_types.specs.Tables.{struct_infos, tables_of};
ghost use Rattle.mc_c_types.specs.Typing.{IsWellTyped};
ghost use Rattle.std.specs.Prelude.{ℕ, List};

/// A resolved program can be lowered, if the program is well typed and declares its variables at different places.
pub fn resolved_programs_are_lowerable()
    ensures { (unit : UnitTree) (defs : List Def) (entry : List ℕ) → IsWellTyped unit entry
        → AreDistinct (declared_places unit)
        → IsLowerableProgram (record { list = struct_infos unit }) (resolved_program (tables_of unit) defs entry) }
{}
