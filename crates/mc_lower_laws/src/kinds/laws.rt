// Laws of the kinds of resolved programs.
ghost use Rattle.mc_c_syntax.specs.Ast.Grammar.{IsUnit};
ghost use Rattle.mc_c_syntax.specs.Ast.Trees.{UnitTree};
ghost use Rattle.mc_flow.specs.Defs.Conditions.{DefsFit};
ghost use Rattle.mc_flow.specs.declared.defs.rules.Def.{Def};
ghost use Rattle.mc_lower_laws.specs.Kinds.Examples.{names_itself};
ghost use Rattle.mc_lower_laws.specs.Kinds.Typedefs.{HasKnownTypedefs};
ghost use Rattle.mc_c_grammar.specs.Numbers.Numbers.{HasSmallNumbers};
ghost use Rattle.mc_c_grammar.specs.Places.Places.{AreDistinct, declared_places};
ghost use Rattle.mc_semantics.specs.Resolved.Resolving.{resolved_program};
ghost use Rattle.mc_base.specs.declared.text.token.Token.{Token};
ghost use Rattle.mc_c_types.specs.Shapes.{IsBound};
ghost use Rattle.mc_c_types.specs.Tables.{struct_infos, tables_of};
ghost use Rattle.mc_c_types.specs.Typing.{IsWellTyped};
ghost use Rattle.mc_lower_laws.specs.Valid.Kinds.{IsWellMade};
ghost use Rattle.std.specs.Prelude.{ℕ, List, [], codes};

/// The typedefs of a program that was read name what stands before them.
pub fn typedefs_are_known()
    ensures { (unit : UnitTree) (tokens : List Token) → IsUnit unit tokens → HasKnownTypedefs unit }
{}

/// The values of a resolved program are of the kinds that are wanted, if the program is well typed, its typedefs name
/// what stands before them, its numbers are small, it declares its variables at different places, and the definitions
/// fit its structs and its shape commands.
pub fn resolved_programs_are_well_made()
    ensures { (unit : UnitTree) (defs : List Def) (entry : List ℕ) → IsWellTyped unit entry → HasKnownTypedefs unit
        → HasSmallNumbers unit → AreDistinct (declared_places unit) → DefsFit (struct_infos unit) defs
        → IsBound unit defs
        → IsWellMade (record { list = struct_infos unit }) (resolved_program (tables_of unit) defs entry) }
{}

/// The premise on typedefs is needed: a program that meets all others, and that no text spells, is not of its kinds.
pub fn typedefs_matter()
    ensures typed { IsWellTyped names_itself (codes "main") }
    ensures small { HasSmallNumbers names_itself }
    ensures distinct { AreDistinct (declared_places names_itself) }
    ensures fit { DefsFit (struct_infos names_itself) [] }
    ensures bound { IsBound names_itself [] }
    ensures wrong { ¬ IsWellMade (record { list = struct_infos names_itself })
        (resolved_program (tables_of names_itself) [] (codes "main")) }
{}
