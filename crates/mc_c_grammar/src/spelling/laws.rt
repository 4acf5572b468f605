// The law of the grammar.
ghost use Rattle.mc_c_syntax.specs.Ast.Grammar.{IsUnit};
ghost use Rattle.mc_c_syntax.specs.Ast.Names.{Tokens};
ghost use Rattle.mc_c_syntax.specs.Ast.Trees.{UnitTree};
ghost use Rattle.std.specs.Prelude.{◌≡◌};

/// Tokens spell one tree at most.
pub fn trees_are_unique()
    ensures { (tokens : Tokens) (one other : UnitTree) → IsUnit one tokens → IsUnit other tokens → one ≡ other }
{}
