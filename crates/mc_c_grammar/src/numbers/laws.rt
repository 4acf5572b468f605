// Laws of the numbers of programs.
ghost use Rattle.mc_c_syntax.specs.Ast.Grammar.{IsUnit};
ghost use Rattle.mc_c_syntax.specs.Ast.Trees.{UnitTree};
ghost use Rattle.mc_base.specs.declared.text.token.Token.{Token};
ghost use Rattle.mc_c_grammar.specs.Numbers.Examples.{program_of};
ghost use Rattle.mc_c_grammar.specs.Numbers.Numbers.{HasSmallNumbers, unit_numbers};
ghost use Rattle.std.specs.Prelude.{◌≡◌, List, [], ◌∷◌};

/// The numbers of a program that was read are at most 2147483647.
pub fn numbers_are_small()
    ensures { (unit : UnitTree) (tokens : List Token) → IsUnit unit tokens → HasSmallNumbers unit }
{}

/// The numbers of a small program, how great they may be, and one that is too great.
pub fn small_programs_have_numbers()
    ensures numbers { unit_numbers (program_of 10 20 30 40 50 60) ≡ 10 ∷ 20 ∷ 30 ∷ 40 ∷ 50 ∷ 60 ∷ [] }
    ensures greatest { HasSmallNumbers (program_of 10 20 30 40 50 2147483647) }
    ensures beyond { ¬ HasSmallNumbers (program_of 10 20 30 40 50 2147483648) }
{}
