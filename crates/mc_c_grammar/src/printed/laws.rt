// Laws of printed programs.
ghost use Rattle.mc_c_syntax.specs.Ast.Trees.{UnitTree};
ghost use Rattle.mc_c_grammar.specs.Spelling.Words.{Words, text_of};
ghost use Rattle.mc_c_syntax.specs.Lex.Readings.{Lexes};
ghost use Rattle.mc_c_grammar.specs.Printed.Aside.{IsSameAside};
ghost use Rattle.mc_c_grammar.specs.Printed.Examples.{prototype_of};
ghost use Rattle.mc_c_grammar.specs.Printed.Printable.{ArePrintable, Carries};
ghost use Rattle.mc_c_grammar.specs.Printed.Texts.{IsReadAs, printed};
ghost use Rattle.std.specs.Prelude.{◌≡◌, ◌++◌, ℕ, List, [], ◌∷◌, ◌↔◌, Ok, codes};
ghost use Rattle.mc_base.specs.declared.text.token.Token.{Token};

use crate::spelling::trees_are_unique;
use mc_c_syntax::lex::readings_are_unique;

/// The text of words, each of which is one token, is read as tokens with these words.
pub fn printed_words_are_read()
    ensures { (words : Words) → ArePrintable words → (tokens : List Token) × Lexes (text_of words) (Ok tokens) × Carries tokens words }
{}

/// What is printed of a program that was read is read again, and as nothing but the same program, its places aside.
pub fn printed_programs_are_read()
    ensures read { (text : List ℕ) (unit : UnitTree) → IsReadAs text unit → (other : UnitTree)
        × IsReadAs (printed unit) other × IsSameAside unit other }
    ensures only { (text : List ℕ) (unit other : UnitTree) → IsReadAs text unit → IsReadAs (printed unit) other → IsSameAside unit other }
{
    printed_words_are_read();
    readings_are_unique();
    trees_are_unique();
}

/// The same text is printed of two programs that were read exactly where they are the same, their places aside.
pub fn printing_tells_programs_apart()
    ensures { (text another : List ℕ) (unit other : UnitTree) → IsReadAs text unit → IsReadAs another other
        → IsSameAside unit other ↔ (printed unit ≡ printed other) }
{
    printed_words_are_read();
    readings_are_unique();
    trees_are_unique();
}

/// Which small programs are the same, and what is printed of one.
pub fn small_programs_are_printed()
    ensures lines { IsSameAside (prototype_of 1 (codes "f")) (prototype_of 2 (codes "f")) }
    ensures names { ¬ IsSameAside (prototype_of 1 (codes "f")) (prototype_of 1 (codes "g")) }
    ensures text { printed (prototype_of 1 (codes "f")) ≡ codes "int f ( ) ;" ++ 10 ∷ [] }
{}
