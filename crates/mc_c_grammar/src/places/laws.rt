// Laws of the places of variables.
ghost use Rattle.mc_c_syntax.specs.Ast.Grammar.{IsUnit};
ghost use Rattle.mc_c_syntax.specs.Ast.Trees.{UnitTree};
ghost use Rattle.mc_base.specs.declared.text.place.Place.{Place};
ghost use Rattle.mc_c_syntax.specs.Lex.Readings.{Lexes};
ghost use Rattle.mc_base.specs.declared.text.token.Token.{Token};
ghost use Rattle.mc_c_grammar.specs.Places.Examples.{at, program_at};
ghost use Rattle.mc_c_grammar.specs.Places.Places.{AreAscending, AreDistinct, HasDistinctPlaces, declared_places};
ghost use Rattle.std.specs.Prelude.{◌≡◌, ℕ, List, [], ◌∷◌};

/// The variables of a program that was read from a text are declared at different places, in the order of the text.
pub fn declared_places_ascend()
    ensures { (text : List ℕ) (tokens : List Token) (unit : UnitTree) → Lexes text (Ok tokens) → IsUnit unit tokens
        → HasDistinctPlaces unit }
{}

/// Places that ascend differ at different positions.
pub fn ascending_places_differ()
    ensures { (places : List Place) → AreAscending places → AreDistinct places }
{}

/// Where a small program declares its variables, and one that no text is read as.
pub fn small_programs_have_places()
    ensures places { declared_places (program_at 11 33 47 61 70) ≡ at 11 ∷ at 33 ∷ at 47 ∷ at 61 ∷ at 70 ∷ [] }
    ensures distinct { HasDistinctPlaces (program_at 11 33 47 61 70) }
    ensures twice { ¬ HasDistinctPlaces (program_at 11 33 47 61 61) }
{}
