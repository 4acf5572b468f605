// What holds of what texts are read as.
ghost use Rattle.mc_c_syntax.specs.Ast.Trees.{UnitTree};
ghost use Rattle.mc_c_grammar.specs.Places.Places.{HasDistinctPlaces};
ghost use Rattle.mc_load.specs.Read.Programs.{IsReadAs, IsProgramOf};
ghost use Rattle.mc_load.specs.Read.Refusals.{IsRefused};
ghost use Rattle.mc_load.specs.declared.read.cause.Refusal.{Refusal as Told};
ghost use Rattle.std.specs.Prelude.{◌≡◌, List, ℕ};

use mc_c_grammar::places::declared_places_ascend;
use mc_c_grammar::spelling::trees_are_unique;
use mc_c_syntax::lex::readings_are_unique;
use mc_c_types::first_fault_is_told_once;

/// A text is read as one tree at most.
pub fn texts_are_read_once()
    ensures { (text : List ℕ) (one other : UnitTree) → IsReadAs text one → IsReadAs text other → one ≡ other }
{
    readings_are_unique();
    trees_are_unique();
}

/// The variables of a program are declared at different places.
pub fn programs_have_distinct_places()
    ensures { (text : List ℕ) (unit : UnitTree) → IsReadAs text unit → HasDistinctPlaces unit }
{
    declared_places_ascend();
}

/// A text that is a program for an entry is not refused for it.
pub fn programs_are_not_refused()
    ensures { (text entry : List ℕ) (unit : UnitTree) (refusal : Told) → IsProgramOf text entry unit → ¬ IsRefused text entry refusal }
{
    readings_are_unique();
    trees_are_unique();
    first_fault_is_told_once();
}

/// A text has one refusal at most.
pub fn texts_are_refused_once()
    ensures { (text entry : List ℕ) (one other : Told) → IsRefused text entry one → IsRefused text entry other → one ≡ other }
{
    readings_are_unique();
    trees_are_unique();
    first_fault_is_told_once();
}
