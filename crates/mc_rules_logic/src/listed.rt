//! What is written where a node is forgotten, as a law: there is such a list for every state.

ghost use Rattle.mc_rules_logic.specs.Listed.Lists.{ListsAreThere};

use mc_pure::{derived_grows, each_is_decided, normal_forms_say_all};

/// For each node of a state there is the list of atoms that is written where the node is forgotten.
pub fn lists_are_there()
    ensures { ListsAreThere }
{
    each_is_decided();
    normal_forms_say_all();
    derived_grows();
}
