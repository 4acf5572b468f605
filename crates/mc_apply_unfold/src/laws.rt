// What the rules that unfold rest on. The law is what a function with no body ensures.
ghost use Rattle.mc_apply_unfold.specs.Taking.{BackTakesRules, IndTakesRules, SegTakesRules};

use mc_rules_logic::unfold::{rules_are_made, states_stay_well_made};
use mc_state::nodes_are_there;

/// Where a state is well made for definitions, their rules can be put into it in the place of an edge.
pub fn edges_take_rules()
    ensures ind { IndTakesRules }
    ensures seg { SegTakesRules }
    ensures back { BackTakesRules }
{
    nodes_are_there();
    rules_are_made();
    states_stay_well_made();
}
